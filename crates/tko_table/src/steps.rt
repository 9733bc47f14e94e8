//! The step functions. Each takes one atomic step on one word, with a seat that has one pass: the
//! step that the pass's call takes from its phase.
ghost use Rattle.std.specs.Prelude.{◌≡◌, ◌<◌, ◌+◌, true, [], drop, length, take, ◌++◌};
ghost use Rattle.tko_model.specs.Tracker.{IsFit};
ghost use Rattle.tko_model.specs.declared.mark.Op.TheVariants as op;
ghost use Rattle.tko_word.specs.Words.{IsMarkOf, IsWord};
ghost use Rattle.tko_steps.specs.declared.table.Action.TheVariants.{Give, LookAtServer, LookAtSlots, Reserve};
ghost use Rattle.tko_steps.specs.declared.table.Observed.TheVariants as seen;
ghost use Rattle.tko_steps.specs.Table.{action_of};
ghost use Rattle.tko_steps.specs.declared.phase.Phase.TheVariants.{Start};
ghost use Rattle.tko_steps.specs.declared.step.StepKind.TheVariants as kind;
ghost use Rattle.tko_steps.specs.Steps.{is_marked_state, kind_of_exchange};
ghost use Rattle.tko_table.specs.Passes.{count_enrolled, passes_raised};
ghost use Rattle.tko_table.specs.Rule.{health_place};
ghost use Rattle.tko_table.specs.Enrolments.{DrawsNumber};
ghost use Rattle.tko_table.specs.Steps.{CanLook, IsAt, IsExchangeAt, IsLook, IsSameSeat, IsShift, IsSound, Looked, Took, is_look_at_slots, is_settle, view_of};

use crate::plays::{
    self, BothAsSeen, BothPasses, ChangesSlots, Exchanges, FailsHard, FailsSoftly, FirstPass,
    Looks, LooksAtSlots, LooksUp, Operation, Releases, Succeeds,
};
use crate::values::{
    ENROLMENT, is_won, one_slot, one_thread, place_of, slot_over_mark, soft_place_of, word_after,
    word_of,
};
use crate::{Seat, Words};
use tko_model::{Mark, Op, ServerState};
use tko_steps::{Action, Call, Observed, Phase, Slots};
use tko_word::{pack_soft, unpack, unpack_soft};

impl Words {
    /// Loads the word that the call looks at next. A call begins with its first look: the pass is
    /// then idle, and the phase is `Start`.
    pub fn look(&self, seat: &mut Seat, call: &Call, phase: Phase) -> Observed
        requires seat { seat.old.table_id ≡ self.now.table.shared.table_id }
        requires stands { CanLook self.now.settings call.now.op (view_of seat.old) call.now phase }
        requires kind { IsLook (action_of call.now.number phase) }
        ensures seat { IsSameSeat seat.old seat.new }
        ensures step { Took (view_of seat.old) call.now phase result (view_of seat.new) }
        ensures sound { IsSound self.now.settings call.now.server result }
    {
        if is_look_at_slots(phase.action(call)) {
            Observed::Slots(self.look_at_slots(seat, call, phase))
        } else {
            Observed::Server(self.look_at_server(seat, call, phase))
        }
    }

    /// Loads the word of the server that a look-up asks for, by the one atomic load that a look-up
    /// makes.
    pub fn look_up(&self, seat: &mut Seat, call: &Call) -> ServerState
        requires seat { seat.old.table_id ≡ self.now.table.shared.table_id }
        requires stands { CanLook self.now.settings op.LookUp (view_of seat.old) call.now Start }
        ensures seat { IsSameSeat seat.old seat.new }
        ensures step { Took
            (view_of seat.old) call.now Start (seen.Server result) (view_of seat.new) }
        ensures sound { IsSound self.now.settings call.now.server (seen.Server result) }
    {
        let (mark, stamp) = unpack(self.load_as::<LooksUp>(seat, call, Phase::Start));
        ServerState { mark, stamp }
    }

    fn look_at_server(&self, seat: &mut Seat, call: &Call, phase: Phase) -> ServerState
        requires seat { seat.old.table_id ≡ self.now.table.shared.table_id }
        requires stands { CanLook self.now.settings call.now.op (view_of seat.old) call.now phase }
        requires kind { action_of call.now.number phase ≡ LookAtServer }
        ensures seat { IsSameSeat seat.old seat.new }
        ensures step { Took
            (view_of seat.old) call.now phase (seen.Server result) (view_of seat.new) }
        ensures sound { IsSound self.now.settings call.now.server (seen.Server result) }
    {
        let (mark, stamp) = unpack(self.load(seat, call, phase));
        ServerState { mark, stamp }
    }

    /// Loads the word of the call's server.
    fn load(&self, seat: &mut Seat, call: &Call, phase: Phase) -> u64
        requires seat { seat.old.table_id ≡ self.now.table.shared.table_id }
        requires stands { CanLook self.now.settings call.now.op (view_of seat.old) call.now phase }
        requires kind { action_of call.now.number phase ≡ LookAtServer }
        ensures seat { IsSameSeat seat.old seat.new }
        ensures looked { Looked
            call.now.op (health_place call.now.server) seat.old.me result seat.new.me }
    {
        match call.op {
            Op::LookUp => self.load_as::<LooksUp>(seat, call, phase),
            Op::SoftFailure => self.load_as::<FailsSoftly>(seat, call, phase),
            Op::HardFailure => self.load_as::<FailsHard>(seat, call, phase),
            Op::Success => self.load_as::<Succeeds>(seat, call, phase),
            Op::Release => self.load_as::<Releases>(seat, call, phase),
        }
    }

    /// The same, of a call whose operation is a type.
    fn load_as<O: Operation>(&self, seat: &mut Seat, call: &Call, phase: Phase) -> u64
        requires seat { seat.old.table_id ≡ self.now.table.shared.table_id }
        requires stands { CanLook self.now.settings O.op (view_of seat.old) call.now phase }
        requires kind { action_of call.now.number phase ≡ LookAtServer }
        ensures seat { IsSameSeat seat.old seat.new }
        ensures looked { Looked
            O.op (health_place call.now.server) seat.old.me result seat.new.me }
    {
        let _ = phase;
        self.table
            .shared
            .load::<Looks<O>>(seat, place_of(call.server))
    }

    fn look_at_slots(&self, seat: &mut Seat, call: &Call, phase: Phase) -> Slots
        requires seat { seat.old.table_id ≡ self.now.table.shared.table_id }
        requires stands { CanLook self.now.settings call.now.op (view_of seat.old) call.now phase }
        requires kind { action_of call.now.number phase ≡ LookAtSlots }
        ensures seat { IsSameSeat seat.old seat.new }
        ensures step { Took
            (view_of seat.old) call.now phase (seen.Slots result) (view_of seat.new) }
        ensures sound { IsSound self.now.settings call.now.server (seen.Slots result) }
    {
        let _ = phase;
        let place = soft_place_of(&self.settings, call.server);
        let word = self.table.shared.load::<LooksAtSlots>(seat, place);
        let (firm, held) = unpack_soft(word);
        Slots { firm, held }
    }

    /// Takes one more slot, if the soft word still has these counts, and answers whether it did.
    pub fn reserve(&self, seat: &mut Seat, call: &Call, phase: Phase, slots: Slots) -> bool
        requires seat { seat.old.table_id ≡ self.now.table.shared.table_id }
        requires stands { IsAt (view_of seat.old) call.now phase }
        requires kind { action_of call.now.number phase ≡ Reserve slots }
        ensures seat { IsSameSeat seat.old seat.new }
        ensures step { Took
            (view_of seat.old) call.now phase (seen.Done result) (view_of seat.new) }
    {
        let _ = phase;
        let place = soft_place_of(&self.settings, call.server);
        let expected = pack_soft(slots.firm, slots.held);
        let new = expected.wrapping_add(one_slot());
        let shared = &self.table.shared;
        is_won(
            shared.compare_exchange::<ChangesSlots>(seat, place, expected, new),
            expected,
        )
    }

    /// Settles the call's soft mark, or loosens it, as its phase says.
    pub fn shift(&self, seat: &mut Seat, call: &Call, phase: Phase)
        requires seat { seat.old.table_id ≡ self.now.table.shared.table_id }
        requires stands { IsAt (view_of seat.old) call.now phase }
        requires kind { IsShift (action_of call.now.number phase) }
        ensures seat { IsSameSeat seat.old seat.new }
        ensures step { Took
            (view_of seat.old) call.now phase (seen.Done true) (view_of seat.new) }
    {
        let place = soft_place_of(&self.settings, call.server);
        let shared = &self.table.shared;
        if is_settle(phase.action(call)) {
            shared.fetch_sub::<ChangesSlots>(seat, place, slot_over_mark());
        } else {
            shared.fetch_add::<ChangesSlots>(seat, place, slot_over_mark());
        }
    }

    /// Gives the slot back that the call holds.
    pub fn give(&self, seat: &mut Seat, call: &Call, phase: Phase)
        requires seat { seat.old.table_id ≡ self.now.table.shared.table_id }
        requires stands { IsAt (view_of seat.old) call.now phase }
        requires kind { action_of call.now.number phase ≡ Give }
        ensures seat { IsSameSeat seat.old seat.new }
        ensures step { Took
            (view_of seat.old) call.now phase (seen.Done true) (view_of seat.new) }
    {
        let _ = phase;
        let place = soft_place_of(&self.settings, call.server);
        self.table
            .shared
            .fetch_sub::<ChangesSlots>(seat, place, one_slot());
    }

    /// Exchanges an unmarked word for an unmarked one, and answers whether it was still as found.
    pub fn count(
        &self,
        seat: &mut Seat,
        call: &Call,
        phase: Phase,
        found: ServerState,
        mark: Mark,
    ) -> bool
        requires seat { seat.old.table_id ≡ self.now.table.shared.table_id }
        requires exchange { IsExchangeAt
            self.now.settings (view_of seat.old) call.now phase found mark }
        requires kind { kind_of_exchange found.mark mark ≡ kind.Count }
        ensures seat { IsSameSeat seat.old seat.new }
        ensures step { Took
            (view_of seat.old) call.now phase (seen.Done result) (view_of seat.new) }
    {
        self.exchange(seat, call, phase, found, mark)
    }

    /// Exchanges an unmarked word for a marked one, and answers whether it was still as found.
    pub fn mark(
        &self,
        seat: &mut Seat,
        call: &Call,
        phase: Phase,
        found: ServerState,
        mark: Mark,
    ) -> bool
        requires seat { seat.old.table_id ≡ self.now.table.shared.table_id }
        requires exchange { IsExchangeAt
            self.now.settings (view_of seat.old) call.now phase found mark }
        requires kind { kind_of_exchange found.mark mark ≡ kind.Mark }
        ensures seat { IsSameSeat seat.old seat.new }
        ensures step { Took
            (view_of seat.old) call.now phase (seen.Done result) (view_of seat.new) }
    {
        self.exchange(seat, call, phase, found, mark)
    }

    /// Exchanges the word of the call's own mark. No other thread changes it, so it is won.
    pub fn own(
        &self,
        seat: &mut Seat,
        call: &Call,
        phase: Phase,
        found: ServerState,
        mark: Mark,
    ) -> bool
        requires seat { seat.old.table_id ≡ self.now.table.shared.table_id }
        requires exchange { IsExchangeAt
            self.now.settings (view_of seat.old) call.now phase found mark }
        requires kind { kind_of_exchange found.mark mark ≡ kind.Own }
        ensures seat { IsSameSeat seat.old seat.new }
        ensures step { Took
            (view_of seat.old) call.now phase (seen.Done result) (view_of seat.new) }
        ensures won { result ≡ true }
    {
        self.exchange(seat, call, phase, found, mark)
    }

    /// Exchanges the server's word, if it still is as found, for this mark and a stamp that is one
    /// more, and answers whether it did.
    fn exchange(
        &self,
        seat: &mut Seat,
        call: &Call,
        phase: Phase,
        found: ServerState,
        mark: Mark,
    ) -> bool
        requires seat { seat.old.table_id ≡ self.now.table.shared.table_id }
        requires exchange { IsExchangeAt
            self.now.settings (view_of seat.old) call.now phase found mark }
        ensures seat { IsSameSeat seat.old seat.new }
        ensures step { Took
            (view_of seat.old) call.now phase (seen.Done result) (view_of seat.new) }
        ensures own { is_marked_state found.mark ≡ true → result ≡ true }
    {
        let _ = phase;
        let expected = word_of(found);
        let new = word_after(found, mark);
        let shared = &self.table.shared;
        let place = place_of(call.server);
        is_won(
            shared.compare_exchange::<Exchanges>(seat, place, expected, new),
            expected,
        )
    }

    /// Draws a number for the first of the seat's passes that has none: how many were drawn before.
    pub fn enrol(&self, seat: &mut Seat) -> u32
        requires seat { seat.old.table_id ≡ self.now.table.shared.table_id }
        requires waits { count_enrolled (view_of seat.old) < length (view_of seat.old) }
        ensures seat { IsSameSeat seat.old seat.new }
        ensures drew { DrawsNumber (view_of seat.old) result (view_of seat.new) }
    {
        let shared = &self.table.shared;
        shared.fetch_add::<plays::Enrols>(seat, ENROLMENT, one_thread()) as u32
    }

    /// Leaves the seat its first pass, and answers a seat with the others. It loads one word.
    pub fn split(&self, seat: &mut Seat) -> Seat
        requires { seat.old.table_id ≡ self.now.table.shared.table_id }
        ensures seat { IsSameSeat seat.old seat.new }
        ensures first { view_of seat.new ≡ take 1 (view_of seat.old) }
        ensures others { result.table_id ≡ seat.old.table_id }
        ensures rest { result.me ≡ (drop 1 (view_of seat.old), []) }
    {
        self.table.shared.split_seat::<FirstPass>(seat)
    }

    /// Gives the seat the passes of another, each of which has then seen what any of them had seen.
    /// It loads one word.
    pub fn join(&self, seat: &mut Seat, other: Seat)
        requires seat { seat.old.table_id ≡ self.now.table.shared.table_id }
        requires other { other.table_id ≡ self.now.table.shared.table_id }
        requires slots { other.me.1 ≡ [] }
        ensures seat { IsSameSeat seat.old seat.new }
        ensures both { view_of seat.new ≡ passes_raised (view_of seat.old ++ view_of other) }
    {
        self.table.shared.join_seat::<BothPasses>(seat, other);
    }

    /// Gives the seat the passes of another, each of which has seen what it had seen. It loads one
    /// word.
    pub fn gather(&self, seat: &mut Seat, other: Seat)
        requires seat { seat.old.table_id ≡ self.now.table.shared.table_id }
        requires other { other.table_id ≡ self.now.table.shared.table_id }
        requires slots { other.me.1 ≡ [] }
        ensures seat { IsSameSeat seat.old seat.new }
        ensures both { view_of seat.new ≡ view_of seat.old ++ view_of other }
    {
        self.table.shared.join_seat::<BothAsSeen>(seat, other);
    }
}

/// Whether the step is a load of the soft word.
fn is_look_at_slots(action: Action) -> bool
    ensures { result ≡ is_look_at_slots action }
{
    matches!(action, Action::LookAtSlots)
}

fn is_settle(action: Action) -> bool
    ensures { result ≡ is_settle action }
{
    matches!(action, Action::Settle)
}
