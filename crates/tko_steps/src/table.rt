//! The one decision: what a call does after each of its steps.
ghost use Rattle.std.specs.Prelude.{◌≡◌, ◌<◌};
ghost use Rattle.tko_steps.specs.Table.{action_of, after_change, after_look, after_slots, at_threshold, from_start, goes, lost_try, next_of, puts, same_server};

use crate::{Call, Phase, Place, Slots, StepKind, ThreadState};
use tko_model::{Mark, Reply, ServerState, Settings, Transition};

/// One step on one word.
#[derive(Clone, Copy)]
pub enum Action {
    LookAtServer,
    LookAtSlots,
    /// Exchanges the server, if it is still as found, for this mark and a stamp that is one more.
    Exchange { found: ServerState, mark: Mark },
    /// Takes one more slot, if the soft word still has these counts.
    Reserve { slots: Slots },
    /// Turns a held slot into a settled mark.
    Settle,
    /// Turns a settled mark into a held slot.
    Loosen,
    /// Gives a held slot back.
    Give,
}

/// What a step read.
#[derive(Clone, Copy)]
pub enum Observed {
    Server(ServerState),
    Slots(Slots),
    /// Whether the step wrote: an exchange that found another word did not.
    Done(bool),
}

/// What follows a step.
#[derive(Clone, Copy)]
pub enum Decision {
    /// The call goes on at this phase, with `lost` lost tries.
    Goes { lost: u32, phase: Phase },
    Answers(Reply),
}

impl Action {
    ghost use Rattle.tko_steps.specs.Steps.{kind_of_exchange, place_of, step_kind};

    /// What the step does, by name.
    pub fn kind(&self) -> StepKind
        ensures { result ≡ step_kind self.now }
    {
        match *self {
            Action::LookAtServer | Action::LookAtSlots => StepKind::Look,
            Action::Exchange { found, mark } => Action::kind_of_exchange(found.mark, mark),
            Action::Reserve { .. } => StepKind::Reserve,
            Action::Settle | Action::Loosen => StepKind::Shift,
            Action::Give => StepKind::Give,
        }
    }

    fn kind_of_exchange(old: Mark, new: Mark) -> StepKind
        ensures { result ≡ kind_of_exchange old new }
    {
        match (old, new) {
            (Mark::Up(_), Mark::Up(_)) => StepKind::Count,
            (Mark::Up(_), Mark::Soft(_) | Mark::Hard(_)) => StepKind::Mark,
            (Mark::Soft(_) | Mark::Hard(_), _) => StepKind::Own,
        }
    }

    /// The word that the step of a call on this server is on: the server's, or the soft word of its
    /// group.
    pub fn place(&self, settings: &Settings, server: usize) -> Place
        ensures { result ≡ place_of settings.now server self.now }
    {
        match *self {
            Action::LookAtServer | Action::Exchange { .. } => Place::Server(server),
            Action::LookAtSlots
            | Action::Reserve { .. }
            | Action::Settle
            | Action::Loosen
            | Action::Give => Place::Soft(settings.group_of(server)),
        }
    }
}

impl Observed {
    ghost use Rattle.tko_steps.specs.Steps.{is_done};

    /// Whether the step did what it meant to; a look always does.
    pub fn is_done(&self) -> bool
        ensures { result ≡ is_done self.now }
    {
        match *self {
            Observed::Server(_) | Observed::Slots(_) => true,
            Observed::Done(won) => won,
        }
    }
}

impl Decision {
    ghost use Rattle.tko_steps.specs.Steps.{decided_answer, decided_state};

    /// The state of the thread of this call then.
    pub fn state(&self, call: &Call) -> ThreadState
        ensures { result ≡ decided_state call.now self.now }
    {
        match *self {
            Decision::Goes { lost, phase } => ThreadState::InCall {
                call: Call { lost, ..*call },
                phase,
            },
            Decision::Answers(_) => ThreadState::Idle {
                number: call.number,
            },
        }
    }

    /// The reply, where the call ends.
    pub fn answer(&self) -> Option<Reply>
        ensures { result ≡ decided_answer self.now }
    {
        match *self {
            Decision::Goes { .. } => None,
            Decision::Answers(reply) => Some(reply),
        }
    }
}

impl Phase {
    /// The step that a call takes from this phase.
    pub fn action(&self, call: &Call) -> Action
        ensures { result ≡ action_of call.now.number self.now }
    {
        match *self {
            Phase::Start | Phase::Limit { .. } => Action::LookAtServer,
            Phase::AtThreshold { .. } => Action::LookAtSlots,
            Phase::Read { found, mark, .. } => Action::Exchange { found, mark },
            Phase::Reserving { slots, .. } => Action::Reserve { slots },
            Phase::Holding { found } => Action::Exchange {
                found,
                mark: Mark::Soft(call.number),
            },
            Phase::Firming => Action::Settle,
            Phase::Loosening { .. } => Action::Loosen,
            Phase::Loosened { found, mark, .. } => Action::Exchange { found, mark },
            Phase::Losing | Phase::Emptied { .. } => Action::Give,
        }
    }
}

/// What a call does once the step of its phase has read this.
pub fn next(settings: &Settings, call: &Call, phase: Phase, seen: Observed) -> Decision
    requires { call.now.lost < settings.now.tries }
    ensures { result ≡ next_of settings.now call.now phase seen }
{
    match seen {
        Observed::Server(found) => after_look(settings, call, phase, found),
        Observed::Slots(slots) => after_slots(settings, call, phase, slots),
        Observed::Done(won) => after_change(settings, call, phase, won),
    }
}

/// It loaded the server's word.
fn after_look(settings: &Settings, call: &Call, phase: Phase, found: ServerState) -> Decision
    requires { call.now.lost < settings.now.tries }
    ensures { result ≡ after_look settings.now call.now phase found }
{
    match phase {
        Phase::Start => from_start(settings, call, found),
        Phase::Limit { found: before } if is_same(before, found) => Decision::Answers(Reply::Full),
        Phase::Limit { .. } => lost_try(settings, call),
        _ => goes(call, phase),
    }
}

/// It loaded the soft word.
fn after_slots(settings: &Settings, call: &Call, phase: Phase, slots: Slots) -> Decision
    requires { call.now.lost < settings.now.tries }
    ensures { result ≡ after_slots settings.now call.now phase slots }
{
    match phase {
        Phase::AtThreshold { found } => at_threshold(settings, call, found, slots),
        _ => goes(call, phase),
    }
}

/// It exchanged a word, or changed the soft word.
fn after_change(settings: &Settings, call: &Call, phase: Phase, won: bool) -> Decision
    requires { call.now.lost < settings.now.tries }
    ensures { result ≡ after_change settings.now call.now phase won }
{
    match phase {
        Phase::Read { reply, .. } if won => Decision::Answers(reply),
        Phase::Reserving { found, .. } if won => goes(call, Phase::Holding { found }),
        Phase::Holding { .. } if won => goes(call, Phase::Firming),
        Phase::Holding { .. } => goes(call, Phase::Losing),
        Phase::Firming => Decision::Answers(Reply::TookSoft),
        Phase::Read { .. } | Phase::Reserving { .. } | Phase::Losing => lost_try(settings, call),
        Phase::Loosening { found, mark, reply } => {
            goes(call, Phase::Loosened { found, mark, reply })
        }
        Phase::Loosened { reply, .. } => goes(call, Phase::Emptied { reply }),
        Phase::Emptied { reply } => Decision::Answers(reply),
        Phase::Start | Phase::AtThreshold { .. } | Phase::Limit { .. } => goes(call, phase),
    }
}

fn goes(call: &Call, phase: Phase) -> Decision
    ensures { result ≡ goes call.now phase }
{
    Decision::Goes {
        lost: call.lost,
        phase,
    }
}

/// One more try is lost: the call begins again, unless that was its last try.
fn lost_try(settings: &Settings, call: &Call) -> Decision
    requires { call.now.lost < settings.now.tries }
    ensures { result ≡ lost_try settings.now call.now }
{
    if settings.tries == call.lost + 1 {
        return Decision::Answers(Reply::Contended);
    }
    Decision::Goes {
        lost: call.lost + 1,
        phase: Phase::Start,
    }
}

/// The first look found the server like this: the call sets out to do what the sequential tracker
/// does there, which makes a soft mark if there is room for one more.
fn from_start(settings: &Settings, call: &Call, found: ServerState) -> Decision
    ensures { result ≡ from_start settings.now call.now found }
{
    let given = Transition::of(settings, true, call.number, call.op, found);
    match given.change {
        None => Decision::Answers(given.reply),
        Some(mark) => puts(call, found, mark, given.reply),
    }
}

/// The call is to put this mark in the place of what it found: a soft mark needs a slot first, and
/// the thread's own soft mark is loosened first.
fn puts(call: &Call, found: ServerState, mark: Mark, reply: Reply) -> Decision
    ensures { result ≡ puts call.now found mark reply }
{
    let phase = match (found.mark, mark) {
        (_, Mark::Soft(_)) => Phase::AtThreshold { found },
        (Mark::Soft(_), _) => Phase::Loosening { found, mark, reply },
        _ => Phase::Read { found, mark, reply },
    };
    goes(call, phase)
}

/// A soft mark may be made where a slot is left, and none where as many are settled as may be.
fn at_threshold(settings: &Settings, call: &Call, found: ServerState, slots: Slots) -> Decision
    requires { call.now.lost < settings.now.tries }
    ensures { result ≡ at_threshold settings.now call.now found slots }
{
    let limit = settings.limit_of(settings.group_of(call.server));
    if slots.firm == limit {
        return goes(call, Phase::Limit { found });
    }
    if slots.firm as u64 + slots.held as u64 == limit as u64 {
        return lost_try(settings, call);
    }
    goes(call, Phase::Reserving { found, slots })
}

/// Whether it is the same mark and the same stamp.
pub(crate) fn is_same(one: ServerState, other: ServerState) -> bool
    ensures { result ≡ same_server one other }
{
    one == other
}
