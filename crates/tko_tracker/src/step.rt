//! One step of a call, by the step function of its kind.
ghost use Rattle.std.specs.Prelude.{◌≡◌, ◌<◌, true};
ghost use Rattle.tko_steps.specs.Steps.{is_marked_state};
ghost use Rattle.tko_steps.specs.Table.{action_of};
ghost use Rattle.tko_steps.specs.declared.table.Observed.TheVariants as seen;
ghost use Rattle.tko_table.specs.Steps.{IsAt, IsExchangeAt, IsSameSeat, IsShift, Took, view_of};
ghost use Rattle.tko_tracker.specs.Running.{IsReady, TakesStep};

use tko_model::{Mark, ServerState};
use tko_steps::{Action, Call, Observed, Phase};
use tko_table::{Seat, Words};

/// Takes the step of the call's phase, and returns what it read.
pub(crate) fn take_step(words: &Words, seat: &mut Seat, call: &Call, phase: Phase) -> Observed
    requires seat { seat.old.table_id ≡ words.now.table.shared.table_id }
    requires server { call.now.server < words.now.settings.servers }
    requires ready { IsReady words.now.settings (view_of seat.old) call.now phase }
    ensures seat { IsSameSeat seat.old seat.new }
    ensures step { TakesStep words.now.settings
        (view_of seat.old) call.now phase result (view_of seat.new) }
{
    match phase.action(call) {
        Action::LookAtServer => words.look(seat, call, phase),
        Action::LookAtSlots => words.look(seat, call, phase),
        Action::Exchange { found, mark } => {
            Observed::Done(exchange(words, seat, call, phase, found, mark))
        }
        Action::Reserve { slots } => Observed::Done(words.reserve(seat, call, phase, slots)),
        Action::Settle => shift(words, seat, call, phase),
        Action::Loosen => shift(words, seat, call, phase),
        Action::Give => {
            words.give(seat, call, phase);
            Observed::Done(true)
        }
    }
}

fn shift(words: &Words, seat: &mut Seat, call: &Call, phase: Phase) -> Observed
    requires seat { seat.old.table_id ≡ words.now.table.shared.table_id }
    requires stands { IsAt (view_of seat.old) call.now phase }
    requires kind { IsShift (action_of call.now.number phase) }
    ensures seat { IsSameSeat seat.old seat.new }
    ensures step { Took (view_of seat.old) call.now phase result (view_of seat.new) }
    ensures done { result ≡ seen.Done true }
{
    words.shift(seat, call, phase);
    Observed::Done(true)
}

/// Exchanges the server's word by the step function of this kind of exchange.
fn exchange(
    words: &Words,
    seat: &mut Seat,
    call: &Call,
    phase: Phase,
    found: ServerState,
    mark: Mark,
) -> bool
    requires seat { seat.old.table_id ≡ words.now.table.shared.table_id }
    requires exchange { IsExchangeAt
        words.now.settings (view_of seat.old) call.now phase found mark }
    ensures seat { IsSameSeat seat.old seat.new }
    ensures step { Took (view_of seat.old) call.now phase (seen.Done result) (view_of seat.new) }
    ensures sure { is_marked_state found.mark ≡ true → result ≡ true }
{
    match (found.mark, mark) {
        (Mark::Up(_), Mark::Up(_)) => words.count(seat, call, phase, found, mark),
        (Mark::Up(_), Mark::Soft(_) | Mark::Hard(_)) => words.mark(seat, call, phase, found, mark),
        (Mark::Soft(_) | Mark::Hard(_), _) => words.own(seat, call, phase, found, mark),
    }
}
