//! A call as a loop over its steps.
ghost use Rattle.std.specs.Prelude.{◌≡◌, ◌<◌};
ghost use Rattle.tko_model.specs.Looks.{look_reply};
ghost use Rattle.tko_model.specs.declared.mark.Op.TheVariants as op;
ghost use Rattle.tko_table.specs.Steps.{IsSameSeat, view_of};
ghost use Rattle.tko_tracker.specs.Running.{CanCall, RanCall};

use crate::step::take_step;
use tko_model::{Mark, Op, Reply};
use tko_steps::{Call, Decision, Observed, Phase, next};
use tko_table::{Seat, Words};

/// Makes a call of the thread with this number, and returns its answer.
pub(crate) fn run(words: &Words, seat: &mut Seat, number: u32, op: Op, server: usize) -> Reply
    requires seat { seat.old.table_id ≡ words.now.table.shared.table_id }
    requires server { server < words.now.settings.servers }
    requires idle { CanCall words.now.settings number (view_of seat.old) }
    ensures seat { IsSameSeat seat.old seat.new }
    ensures ran { RanCall words.now.settings number
        (view_of seat.old) op server result (view_of seat.new) }
{
    let lost = 0;
    let mut call = Call {
        number,
        op,
        server,
        lost,
    };
    let mut phase = Phase::Start;
    loop {
        let seen = take_step(words, seat, &call, phase);
        match next(&words.settings, &call, phase, seen) {
            Decision::Answers(reply) => return reply,
            Decision::Goes {
                lost,
                phase: following,
            } => {
                call.lost = lost;
                phase = following;
            }
        }
    }
}

/// Makes a look-up, which takes one step, and returns the mark that it found.
pub(crate) fn look_at(words: &Words, seat: &mut Seat, number: u32, server: usize) -> Mark
    requires seat { seat.old.table_id ≡ words.now.table.shared.table_id }
    requires server { server < words.now.settings.servers }
    requires idle { CanCall words.now.settings number (view_of seat.old) }
    ensures seat { IsSameSeat seat.old seat.new }
    ensures ran { RanCall words.now.settings number
        (view_of seat.old) op.LookUp server (look_reply result) (view_of seat.new) }
{
    let call = Call {
        number,
        op: Op::LookUp,
        server,
        lost: 0,
    };
    words.look_up(seat, &call).mark
}
