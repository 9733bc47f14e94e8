//! The command `replay`: a schedule is played, checked and printed.
ghost use Rattle.std.specs.Prelude.{IfErr, OnOk};
ghost use Rattle.tko_commands.specs.Replays.{ReplayFails, ReplaysSchedule};

use crate::Fault;
use crate::reading::read_text;
use crate::writing::write_text;
use std::alloc::Global;
use tko_io::{Inlet, IoRuntime, Outlet};
use tko_runs::{Schedule, check, play};

/// One byte more than a schedule may have, so that a text that is too long is seen.
const MOST_READ: usize = 1_048_577;

/// Reads a schedule, and prints the run that it names and where each call takes effect. A fault
/// other than `Write` leaves the output empty.
pub(crate) fn replay<R: IoRuntime, I: Inlet, O: Outlet>(
    rt: &R,
    alloc: Global,
    input: &mut I,
    output: &mut O,
) -> Result<(), Fault>
    ensures ok { OnOk result (ReplaysSchedule I.gives I.is_ended O.takes
        input.old output.old input.new output.new) }
    ensures err { IfErr result (ReplayFails I.gives I.is_ended I.failures O.failures
        input.old input.new output.old output.new) }
{
    let text = read_text(rt, alloc, input, MOST_READ)?;
    let schedule = Schedule::read(alloc, &text)?;
    let run = play(alloc, &schedule)?;
    let order = check(alloc, &run)?;
    let printed = run.print(alloc, &order)?;
    write_text(rt, output, &printed)?;
    Ok(())
}
