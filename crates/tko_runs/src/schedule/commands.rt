//! The lines of a schedule after its header.
ghost use Rattle.std.specs.Prelude.{◌≡◌, ◌+◌, ◌<◌, ◌≤◌, ◌⊎◌, ◌++◌, [], ◌∷◌, Ok, Err, Some, None, length, IfOk, IfErr, OnOk};
ghost use Rattle.tko_runs.specs.Limits.{max_commands};
ghost use Rattle.tko_bytes.specs.Lines.{lines_of};
ghost use Rattle.tko_runs.specs.ScheduleLines.{command_line};
ghost use Rattle.tko_runs.specs.Schedules.{commands_of};
ghost use Rattle.tko_runs.specs.Versions.{most_header_lines};

use crate::{Command, ScheduleFault};
use std::alloc::Global;
use tko_bytes::{NoMemory, first_line};

/// The most lines after the header.
const MAX_COMMANDS: usize = 1_000;

/// The commands of a text of such lines, which follows so many header lines.
pub(crate) fn read_commands(
    alloc: Global,
    before: u32,
    text: &[u8],
) -> Result<Vec<Command>, ScheduleFault>
    requires { before ≤ most_header_lines }
    ensures ok { IfOk result (λ commands.
        commands_of before (lines_of text.now) ≡ Ok commands.items) }
    ensures few { IfOk result (λ commands. length commands.items ≤ max_commands) }
    ensures err { IfErr result (λ fault.
        (fault ≡ ScheduleFault.Memory) ⊎ (commands_of before (lines_of text.now) ≡ Err fault)) }
{
    let mut commands = Vec::new(alloc);
    let mut rest = text;
    while !rest.is_empty() {
        let (line, behind) = first_line(rest);
        let command = command_at(before, commands.len(), line)?;
        keep(&mut commands, command)?;
        rest = behind;
    }
    Ok(commands)
}

fn keep(commands: &mut Vec<Command>, command: Command) -> Result<(), NoMemory>
    ensures { OnOk result (commands.new.items ≡ commands.old.items ++ command ∷ []) }
{
    commands.push(command)?;
    Ok(())
}

/// The command of the line at this place after so many header lines.
fn command_at(before: u32, place: usize, line: &[u8]) -> Result<Command, ScheduleFault>
    requires place { place ≤ max_commands }
    requires before { before ≤ most_header_lines }
    ensures few { IfOk result (λ command. place < max_commands) }
    ensures ok { IfOk result (λ command. command_line line.now ≡ Some command) }
    ensures line { IfErr result (λ fault. fault ≡ ScheduleFault.Line (place + before + 1)) }
    ensures err { IfErr result (λ fault. (max_commands ≤ place) ⊎ (command_line line.now ≡ None)) }
{
    let bad = ScheduleFault::Line(place as u32 + before + 1);
    if place >= MAX_COMMANDS {
        return Err(bad);
    }
    match Command::of_line(line) {
        Some(command) => Ok(command),
        None => Err(bad),
    }
}
