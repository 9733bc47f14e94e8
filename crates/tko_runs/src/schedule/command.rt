//! The lines of a schedule after its header: what its threads do.
ghost use Rattle.std.specs.Prelude.{◌≡◌};
ghost use Rattle.tko_runs.specs.ScheduleLines.{begin_of, command_line, op_named, run_of, step_command, steps_of};

use tko_bytes::{Fields, number};
use tko_model::{Op, op_word};

/// The most steps that one line asks for. No call takes more.
pub(crate) const MAX_STEPS: u64 = 5_000;

/// One line of a schedule. A thread or a server of that number need not exist.
#[derive(Clone, Copy, Debug, PartialEq, Eq)]
pub enum Command {
    /// The thread begins a call.
    Begin {
        thread: usize,
        op: Op,
        server: usize,
    },
    /// The thread takes this number of steps, 1 to 5,000.
    Step {
        thread: usize,
        steps: u64,
    },
    /// The thread takes steps until its call is answered.
    Run {
        thread: usize,
    },
}

impl Command {
    /// The command that a line is.
    pub(crate) fn of_line(line: &[u8]) -> Option<Command>
        ensures { result ≡ command_line line.now }
    {
        let mut fields = Fields::of(line);
        let name = fields.next()?;
        if name == b"begin".as_slice() {
            begin(fields)
        } else if name == b"step".as_slice() {
            step(fields)
        } else if name == b"run".as_slice() {
            run(fields)
        } else {
            None
        }
    }
}

/// `begin <thread> <op> <server>`, after its first word.
fn begin(mut fields: Fields) -> Option<Command>
    ensures { result ≡ begin_of fields.entry }
{
    let (thread, op, server) = (fields.next()?, fields.next()?, fields.next()?);
    if fields.next().is_some() {
        return None;
    }
    Some(Command::Begin {
        thread: number(thread, u64::MAX)? as usize,
        op: op_of(op)?,
        server: number(server, u64::MAX)? as usize,
    })
}

/// `step <thread> <n>`, after its first word.
fn step(mut fields: Fields) -> Option<Command>
    ensures { result ≡ step_command fields.entry }
{
    let (thread, steps) = (fields.next()?, fields.next()?);
    if fields.next().is_some() {
        return None;
    }
    Some(Command::Step {
        thread: number(thread, u64::MAX)? as usize,
        steps: steps_of(steps)?,
    })
}

/// `run <thread>`, after its first word.
fn run(mut fields: Fields) -> Option<Command>
    ensures { result ≡ run_of fields.entry }
{
    let thread = fields.next()?;
    if fields.next().is_some() {
        return None;
    }
    Some(Command::Run {
        thread: number(thread, u64::MAX)? as usize,
    })
}

fn op_of(word: &[u8]) -> Option<Op>
    ensures { result ≡ op_named word.now }
{
    if word == op_word(Op::LookUp) {
        Some(Op::LookUp)
    } else if word == op_word(Op::SoftFailure) {
        Some(Op::SoftFailure)
    } else if word == op_word(Op::HardFailure) {
        Some(Op::HardFailure)
    } else if word == op_word(Op::Success) {
        Some(Op::Success)
    } else if word == op_word(Op::Release) {
        Some(Op::Release)
    } else {
        None
    }
}

fn steps_of(word: &[u8]) -> Option<u64>
    ensures { result ≡ steps_of word.now }
{
    let steps = number(word, u64::MAX)?;
    if steps == 0 || steps > MAX_STEPS {
        return None;
    }
    Some(steps)
}
