//! Words that name no command to run.
ghost use Rattle.std.specs.Prelude.{◌≡◌};
ghost use Rattle.clap.specs.declared.error.kind.ErrorKind.TheVariants.{OutOfMemory};
ghost use Rattle.clap.specs.Values.{kind_of};
ghost use Rattle.tko_options.specs.Asked.{IsNoAnswer};

use crate::command_line::program;
use clap::Error;
use clap::error::ErrorKind;
use std::alloc::{AllocError, Global};

/// Why words name no command to run.
#[derive(Debug, Drop)]
pub enum Refusal {
    /// They ask for help or for the version: the text for standard output.
    Answer(String),
    /// They are no words of the command line: the text for standard error.
    Wrong(String),
    Memory,
}

impl From<AllocError> for Refusal {
    ghost use Rattle.std.specs.Prelude.{◌≡◌};
    ghost use Rattle.tko_options.specs.declared.refusal.Refusal.TheVariants.{Memory};

    ghost from_gives = { λ _ refusal. refusal ≡ Memory };

    fn from(_: AllocError) -> Refusal {
        Refusal::Memory
    }
}

impl Refusal {
    /// What clap says of the words.
    pub(crate) fn of(alloc: Global, error: &Error) -> Refusal
        ensures { kind_of error.now ≡ OutOfMemory → result ≡ Refusal.Memory }
    {
        if error.kind() == ErrorKind::OutOfMemory {
            return Refusal::Memory;
        }
        match format!(in alloc; "{error}") {
            Ok(text) if error.use_stderr() => Refusal::Wrong(text),
            Ok(text) => Refusal::Answer(text),
            Err(_) => Refusal::Memory,
        }
    }

    /// Of words that clap takes, for this reason.
    pub(crate) fn by(alloc: Global, kind: ErrorKind, reason: &str) -> Refusal
        ensures { IsNoAnswer result }
    {
        match reason_text(alloc, kind, reason) {
            Ok(text) => Refusal::Wrong(text),
            Err(_) => Refusal::Memory,
        }
    }
}

/// The reason, and how the program is used.
fn reason_text(alloc: Global, kind: ErrorKind, reason: &str) -> Result<String, AllocError> {
    let error = program(alloc)?.error(kind, reason)?;
    format!(in alloc; "{error}")
}
