//! Trails as lines of text, appended to a buffer. Where memory runs out, the buffer may hold a part
//! of a line.
ghost use Rattle.std.specs.Prelude.{◌≡◌, ◌++◌, OnOk, IfOk};
ghost use Rattle.tko_commands.specs.Texts.{attempt_text, end_text, outcome_text, trail_text, trails_text};
ghost use Rattle.tko_route.specs.Trail.{server_of};

use std::alloc::Global;
use tko_bytes::NoMemory;
use tko_links::Outcome;
use tko_model::{append_mark, append_number, append_reply};
use tko_route::{Attempt, Trail};

/// The lines of the trails of all routed requests, numbered from 1.
pub(crate) fn trail_lines(alloc: Global, trails: &[Trail]) -> Result<Vec<u8>, NoMemory>
    ensures { IfOk result (λ lines. lines.items ≡ trails_text 1 trails.now) }
{
    let mut out = Vec::new(alloc);
    for (place, trail) in trails.iter().enumerate() {
        append_trail(&mut out, place + 1, trail.attempts())?;
    }
    Ok(out)
}

fn append_trail(out: &mut Vec<u8>, number: usize, attempts: &[Attempt]) -> Result<(), NoMemory>
    ensures { OnOk result (out.new.items ≡ out.old.items ++ trail_text number attempts.now) }
{
    for attempt in attempts {
        append_line(out, number, attempt)?;
    }
    Ok(())
}

fn append_line(out: &mut Vec<u8>, number: usize, attempt: &Attempt) -> Result<(), NoMemory>
    ensures { OnOk result (out.new.items ≡ out.old.items ++ attempt_text number attempt.now) }
{
    append_number(out, b"trail ", number as u64)?;
    append_number(out, b" ", server_of(attempt) as u64)?;
    out.extend_from_slice(b" ")?;
    append_end(out, attempt)?;
    out.extend_from_slice(b"\n")?;
    Ok(())
}

fn server_of(attempt: &Attempt) -> usize
    ensures { result ≡ server_of attempt.now }
{
    match attempt {
        Attempt::Skipped(server, _) | Attempt::Sent(server, _, _) => *server,
        Attempt::Aborted(server) | Attempt::Spent(server) => *server,
    }
}

fn append_end(out: &mut Vec<u8>, attempt: &Attempt) -> Result<(), NoMemory>
    ensures { OnOk result (out.new.items ≡ out.old.items ++ end_text attempt.now) }
{
    match attempt {
        Attempt::Skipped(_, mark) => {
            out.extend_from_slice(b"skipped ")?;
            append_mark(out, *mark)?;
        }
        Attempt::Sent(_, outcome, reply) => {
            out.extend_from_slice(b"sent ")?;
            append_outcome(out, outcome)?;
            out.extend_from_slice(b" ")?;
            append_reply(out, *reply)?;
        }
        Attempt::Aborted(_) => out.extend_from_slice(b"aborted")?,
        Attempt::Spent(_) => out.extend_from_slice(b"spent")?,
    }
    Ok(())
}

/// Appends the word of an outcome.
fn append_outcome(out: &mut Vec<u8>, outcome: &Outcome) -> Result<(), NoMemory>
    ensures { OnOk result (out.new.items ≡ out.old.items ++ outcome_text outcome.now) }
{
    out.extend_from_slice(match outcome {
        Outcome::Reply(_) => b"reply",
        Outcome::Timeout => b"timeout",
        Outcome::Refused => b"refused",
        Outcome::Broken => b"broken",
        Outcome::Aborted => b"aborted",
        Outcome::Spent => b"spent",
    })?;
    Ok(())
}
