//! The lines of events and of skipped turns.
ghost use Rattle.std.specs.Prelude.{◌≡◌, ◌++◌, OnOk};
ghost use Rattle.tko_steps.specs.Lost.{same_word};
ghost use Rattle.tko_steps.specs.Table.{same_server};
ghost use Rattle.tko_runs.specs.Prints.{answer_text, begin_text, event_text, kind_text, line, place_text, refusal_text, skipped_text, step_outcome_text, step_text, won_text};

use crate::printing::words::{append_group, append_word};
use crate::{Event, SkippedTurn, Version};
use tko_bytes::NoMemory;
use tko_model::{Op, Reply, ServerState, append_number, append_reply, op_word};
use tko_steps::{BeginFault, Place, StepKind, Word};

/// An event, which has that number if it is a step of a call. Enrolments aren't printed.
pub(crate) fn append_event(
    out: &mut Vec<u8>,
    version: Version,
    number: u64,
    event: &Event,
) -> Result<(), NoMemory>
    ensures { OnOk result (out.new.items ≡ out.old.items ++ event_text version number event.now) }
{
    match *event {
        Event::Begin { thread, op, server } => {
            append_begin(out, thread, op, server)?;
            Ok(out.extend_from_slice(b"\n")?)
        }
        Event::Step {
            thread,
            kind,
            place,
            found,
            left,
            answer,
        } => {
            if !kind.is_call_step() {
                return Ok(());
            }
            append_step(out, version, number, thread, kind, place)?;
            append_outcome(out, kind, found, left)?;
            append_answer(out, thread, answer)
        }
    }
}

fn append_begin(out: &mut Vec<u8>, thread: usize, op: Op, server: usize) -> Result<(), NoMemory>
    ensures { OnOk result (out.new.items ≡ out.old.items ++ begin_text thread op server) }
{
    append_number(out, b"begin ", thread as u64)?;
    out.extend_from_slice(b" ")?;
    out.extend_from_slice(op_word(op))?;
    append_number(out, b" ", server as u64)
}

/// `<i> <thread> <kind> <place> `
fn append_step(
    out: &mut Vec<u8>,
    version: Version,
    number: u64,
    thread: usize,
    kind: StepKind,
    place: Place,
) -> Result<(), NoMemory>
    ensures { OnOk result (out.new.items ≡
        out.old.items ++ step_text version number thread kind place) }
{
    append_number(out, b"", number)?;
    append_number(out, b" ", thread as u64)?;
    out.extend_from_slice(kind_word(kind))?;
    append_place(out, version, place)?;
    Ok(out.extend_from_slice(b" ")?)
}

fn kind_word(kind: StepKind) -> &'static [u8]
    ensures { result.now ≡ kind_text kind }
{
    match kind {
        StepKind::Look => b" look ",
        StepKind::Count => b" count ",
        StepKind::Mark => b" mark ",
        StepKind::Own => b" own ",
        StepKind::Reserve => b" reserve ",
        StepKind::Shift => b" shift ",
        StepKind::Give => b" give ",
        StepKind::Enrol => b" enrol ",
    }
}

fn append_place(out: &mut Vec<u8>, version: Version, place: Place) -> Result<(), NoMemory>
    ensures { OnOk result (out.new.items ≡ out.old.items ++ place_text version place) }
{
    match place {
        Place::Server(server) => append_number(out, b"server:", server as u64),
        Place::Soft(group) => append_group(out, version, group),
        Place::Enrolment => Ok(out.extend_from_slice(b"enrolment")?),
    }
}

/// The end of a step's line: what a look found, whether an exchange was won, else `done`.
fn append_outcome(
    out: &mut Vec<u8>,
    kind: StepKind,
    found: Word,
    left: Word,
) -> Result<(), NoMemory>
    ensures { OnOk result (out.new.items ≡ out.old.items
        ++ line (step_outcome_text kind found left)) }
{
    match kind {
        StepKind::Look => append_word(out, found)?,
        StepKind::Count | StepKind::Mark | StepKind::Own | StepKind::Reserve => {
            out.extend_from_slice(won_word(found, left))?;
        }
        StepKind::Shift | StepKind::Give | StepKind::Enrol => out.extend_from_slice(b"done")?,
    }
    Ok(out.extend_from_slice(b"\n")?)
}

/// An exchange that is lost leaves the word as it was; one that is won never does.
fn won_word(found: Word, left: Word) -> &'static [u8]
    ensures { result.now ≡ won_text found left }
{
    if is_same_word(left, found) {
        b"lost"
    } else {
        b"won"
    }
}

fn is_same_word(one: Word, other: Word) -> bool
    ensures { result ≡ same_word one other }
{
    match one {
        Word::Server(one) => match other {
            Word::Server(other) => is_same_server(one, other),
            Word::Soft(_) | Word::Enrolled(_) => false,
        },
        Word::Soft(one) => match other {
            Word::Soft(other) => one.firm == other.firm && one.held == other.held,
            Word::Server(_) | Word::Enrolled(_) => false,
        },
        Word::Enrolled(one) => match other {
            Word::Enrolled(other) => one == other,
            Word::Server(_) | Word::Soft(_) => false,
        },
    }
}

fn is_same_server(one: ServerState, other: ServerState) -> bool
    ensures { result ≡ same_server one other }
{
    one == other
}

fn append_answer(out: &mut Vec<u8>, thread: usize, answer: Option<Reply>) -> Result<(), NoMemory>
    ensures { OnOk result (out.new.items ≡ out.old.items ++ answer_text thread answer) }
{
    let Some(reply) = answer else {
        return Ok(());
    };
    append_number(out, b"answer ", thread as u64)?;
    out.extend_from_slice(b" ")?;
    append_reply(out, reply)?;
    Ok(out.extend_from_slice(b"\n")?)
}

pub(crate) fn append_skipped_turn(out: &mut Vec<u8>, turn: SkippedTurn) -> Result<(), NoMemory>
    ensures { OnOk result (out.new.items ≡ out.old.items ++ skipped_text turn) }
{
    match turn {
        SkippedTurn::Refused {
            thread,
            op,
            server,
            fault,
        } => {
            append_begin(out, thread, op, server)?;
            Ok(out.extend_from_slice(refusal(fault))?)
        }
        SkippedTurn::Idle { thread } => {
            append_number(out, b"- ", thread as u64)?;
            Ok(out.extend_from_slice(b" idle\n")?)
        }
        SkippedTurn::NoThread { thread } => {
            append_number(out, b"- ", thread as u64)?;
            Ok(out.extend_from_slice(b" no-thread\n")?)
        }
    }
}

fn refusal(fault: BeginFault) -> &'static [u8]
    ensures { result.now ≡ line (refusal_text fault) }
{
    match fault {
        BeginFault::NoThread => b" refused no-thread\n",
        BeginFault::Busy => b" refused busy\n",
        BeginFault::NoServer => b" refused no-server\n",
    }
}
