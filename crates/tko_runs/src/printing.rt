//! The text of a run.
ghost use Rattle.std.specs.Prelude.{◌≡◌, ◌++◌, ◌+◌, ◌<◌, ◌^◌, length, IfOk, OnOk};
ghost use Rattle.tko_runs.specs.Prints.{events_text, lines_text, number_behind, run_text, skipped_text, steps_in_event};
ghost use Rattle.tko_runs.specs.Repeats.{repeated};
ghost use Rattle.tko_runs.specs.Runs.{one_by_one};
ghost use Rattle.tko_runs.specs.States.{AllCome, opened_state, state_after_all};

mod lines;
mod summary;
mod words;

use crate::printing::lines::{append_event, append_skipped_turn};
use crate::printing::summary::{append_order, append_servers, append_soft_words};
use crate::run::SkippedTurns;
use crate::run::state::RunWords;
use crate::{Event, Order, Run, SkippedTurn, Version};
use std::alloc::Global;
use tko_bytes::NoMemory;
use tko_model::Settings;

impl Run {
    /// The text of the run: a line for each event and each skipped turn, then where each call takes
    /// effect by this order, the servers and the soft words as the run leaves them, and `ok`.
    pub fn print(&self, alloc: Global, order: &Order) -> Result<Vec<u8>, NoMemory>
        ensures { IfOk result (λ text. text.items ≡ run_text self.now order.now) }
    {
        let events = self.events();
        let mut out = Vec::new(alloc);
        append_lines(&mut out, self.version(), events, self.skips())?;
        append_order(&mut out, order.points())?;
        let state = state_left(alloc, self.settings(), events)?;
        append_servers(&mut out, state.servers())?;
        append_soft_words(&mut out, self.version(), state.soft_words())?;
        out.extend_from_slice(b"ok\n")?;
        Ok(out)
    }
}

/// The events and the skipped turns between them. A count may be zero; the events before it are
/// then printed with those before the next skipped turn.
fn append_lines(
    out: &mut Vec<u8>,
    version: Version,
    events: &[Event],
    skips: &[SkippedTurns],
) -> Result<(), NoMemory>
    ensures { OnOk result (out.new.items ≡
        out.old.items ++ lines_text version 1 0 events.now (one_by_one skips.now)) }
{
    let mut number = 1;
    let mut place = 0;
    let mut rest = events;
    for skip in skips {
        if skip.times == 0 {
            continue;
        }
        let (first, behind) = rest.split_at(skip.after.saturating_sub(place).min(rest.len()));
        append_events(out, version, &mut number, first)?;
        append_skipped(out, skip.turn, skip.times)?;
        place = skip.after;
        rest = behind;
    }
    append_events(out, version, &mut number, rest)
}

fn append_events(
    out: &mut Vec<u8>,
    version: Version,
    number: &mut u64,
    events: &[Event],
) -> Result<(), NoMemory>
    requires { number.old + length events.now < 2 ^ 64 }
    ensures text { OnOk result (out.new.items ≡
        out.old.items ++ events_text version number.old events.now) }
    ensures number { OnOk result (number.new ≡ number_behind number.old events.now) }
{
    for event in events {
        append_event(out, version, *number, event)?;
        *number += steps_of(event);
    }
    Ok(())
}

/// The number of steps of calls that an event is.
fn steps_of(event: &Event) -> u64
    ensures { result ≡ steps_in_event event.now }
{
    match *event {
        Event::Begin { .. } => 0,
        Event::Step { kind, .. } => { if kind.is_call_step() { 1 } else { 0 } }
    }
}

/// Appends the line of a skipped turn `times` times.
#[tactic(auto, using(crate::proofs::PrintLemmas::repeated_more))]
fn append_skipped(out: &mut Vec<u8>, turn: SkippedTurn, times: u64) -> Result<(), NoMemory>
    ensures { OnOk result (out.new.items ≡ out.old.items ++ repeated times (skipped_text turn)) }
{
    for _ in 0..times {
        append_skipped_turn(out, turn)?;
    }
    Ok(())
}

/// The words and threads as the events leave them.
fn state_left(alloc: Global, settings: &Settings, events: &[Event]) -> Result<RunWords, NoMemory>
    requires { AllCome (opened_state settings.now) events.now }
    ensures { IfOk result (λ state.
        state ≡ state_after_all (opened_state settings.now) events.now) }
{
    let mut state = RunWords::open(alloc, settings)?;
    for event in events {
        state.record(event);
    }
    Ok(state)
}
