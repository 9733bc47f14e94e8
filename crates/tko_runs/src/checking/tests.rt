//! The check of a run, with one event changed.

use crate::{Event, Run, RunFault, Schedule, check, play};
use std::alloc::Global;
use std::test::Fail;
use tko_model::{Mark, Reply, ServerState};
use tko_steps::{Place, StepKind, Word};

/// Two soft failures, of which the second finds no room for a mark.
const SECOND_IS_FULL: &[u8; 108] = b"schedule 1
servers 2
threads 2
failures 1
limit 1
tries 3
stamp 0
begin 0 soft 0
run 0
begin 1 soft 1
run 1
";

/// The place of the second call's second look at the server among the events of that run. It is
/// step 8, and ends the call.
const LAST: usize = 11;

/// The fault of a schedule's run with another event at a place.
fn fault_of(
    alloc: Global,
    text: &[u8],
    place: usize,
    event: Event,
) -> Result<Option<RunFault>, Fail> {
    let run = play(alloc, &Schedule::read(alloc, text)?)?;
    let mut events = Vec::from_slice(alloc, run.events())?;
    if let Some(slot) = events.get_mut(place) {
        *slot = event;
    }
    let changed = Run::of(alloc, run.settings().try_clone(alloc)?, events)?;
    Ok(check(alloc, &changed).err())
}

/// A step of thread 1 on the second server, which finds it up.
fn step(kind: StepKind, mark: Mark, stamp: u64, answer: Reply) -> Event {
    let up = ServerState {
        mark: Mark::Up(0),
        stamp: 0,
    };
    Event::Step {
        thread: 1,
        kind,
        place: Place::Server(1),
        found: Word::Server(up),
        left: Word::Server(ServerState { mark, stamp }),
        answer: Some(answer),
    }
}

#[test]
fn changed_answer_is_refused(rt: HostRuntime) -> Result<(), Fail> {
    let (up, full) = (Mark::Up(0), Reply::Full);
    for (event, fault) in [
        (step(StepKind::Look, up, 0, full), None),
        (
            step(StepKind::Look, up, 0, Reply::Counted(1)),
            Some(RunFault::Call(2)),
        ),
        (step(StepKind::Mark, up, 0, full), None),
        (
            step(StepKind::Mark, Mark::Hard(0), 1, full),
            Some(RunFault::Call(2)),
        ),
        (
            step(StepKind::Mark, Mark::Soft(1), 1, full),
            Some(RunFault::Step(8)),
        ),
        (step(StepKind::Look, up, 1, full), Some(RunFault::Step(8))),
    ] {
        let changed = fault_of(rt.alloc(), SECOND_IS_FULL, LAST, event)?;
        assert_eq!(rt; changed, fault);
    }
    Ok(())
}
