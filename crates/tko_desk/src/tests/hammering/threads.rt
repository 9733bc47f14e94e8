//! What each of the two threads does.
ghost use Rattle.std.specs.Prelude.{◌≡◌, ◌<◌, IfOk};
ghost use Rattle.tko_tracker.specs.Seated.{IsOf};

use super::order::TimedCall;
use crate::Desk;
use std::alloc::{AllocError, Global};
use std::process::Abort;
use std::sync::Wait;
use std::sync::atomic::{AtomicU64, Ordering};
use tko_model::{Look, Op, Reply};
use tko_tracker::{IdlePass, Named, Pass, Tracker, wake};

/// How often each of the two takes a pass, and how many calls it makes on it before it retires.
const TURNS: u32 = 200;

const CALLS: usize = 502;

/// The calls of one turn, over and over. The last of a turn is the hard failure.
const OPS: [Op; 8] = [
    Op::SoftFailure,
    Op::SoftFailure,
    Op::LookUp,
    Op::Success,
    Op::SoftFailure,
    Op::HardFailure,
    Op::LookUp,
    Op::Release,
];

/// What the threads share beside the tracker.
#[derive(Drop)]
pub(super) struct ThreadsShared<N: Named> {
    pub(super) desk: Desk<N>,
    /// Counts moments.
    pub(super) clock: AtomicU64,
}

/// Makes this call.
fn reply(tracker: &Tracker, pass: &mut Pass, op: Op, server: usize) -> Reply
    requires tracker { IsOf tracker.now pass.old }
    requires server { server < tracker.now.settings.servers }
    ensures { IsOf tracker.now pass.new }
{
    match op {
        Op::LookUp => match tracker.look_up(pass, server) {
            Look::Up(count, _) => Reply::Up(count),
            Look::Marked(mark) => Reply::Marked(mark),
        },
        Op::SoftFailure => tracker.soft_failure(pass, server),
        Op::HardFailure => tracker.hard_failure(pass, server),
        Op::Success => tracker.success(pass, server),
        Op::Release => tracker.release(pass, server),
    }
}

/// Makes the calls of one turn, writes them down, and retires.
fn make_calls(
    tracker: &Tracker,
    clock: &AtomicU64,
    idle: IdlePass,
    calls: &mut Vec<TimedCall>,
) -> Result<IdlePass, AllocError>
    requires tracker { IsOf tracker.now idle }
    requires servers { 0 < tracker.now.settings.servers }
    ensures { IfOk result (λ made. IsOf tracker.now made) }
{
    let number = idle.number();
    let mut pass = wake(idle);
    for turn in 0..CALLS {
        let op = OPS[turn % 8];
        let begin = clock.fetch_add(1, Ordering::SeqCst);
        let reply = reply(tracker, &mut pass, op, 0);
        let end = clock.fetch_add(1, Ordering::SeqCst);
        calls.push(TimedCall {
            number,
            op,
            reply,
            begin,
            end,
        })?;
    }
    let owned = pass.owns(0);
    let found = tracker.look_up(&mut pass, 0);
    let begin = clock.fetch_add(1, Ordering::SeqCst);
    let idle = tracker.retire(pass);
    let end = clock.fetch_add(1, Ordering::SeqCst);
    if owned {
        calls.push(TimedCall {
            number,
            op: Op::Release,
            reply: released(found),
            begin,
            end,
        })?;
    }
    Ok(idle)
}

/// What a release of the mark that was found is answered.
fn released(found: Look) -> Reply {
    match found {
        Look::Marked(mark) => Reply::Released(mark),
        Look::Up(count, _) => Reply::Up(count),
    }
}

/// Takes a pass from the desk for each turn, and returns the calls of all turns.
pub(super) fn hammer<R: Wait + Abort, N: Named>(
    rt: &R,
    alloc: Global,
    tracker: &Tracker,
    shared: &ThreadsShared<N>,
) -> Vec<TimedCall>
    requires named { tracker.now ≡ N.tracker }
    requires servers { 0 < N.tracker.settings.servers }
{
    let mut calls = Vec::new(alloc);
    for _ in 0..TURNS {
        let idle = shared.desk.take(rt).expect(rt, "a pass for each thread");
        let idle = make_calls(tracker, &shared.clock, idle, &mut calls).expect(rt, "memory");
        assert!(rt; shared.desk.give(rt, idle).is_ok());
    }
    calls
}
