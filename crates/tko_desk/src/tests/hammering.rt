//! Two threads hammer one server, each with a pass of the desk that it takes anew for each turn.
//!
//! Each call is written down, with a moment before it and one after it. In the end all calls have
//! one order, in which the sequential tracker gives each its reply and leaves the last mark.
ghost use Rattle.std.specs.Prelude.{◌≡◌, ◌<◌, All};
ghost use Rattle.tko_tracker.specs.Seated.{ArePasses, IsOf};

mod order;
mod threads;

use crate::Desk;
use order::{TimedCall, have_order, is_change};
use std::alloc::Global;
use std::marker::Brand;
use std::process::Abort;
use std::sync::Wait;
use std::sync::atomic::AtomicU64;
use std::test::Fail;
use std::thread::{Threads, join};
use threads::{ThreadsShared, hammer};
use tko_model::OneGroup;
use tko_tracker::{IdlePass, Named, Tracker, close, open};

const SETTINGS: OneGroup = OneGroup {
    threads: 2,
    failures: 3,
    limit: 1,
    ..OneGroup::SMALL
};

/// What is left once the two are done.
struct ThreadsEnded {
    passes: Vec<IdlePass>,
    one: Vec<TimedCall>,
    other: Vec<TimedCall>,
}

/// Runs the two threads.
fn run<R: Threads + Wait + Abort + Sync, N: Named + Send + Sync>(
    rt: &R,
    alloc: Global,
    tracker: &Tracker,
    passes: Vec<IdlePass>,
) -> ThreadsEnded
    requires named { tracker.now ≡ N.tracker }
    requires passes { ArePasses N.tracker passes.items }
    requires servers { 0 < N.tracker.settings.servers }
    ensures { All (IsOf tracker.now) result.passes.items }
{
    let shared = ThreadsShared::<N> {
        desk: Desk::open(passes),
        clock: AtomicU64::new(0),
    };
    let (one, other) = join(
        rt,
        || hammer(rt, alloc, tracker, &shared),
        || hammer(rt, alloc, tracker, &shared),
    );
    ThreadsEnded {
        passes: shared.desk.end(),
        one,
        other,
    }
}

#[test]
fn one_order_of_200_000_calls(rt: HostRuntime) -> Result<(), Fail> {
    let settings = SETTINGS.settings(rt.alloc())?;
    let (tracker, passes) = open(rt.alloc(), SETTINGS.settings(rt.alloc())?)?;
    let ThreadsEnded { passes, one, other } = run::<_, Brand>(&rt, rt.alloc(), &tracker, passes);
    assert!(rt; one.len() + other.len() >= 200_000);
    let changes = one
        .iter()
        .chain(other.iter())
        .filter(|call| is_change(call.reply))
        .count();
    let Ok(last) = close(tracker, passes) else {
        panic!(rt; "a pass is missing")
    };
    assert_eq!(rt; last.stamp(0), changes as u64);
    assert!(rt; last.groups() == 1);
    assert_eq!(rt; last.soft(0), (0, 0));
    assert!(rt; have_order(rt.alloc(), &settings, &one, &other, last.mark(0))?);
    Ok(())
}
