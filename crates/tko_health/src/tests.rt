//! Two workers at one tracker, in a lock and without one.
ghost use Rattle.std.specs.Prelude.{◌≡◌, ◌<◌, All, IfSome};
ghost use Rattle.tko_tracker.specs.Seated.{ArePasses, IsOf};

use crate::{Health, LockedIdle, LockedSeating, Seating, SharedSeating, TrackerSettings};
use std::marker::Brand;
use std::sync::Wait;
use std::test::Fail;
use std::thread::{Threads, join};
use tko_model::{Look, Mark, OneGroup, Reply};
use tko_tracker::{IdlePass, Named, Tracker, open};

const SETTINGS: OneGroup = OneGroup {
    servers: 2,
    threads: 2,
    limit: 1,
    tries: 3,
    ..OneGroup::SMALL
};

/// Names these settings.
struct TwoServerSettings;

impl TrackerSettings for TwoServerSettings {
    ghost use Rattle.std.specs.Prelude.{[], ◌∷◌};

    ghost settings = { record {
      servers = 2;
      threads = 2;
      failures = 1;
      limits = 1 ∷ [];
      group_of = 0 ∷ 0 ∷ [];
      tries = 3;
      opening_stamp = 0;
    } };
}

/// What a worker finds at each server.
fn look<R: Wait, H: Health>(rt: &R, health: &mut H) -> [Reply; 2]
    requires { H.servers health.old ≡ 2 }
    ensures { H.servers health.new ≡ 2 }
{
    [look_at(rt, health, 0), look_at(rt, health, 1)]
}

fn look_at<R: Wait, H: Health>(rt: &R, health: &mut H, server: usize) -> Reply
    requires { server < H.servers health.old }
    ensures { H.servers health.new ≡ H.servers health.old }
{
    match health.look_up(rt, server) {
        Look::Up(count, _) => Reply::Up(count),
        Look::Marked(found) => Reply::Marked(found),
    }
}

/// What two workers saw.
#[derive(Debug, Drop, PartialEq, Eq)]
struct WorkersSaw {
    /// Each cannot reach one of the servers.
    failures: [Reply; 2],
    /// What the first finds, and what the second finds once the first has left.
    before: [Reply; 2],
    after: [Reply; 2],
    /// Both come back, and neither can reach the first server.
    again: [Reply; 2],
}

const SEEN: WorkersSaw = WorkersSaw {
    failures: [Reply::TookHard, Reply::TookHard],
    before: [Reply::Marked(Mark::Hard(0)), Reply::Marked(Mark::Hard(1))],
    after: [Reply::Up(0), Reply::Marked(Mark::Hard(1))],
    again: [Reply::TookHard, Reply::Already(Mark::Hard(0))],
};

/// A worker takes its seat and cannot reach a server.
fn fail<R: Wait, S: Seating>(
    rt: &R,
    seating: &S,
    idle: S::Idle,
    server: usize,
) -> (S::Worker, Reply)
    requires own { S.own seating.now idle }
    requires server { server < S.servers seating.now }
    ensures { S.Worker.servers result.0 ≡ S.servers seating.now }
{
    let mut health = seating.seat(idle);
    let reply = health.hard_failure(rt, server);
    (health, reply)
}

/// Two workers mark a server each. One leaves, then the other; both come back.
fn play<
    R: Threads + Wait + Sync,
    P: Drop + Send,
    H: Health + Drop + Send,
    S: Seating<Idle = P, Worker = H> + Sync,
>(rt: &R, seating: &S, first: P, second: P) -> WorkersSaw
    requires first { S.own seating.now first }
    requires second { S.own seating.now second }
    requires servers { S.servers seating.now ≡ 2 }
{
    let ((mut one, took), (mut two, other)) = join(
        rt,
        || fail(rt, seating, first, 0),
        || fail(rt, seating, second, 1),
    );
    let before = look(rt, &mut one);
    let first = seating.leave(rt, one);
    let after = look(rt, &mut two);
    let second = seating.leave(rt, two);
    let (_first, mine) = fail(rt, seating, first, 0);
    let (_second, already) = fail(rt, seating, second, 0);
    WorkersSaw {
        failures: [took, other],
        before,
        after,
        again: [mine, already],
    }
}

/// The seats of two threads at a tracker in a lock.
fn locked_seats(
    seats: Vec<LockedIdle<TwoServerSettings>>,
) -> Option<(LockedIdle<TwoServerSettings>, LockedIdle<TwoServerSettings>)>
    requires { All (λ idle. idle < 2) seats.items }
    ensures { IfSome result (λ two. (two.0 < 2) × (two.1 < 2)) }
{
    let mut seats = seats;
    let second = seats.pop()?;
    Some((seats.pop()?, second))
}

/// The same at a tracker without a lock.
fn shared_seats<N: Named>(passes: Vec<IdlePass>) -> Option<(IdlePass, IdlePass)>
    requires { ArePasses N.tracker passes.items }
    ensures { IfSome result (λ two. IsOf N.tracker two.0 × IsOf N.tracker two.1) }
{
    let mut passes = passes;
    let second = passes.pop()?;
    Some((passes.pop()?, second))
}

/// The two workers at the tracker without a lock that `N` names.
fn play_shared<R: Threads + Wait + Sync, N: Named + Send + Sync>(
    rt: &R,
    tracker: &Tracker,
    passes: Vec<IdlePass>,
) -> Option<WorkersSaw>
    requires named { tracker.now ≡ N.tracker }
    requires passes { ArePasses N.tracker passes.items }
    requires servers { N.tracker.settings.servers ≡ 2 }
{
    let seating = SharedSeating::<N>::new(tracker, 2);
    let (first, second) = shared_seats::<N>(passes)?;
    Some(play(rt, &seating, first, second))
}

#[test]
fn two_workers_in_a_lock(rt: HostRuntime) -> Result<(), Fail> {
    let (seating, seats) = LockedSeating::<TwoServerSettings>::open(
        rt.alloc(),
        SETTINGS.settings(rt.alloc())?,
    )?;
    let (first, second) = locked_seats(seats).expect(&rt, "two seats");
    assert_eq!(rt; play(&rt, &seating, first, second), SEEN);
    Ok(())
}

#[test]
fn two_workers_without_a_lock(rt: HostRuntime) -> Result<(), Fail> {
    let (tracker, passes) = open(rt.alloc(), SETTINGS.settings(rt.alloc())?)?;
    let seen = play_shared::<_, Brand>(&rt, &tracker, passes);
    assert_eq!(rt; seen, Some(SEEN));
    Ok(())
}
