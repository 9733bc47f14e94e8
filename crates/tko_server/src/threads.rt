//! The threads of a server's workers.
ghost use Rattle.std.specs.Prelude.{IfOk};
ghost use Rattle.tko_server.specs.EventMembers.{AreEventReadyAt, IsEventReadyAt};
ghost use Rattle.tko_server.specs.Members.{AreReadyAt, IsReadyAt};

use crate::by_turns::ByTurns;
use crate::event_members::{EventMember, ServerEventMember};
use crate::members::ServerMember;
use std::alloc::Global;
use std::net::TcpListener;
use std::thread::{JoinHandle, Scope, Threads};
use tko_accept::OneQueue;
use tko_bytes::NoMemory;
use tko_desk::Desk;
use tko_event_threads::event_worker;
use tko_io::IoRuntime;
use tko_threads::{WorkerReport, work};
use tko_tracker::Named;

/// The thread of one worker, which returns what its worker met.
pub(crate) type WorkerThread = JoinHandle<Result<WorkerReport, NoMemory>>;

/// Runs each of these members as a pool of its own, on a thread that is made for it, so that all of
/// them work at once. Where a thread cannot be made, no clients can come any more, so that all
/// members end, those without a thread on this one.
pub(crate) fn start_all<
    's,
    'e: 's,
    'o: 'e,
    R: IoRuntime<Listener = TcpListener> + Threads + Sync,
    N: Named + Send + Sync,
>(
    scope: &Scope<'s, &'e ()>,
    rt: &'e R,
    alloc: Global,
    desk: &'e Desk<N>,
    members: Vec<ServerMember<'e, 'o, N>>,
    way: OneQueue,
) -> Result<(Vec<WorkerThread>, OneQueue), NoMemory>
    requires { AreReadyAt N.tracker members.items }
{
    let mut threads = Vec::with_capacity(alloc, members.len())?;
    let mut way = Some(way);
    for member in members {
        let alone = pool_of(alloc, member)?;
        let works = move || -> Result<WorkerReport, NoMemory>
            requires { AreReadyAt N.tracker alone.items }
        { work(rt, alloc, desk, alone) };
        match scope.spawn(works) {
            Ok(thread) => threads.push(thread)?,
            Err(refused) => {
                way = None;
                let work_here = refused.value;
                work_here()?;
            }
        }
    }
    match way {
        Some(way) => Ok((threads, way)),
        None => Err(NoMemory),
    }
}

/// Runs each of these event-driven workers on a thread that is made for it. Where a thread cannot
/// be made it is as with the others.
pub(crate) fn start_events<
    's,
    'e: 's,
    'o: 'e,
    R: IoRuntime<Listener = TcpListener> + Threads + Sync,
    N: Named + Send + Sync,
>(
    scope: &Scope<'s, &'e ()>,
    rt: &'e R,
    alloc: Global,
    desk: &'e Desk<N>,
    members: Vec<ServerEventMember<'e, 'o, N>>,
    way: ByTurns,
) -> Result<(Vec<WorkerThread>, ByTurns), NoMemory>
    requires { AreEventReadyAt N.tracker members.items }
{
    let mut threads = Vec::with_capacity(alloc, members.len())?;
    let mut way = Some(way);
    for member in members {
        let works = move || -> Result<WorkerReport, NoMemory>
            requires { IsEventReadyAt N.tracker member }
        { work_events(rt, alloc, desk, member) };
        match scope.spawn(works) {
            Ok(thread) => threads.push(thread)?,
            Err(refused) => {
                way = None;
                let work_here = refused.value;
                work_here()?;
            }
        }
    }
    match way {
        Some(way) => Ok((threads, way)),
        None => Err(NoMemory),
    }
}

/// Runs an event-driven worker, and gives its pass back to the desk. A desk that is full drops the
/// pass, as with the others.
fn work_events<R: IoRuntime, N: Named>(
    rt: &R,
    alloc: Global,
    desk: &Desk<N>,
    member: ServerEventMember<'_, '_, N>,
) -> Result<WorkerReport, NoMemory>
    requires { IsEventReadyAt N.tracker member }
{
    let EventMember { idle, parts } = member;
    let (idle, report) = event_worker(rt, alloc, idle, parts);
    if desk.give(rt, idle).is_err() {
        return Err(NoMemory);
    }
    Ok(report)
}

/// A pool of one member.
fn pool_of<'a, 'o, N: Named>(
    alloc: Global,
    member: ServerMember<'a, 'o, N>,
) -> Result<Vec<ServerMember<'a, 'o, N>>, NoMemory>
    requires { IsReadyAt N.tracker member }
    ensures { IfOk result (λ alone. AreReadyAt N.tracker alone.items) }
{
    let mut alone = Vec::new(alloc);
    alone.push(member)?;
    Ok(alone)
}

/// Waits for all of these workers to end. Returns what they met.
pub(crate) fn join_all<R: Threads>(
    rt: &R,
    threads: Vec<WorkerThread>,
) -> Result<WorkerReport, NoMemory> {
    let mut all = Ok(WorkerReport::new());
    for thread in threads {
        let one = thread.join(rt);
        all = both(all, one);
    }
    all
}

/// What two met together.
fn both(
    one: Result<WorkerReport, NoMemory>,
    other: Result<WorkerReport, NoMemory>,
) -> Result<WorkerReport, NoMemory> {
    let mut all = one?;
    all.add(&other?);
    Ok(all)
}
