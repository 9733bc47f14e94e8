//! The passes of a server's workers: a desk lends them, and gets them back.
ghost use Rattle.std.specs.Prelude.{◌≡◌, All, IfOk, length};
ghost use Rattle.tko_tracker.specs.Seated.{IsOf};
ghost use Rattle.tko_threads.specs.Workers.{AreMembersReady};

use crate::{Member, Source, WorkerReport, pool};
use std::alloc::Global;
use std::net::TcpListener;
use std::sync::Wait;
use std::thread::Threads;
use tko_bytes::NoMemory;
use tko_desk::Desk;
use tko_health::SharedSeating;
use tko_io::{Clock, Inlet, IoRuntime, Outlet};
use tko_links::Links;
use tko_tracker::{IdlePass, Named};

/// A member that has a pass of the tracker without a lock that `N` names.
pub type PassMember<'a, 't, N, C, L, M> = Member<'a, C, IdlePass, SharedSeating<'t, N>, L, M>;

/// A pass of the desk for each of `threads` workers. A desk that was opened with as many passes has
/// one for each. What a lock has in it is known by its type alone, so no clause says that: a desk
/// with fewer is an error like the lack of memory.
pub fn lend_all<R: Wait, N: Named>(
    rt: &R,
    alloc: Global,
    desk: &Desk<N>,
    threads: u32,
) -> Result<Vec<IdlePass>, NoMemory>
    ensures own { IfOk result (λ passes. All (λ idle. IsOf N.tracker idle) passes.items) }
    ensures number { IfOk result (λ passes. length passes.items ≡ threads) }
{
    let mut passes = Vec::with_capacity(alloc, threads as usize)?;
    for _ in 0..threads {
        let Some(pass) = desk.take(rt) else {
            return Err(NoMemory);
        };
        passes.push(pass)?;
    }
    Ok(passes)
}

/// Runs these members as a pool, and gives their passes back to the desk once all have ended.
/// Returns what they met.
pub fn work<
    R: IoRuntime<Listener = TcpListener> + Threads + Sync,
    N: Named + Send + Sync,
    I: Inlet + Drop + Send,
    O: Outlet + Drop + Send,
    W: Clock + Drop + Send,
    C: Source<Reader = I, Writer = O, Clock = W> + Drop + Send,
    L: Links + Drop + Send,
    M: Clock + Drop + Send,
>(
    rt: &R,
    alloc: Global,
    desk: &Desk<N>,
    members: Vec<PassMember<'_, '_, N, C, L, M>>,
) -> Result<WorkerReport, NoMemory>
    requires { AreMembersReady (λ _ idle. IsOf N.tracker idle) (λ _. N.tracker.settings.servers)
        L.servers members.items }
{
    let ended = pool(rt, alloc, members)?;
    let report = WorkerReport::of_all(&ended);
    give_all(rt, desk, ended)?;
    Ok(report)
}

/// Gives the passes of these workers back to the desk. A desk that is full drops a pass, and then
/// the tracker cannot be closed: an error like the lack of memory, after all others were given.
fn give_all<R: Wait, N: Named>(
    rt: &R,
    desk: &Desk<N>,
    ended: Vec<(IdlePass, WorkerReport)>,
) -> Result<(), NoMemory>
    requires { All (λ one. IsOf N.tracker one.0) ended.items }
{
    let mut is_full = false;
    for (pass, _) in ended {
        is_full |= desk.give(rt, pass).is_err();
    }
    if is_full {
        return Err(NoMemory);
    }
    Ok(())
}
