//! A pool of workers.
ghost use Rattle.std.specs.Prelude.{◌≡◌, ◌<◌, ℕ, IfOk, slice_index_or, vec_len};
ghost use Rattle.tko_prober.specs.Ghosts.{backend_ghosts};
ghost use Rattle.tko_health.specs.Seating.{Leaves};
ghost use Rattle.tko_threads.specs.ClientEnds.{attended, paced_outlet};
ghost use Rattle.tko_threads.specs.Worked.{MemberWorked, worker_ghosts};
ghost use Rattle.tko_threads.specs.Workers.{AreMembersReady, IsMemberReady};

use crate::{Source, WorkerParts, WorkerReport, worker};
use std::alloc::Global;
use std::net::TcpListener;
use std::thread;
use std::thread::Threads;
use tko_bytes::NoMemory;
use tko_health::{Health, Seating};
use tko_io::{Clock, Inlet, IoRuntime, Outlet};
use tko_links::Links;

/// What one worker of a pool is started with.
#[derive(Drop)]
pub struct Member<'a, C, P, S, L, M> {
    pub source: C,
    pub idle: P,
    pub parts: WorkerParts<'a, S, L, M>,
}

/// Runs a worker for each member, on a thread of its own, or one after another where no thread can
/// be made. Returns what each returned, in order, once all have ended. If memory runs out, some
/// members may not have run, and what the others returned is lost.
pub fn pool<
    'a,
    R: IoRuntime<Listener = TcpListener> + Threads + Sync,
    I: Inlet + Drop + Send,
    O: Outlet + Drop + Send,
    W: Clock + Drop + Send,
    C: Source<Reader = I, Writer = O, Clock = W> + Drop + Send,
    P: Drop + Send,
    H: Health + Drop + Send,
    S: Seating<Idle = P, Worker = H> + Sync,
    L: Links + Drop + Send,
    M: Clock + Drop + Send,
>(
    rt: &R,
    alloc: Global,
    members: Vec<Member<'a, C, P, S, L, M>>,
) -> Result<Vec<(P, WorkerReport)>, NoMemory>
    requires ready { AreMembersReady S.own S.servers L.servers members.items }
    ensures number { IfOk result (λ ended. vec_len ended ≡ vec_len members.entry) }
    ensures own { IfOk result (λ ended. (place : ℕ) (m : _) (e : _) → place < vec_len ended
        → S.own (slice_index_or members.entry.items place m).parts.seating.now
        (slice_index_or ended.items place e).0) }
    ensures worked { IfOk result (λ ended. (place : ℕ) (m : _) (e : _) → place < vec_len ended
        → MemberWorked (worker_ghosts (attended {M = W} I.Inlet) (paced_outlet {M = W} O.Outlet)
        (backend_ghosts H.Health L.Links M.Clock))
        S.begins (λ seating. Leaves H.steps (S.gives_back seating))
        (slice_index_or members.entry.items place m) (slice_index_or ended.items place e)) }
{
    let work = |member: Member<'_, C, P, S, L, M>| -> (P, WorkerReport)
        requires { IsMemberReady S.own S.servers L.servers member }
        ensures own { S.own member.entry.parts.seating.now result.0 }
        ensures worked { MemberWorked (worker_ghosts (attended {M = W} I.Inlet)
            (paced_outlet {M = W} O.Outlet) (backend_ghosts H.Health L.Links M.Clock))
            S.begins (λ seating. Leaves H.steps (S.gives_back seating)) member.entry result }
    { worker(rt, alloc, member.source, member.idle, member.parts) };
    Ok(thread::map_vec(rt, members, &work)?)
}
