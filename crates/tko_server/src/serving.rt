//! A server whose workers are on threads, and the thread that accepts for them.
ghost use Rattle.std.specs.Prelude.{◌≡◌, IfErr, false, length, true};
ghost use Rattle.tko_server.specs.Announcing.{IsAnnounced};
ghost use Rattle.tko_server.specs.Crews.{IsCrewOf};
ghost use Rattle.tko_server.specs.EventMembers.{AreEventReadyAt};
ghost use Rattle.tko_server.specs.Members.{AreReadyAt};
ghost use Rattle.tko_server.specs.Endings.{HasComeTo};
ghost use Rattle.tko_server.specs.Runs.{IsAfterOpening, tracker_settings};
ghost use Rattle.tko_server.specs.ServerRuns.{ServingEnds};

use crate::crew::Crew;
use crate::ending::{ServedReport, ended_by};
use crate::members::WorkersShared;
use crate::starting::{Start, start_of};
use crate::threads::{WorkerThread, join_all, start_all, start_events};
use crate::{Announce, Options, ServerRunFault};
use std::alloc::Global;
use std::net::TcpListener;
use std::sync::Arc;
use std::thread;
use std::thread::Threads;
use tko_accept::{Entrance, FirstAsks, Listening, Room, Way, accept_all};
use tko_bytes::NoMemory;
use tko_desk::{Desk, Share};
use tko_events::{Log, What};
use tko_io::IoRuntime;
use tko_tracker::Named;

/// Accepts connections and serves each by one of the workers, who take these shares, and the passes
/// of the desk. Returns the announcement, and what the workers met. Once each worker has asked for
/// its first connection it announces that clients can connect, and it accepts none before that.
/// Where a worker cannot ask, since no thread can be made for it, the server ends.
pub(crate) fn serve_all<
    N: Named + Send + Sync,
    R: IoRuntime<Listener = TcpListener> + Threads + Sync,
    A: Announce + Drop,
>(
    rt: &R,
    alloc: Global,
    listener: &TcpListener,
    shared: &WorkersShared<'_, N>,
    desk: &Desk<N>,
    shares: &mut [Share],
    announcement: A,
) -> (A, Result<ServedReport, ServerRunFault>)
    requires shares { length shares.old ≡ N.tracker.settings.threads }
    requires asked { N.tracker.settings ≡ tracker_settings shared.now.options.now }
    ensures { ServingEnds A.announces A.fails shared.now.options.now.connections announcement
        result.0 result.1 }
{
    let Ok(start) = start_of(rt, alloc, shared, desk, shares) else {
        return (announcement, Err(ServerRunFault::Memory));
    };
    serve_from(rt, alloc, listener, shared, desk, start, announcement)
}

/// Serves from there, with each worker on a thread of its own.
fn serve_from<
    N: Named + Send + Sync,
    R: IoRuntime<Listener = TcpListener> + Threads + Sync,
    A: Announce + Drop,
>(
    rt: &R,
    alloc: Global,
    listener: &TcpListener,
    shared: &WorkersShared<'_, N>,
    desk: &Desk<N>,
    start: Start<'_, '_, N>,
    announcement: A,
) -> (A, Result<ServedReport, ServerRunFault>)
    requires { IsCrewOf start.crew (λ members. AreReadyAt N.tracker members.items)
        (λ members. AreEventReadyAt N.tracker members.items) }
    ensures { ServingEnds A.announces A.fails shared.now.options.now.connections announcement
        result.0 result.1 }
{
    let Start {
        crew,
        first_asks,
        room,
        log,
    } = start;
    let options = shared.options;
    let front = Front {
        first_asks,
        room,
        log,
    };
    thread::scope(
        thread::scope_env(),
        rt,
        move |scope| -> (A, Result<ServedReport, ServerRunFault>)
            requires { IsCrewOf crew (λ members. AreReadyAt N.tracker members.items)
                (λ members. AreEventReadyAt N.tracker members.items) }
            ensures { ServingEnds A.announces A.fails options.entry.now.connections
                announcement result.0 result.1 }
        {
            match crew {
                Crew::Blocking(members, way) => {
                    let started = start_all(scope, rt, alloc, desk, members, way);
                    front.serve(rt, alloc, listener, options, started, announcement)
                }
                Crew::Events(members, way) => {
                    let started = start_events(scope, rt, alloc, desk, members, way);
                    front.serve(rt, alloc, listener, options, started, announcement)
                }
            }
        },
    )
}

/// What the thread that accepts has beside the workers.
#[derive(Drop)]
struct Front {
    first_asks: FirstAsks,
    room: Arc<Room, Global>,
    log: Log,
}

impl Front {
    /// Accepts clients for these workers, which get them by this way, once each has asked for its
    /// first one and that was announced. Returns the announcement, and what they met.
    fn serve<R: IoRuntime + Threads, W: Way + Drop, A: Announce + Drop>(
        self,
        rt: &R,
        alloc: Global,
        listener: &TcpListener,
        options: &Options,
        started: Result<(Vec<WorkerThread>, W), NoMemory>,
        mut announcement: A,
    ) -> (A, Result<ServedReport, ServerRunFault>)
        ensures { ServingEnds A.announces A.fails options.now.connections announcement
            result.0 result.1 }
    {
        let Front {
            first_asks,
            room,
            log,
        } = self;
        let Ok((threads, way)) = started else {
            return (announcement, Err(ServerRunFault::Memory));
        };
        if let Err(fault) = begin(rt, first_asks, &log, &mut announcement) {
            return (announcement, Err(fault));
        }
        let mut listening = Listening::new(listener);
        let entrance = Entrance::new(room, way, options.patience, log);
        let connections = options.connections;
        let served = accept_for(rt, alloc, threads, &mut listening, entrance, connections);
        (announcement, served)
    }
}

/// Accepts clients for the workers on these threads, and waits for the workers to end.
#[tactic(auto, using(crate::proofs::EndingLemmas::came_to))]
fn accept_for<R: IoRuntime + Threads, W: Way + Drop>(
    rt: &R,
    alloc: Global,
    threads: Vec<WorkerThread>,
    listening: &mut Listening<'_>,
    mut entrance: Entrance<W>,
    connections: u64,
) -> Result<ServedReport, ServerRunFault>
    requires none { listening.old.accepted ≡ 0 }
    requires whole { listening.old.is_broken ≡ false }
    requires taken { entrance.has_worker ≡ true }
    ensures { HasComeTo connections listening.new result }
{
    let ended = accept_all(rt, alloc, listening, &mut entrance, connections);
    // (the workers end once no more clients can come)
    drop(entrance);
    ended_by(join_all(rt, threads), ended, listening.accepted())
}

/// Waits until each worker has asked for its first connection, and then announces it, after the log
/// was told.
fn begin<R: IoRuntime, A: Announce>(
    rt: &R,
    mut first_asks: FirstAsks,
    log: &Log,
    announcement: &mut A,
) -> Result<(), ServerRunFault>
    ensures fault { IfErr result IsAfterOpening }
    ensures announced { IsAnnounced A.announces A.fails announcement.old announcement.new result }
{
    if !first_asks.hear_all(rt) {
        return Err(ServerRunFault::Memory);
    }
    log.tell(rt, What::Listening);
    announcement.announce(rt, &first_asks)?;
    Ok(())
}
