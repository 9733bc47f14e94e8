//! What a server's workers start from.
ghost use Rattle.std.specs.Prelude.{◌≡◌, IfOk, length};
ghost use Rattle.tko_server.specs.Crews.{IsCrewOf};
ghost use Rattle.tko_server.specs.EventMembers.{AreEventReadyAt};
ghost use Rattle.tko_server.specs.Members.{AreReadyAt};
ghost use Rattle.tko_server.specs.Runs.{tracker_settings};

use crate::by_turns::ByTurns;
use crate::crew::{Crew, WorkerKind};
use crate::event_members::ServerEventMember;
use crate::members::{ServerMember, WorkersShared};
use crossbeam_channel::bounded;
use std::alloc::Global;
use std::sync::Arc;
use tko_accept::{FirstAsks, MAX_QUEUED, OneQueue, Room, first_asks_of};
use tko_bytes::NoMemory;
use tko_desk::{Desk, Share};
use tko_events::Log;
use tko_io::IoRuntime;
use tko_threads::lend_all;
use tko_tracker::Named;

/// The members of a server.
pub(crate) type ServerCrew<'a, 'o, N> = Crew<
    Vec<ServerMember<'a, 'o, N>>,
    Vec<ServerEventMember<'a, 'o, N>>,
>;

/// What a server starts from.
#[derive(Drop)]
pub(crate) struct Start<'a, 'o, N: Named> {
    pub(crate) crew: ServerCrew<'a, 'o, N>,
    pub(crate) first_asks: FirstAsks,
    pub(crate) room: Arc<Room, Global>,
    pub(crate) log: Log,
}

/// What a server starts from whose workers take these shares, and the passes of the desk. It waits
/// for a report of each worker.
pub(crate) fn start_of<'a, 'o, N: Named, R: IoRuntime>(
    rt: &R,
    alloc: Global,
    shared: &'a WorkersShared<'o, N>,
    desk: &Desk<N>,
    shares: &'a mut [Share],
) -> Result<Start<'a, 'o, N>, NoMemory>
    requires shares { length shares.old ≡ N.tracker.settings.threads }
    requires asked { N.tracker.settings ≡ tracker_settings shared.now.options.now }
    ensures ready { IfOk result (λ start. IsCrewOf start.crew
        (λ members. AreReadyAt N.tracker members.items)
        (λ members. AreEventReadyAt N.tracker members.items)) }
    ensures reports { IfOk result (λ start. IsCrewOf start.crew
        (λ members. start.first_asks.missing ≡ length members.items)
        (λ members. start.first_asks.missing ≡ length members.items)) }
{
    let log = Log::another(Some(shared.log))?;
    let meter = log.meter().another()?;
    let room = Room::open(alloc, shared.allotment.clients, meter)?;
    let (crew, first_asks) = match shared.kind {
        WorkerKind::Blocking => blocking_crew(rt, alloc, shared, desk, shares)?,
        WorkerKind::Events => event_crew(rt, alloc, shared, desk, shares)?,
    };
    Ok(Start {
        crew,
        first_asks,
        room,
        log,
    })
}

/// Workers that serve one client after another, and the reports of all of them.
fn blocking_crew<'a, 'o, N: Named, R: IoRuntime>(
    rt: &R,
    alloc: Global,
    shared: &'a WorkersShared<'o, N>,
    desk: &Desk<N>,
    shares: &'a mut [Share],
) -> Result<(ServerCrew<'a, 'o, N>, FirstAsks), NoMemory>
    requires shares { length shares.old ≡ N.tracker.settings.threads }
    requires asked { N.tracker.settings ≡ tracker_settings shared.now.options.now }
    ensures ready { IfOk result (λ made. IsCrewOf made.0
        (λ members. AreReadyAt N.tracker members.items)
        (λ members. AreEventReadyAt N.tracker members.items)) }
    ensures reports { IfOk result (λ made. IsCrewOf made.0
        (λ members. made.1.missing ≡ length members.items)
        (λ members. made.1.missing ≡ length members.items)) }
{
    let options = shared.options;
    let threads = options.settings.threads;
    let (clients, accepted) = bounded(alloc, MAX_QUEUED as usize)?;
    let (first_ask, first_asks) = first_asks_of(alloc, threads)?;
    let passes = lend_all(rt, alloc, desk, threads)?;
    let members = shared.members(rt, alloc, passes, shares, &accepted, &first_ask)?;
    Ok((Crew::Blocking(members, OneQueue::new(clients)), first_asks))
}

/// Event-driven workers, and the reports of all of them.
fn event_crew<'a, 'o, N: Named, R: IoRuntime>(
    rt: &R,
    alloc: Global,
    shared: &'a WorkersShared<'o, N>,
    desk: &Desk<N>,
    shares: &'a mut [Share],
) -> Result<(ServerCrew<'a, 'o, N>, FirstAsks), NoMemory>
    requires shares { length shares.old ≡ N.tracker.settings.threads }
    requires asked { N.tracker.settings ≡ tracker_settings shared.now.options.now }
    ensures ready { IfOk result (λ made. IsCrewOf made.0
        (λ members. AreReadyAt N.tracker members.items)
        (λ members. AreEventReadyAt N.tracker members.items)) }
    ensures reports { IfOk result (λ made. IsCrewOf made.0
        (λ members. made.1.missing ≡ length members.items)
        (λ members. made.1.missing ≡ length members.items)) }
{
    let workers = shared.event_workers();
    let (first_ask, first_asks) = first_asks_of(alloc, workers)?;
    let passes = lend_all(rt, alloc, desk, workers)?;
    let shares = &mut shares[..workers as usize];
    let (members, ways) = shared.event_members(rt, alloc, passes, shares, &first_ask)?;
    Ok((Crew::Events(members, ByTurns::new(ways)), first_asks))
}
