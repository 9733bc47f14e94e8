//! A server over its tracker, from the opened one to the closed one.
ghost use Rattle.std.specs.Prelude.{◌≡◌, IfErr, IfOk, length};
ghost use Rattle.tko_tracker.specs.Seated.{ArePasses};
ghost use Rattle.tko_server.specs.Announcing.{IsAnnounced, fault_in};
ghost use Rattle.tko_server.specs.Closing.{HasRun, HasRunFailed, HasRunToEnd, unclosed};
ghost use Rattle.tko_server.specs.Endings.{IsEnough};
ghost use Rattle.tko_server.specs.Runs.{IsAfterOpening, tracker_settings};

use crate::crew::WorkerKind;
use crate::ending::ServedReport;
use crate::members::WorkersShared;
use crate::naming::Naming;
use crate::running::RunParts;
use crate::serving::serve_all;
use crate::{Announce, Ended, Options, Ran, ServerRunFault};
use std::alloc::Global;
use std::net::TcpListener;
use std::snapshot::Snapshot;
use std::sync::Mutex;
use std::thread::Threads;
use tko_bytes::NoMemory;
use tko_desk::{Book, Desk, Share, Totals, gather};
use tko_events::Log;
use tko_health::SharedSeating;
use tko_io::IoRuntime;
use tko_tracker::{Final, IdlePass, Named, Tracker, close};

/// Why a server ended without its totals, and what was left of its tracker.
#[derive(Drop)]
pub(crate) struct Failed {
    pub(crate) fault: ServerRunFault,
    /// None where a pass did not come back, so that the tracker could not be closed.
    pub(crate) closed: Option<Final>,
}

/// Runs a server over this tracker, which `N` names, with the passes of its threads. They lie at a
/// desk while no worker has them. At the end the tracker is closed with those that the desk then
/// has.
pub(crate) fn run_with<
    N: Named + Send + Sync,
    R: IoRuntime<Listener = TcpListener> + Threads + Sync + Copy + Send + 'static,
    A: Announce + Drop,
>(
    rt: &R,
    alloc: Global,
    options: &Options,
    run: RunParts<'_, A>,
    tracker: Tracker,
    passes: Vec<IdlePass>,
) -> (A, Result<Ended, Failed>)
    requires named { tracker ≡ N.tracker }
    requires asked { N.tracker.settings ≡ tracker_settings options.now }
    requires passes { ArePasses N.tracker passes.items }
    ensures ended { IfOk result.1 (HasRunToEnd options.now N.tracker) }
    ensures failed { IfErr result.1 (HasRunFailed N.tracker) }
    ensures announced { IsAnnounced A.announces A.fails run.entry.announcement result.0
        (fault_in result.1) }
{
    let desk = Desk::<N>::open(passes);
    let (announcement, served) = serve_over(rt, alloc, options, run, &tracker, &desk);
    let Ok(closed) = close(tracker, desk.end()) else {
        // (a pass is lost only where memory runs out before its worker has ended)
        let fault = unclosed(&served);
        let closed = None;
        return (announcement, Err(Failed { fault, closed }));
    };
    match served {
        Ok((totals, served, ran)) => {
            let ended = Ended {
                ran,
                totals,
                accepted: served.accepted,
                report: served.report,
                closed,
            };
            (announcement, Ok(ended))
        }
        Err(fault) => {
            let failed = Failed {
                fault,
                closed: Some(closed),
            };
            (announcement, Err(failed))
        }
    }
}

/// The fault of a server that came to this, and whose tracker could not be closed.
fn unclosed<T>(served: &Result<T, ServerRunFault>) -> ServerRunFault
    ensures { result ≡ unclosed served.now }
{
    match served {
        Err(ServerRunFault::Announce) => ServerRunFault::Announce,
        _ => ServerRunFault::Memory,
    }
}

/// Serves over this tracker, which `N` names, by workers with the passes of this desk. Returns the
/// announcement, and the totals with what the workers met and were given, and what they ran on.
fn serve_over<
    'o,
    N: Named + Send + Sync,
    R: IoRuntime<Listener = TcpListener> + Threads + Sync + Copy + Send + 'static,
    A: Announce + Drop,
>(
    rt: &R,
    alloc: Global,
    options: &'o Options,
    run: RunParts<'o, A>,
    tracker: &'o Tracker,
    desk: &Desk<N>,
) -> (A, Result<(Totals, ServedReport, Ran), ServerRunFault>)
    requires named { tracker.now ≡ N.tracker }
    requires asked { N.tracker.settings ≡ tracker_settings options.now }
    ensures ran { IfOk result.1 (λ served. HasRun options.now N.tracker served.2) }
    ensures enough { IfOk result.1 (λ served.
        IsEnough options.now.connections served.1.accepted) }
    ensures fault { IfErr result.1 IsAfterOpening }
    ensures announced { IsAnnounced A.announces A.fails run.entry.announcement
        result.0 result.1 }
{
    let RunParts {
        listener,
        kind,
        log,
        announcement,
    } = run;
    let Ok((shared, mut shares)) = shared_by_all::<N, R>(rt, alloc, options, kind, log, tracker)
    else {
        return (announcement, Err(ServerRunFault::Memory));
    };
    let (announcement, served) = serve_all(
        rt,
        alloc,
        listener,
        &shared,
        desk,
        &mut shares,
        announcement,
    );
    match served {
        Ok(served) => {
            let ran = ran_on(&shared, tracker);
            let totals = totals_of(shared.book.into_inner(), shares);
            (announcement, Ok((totals, served, ran)))
        }
        Err(fault) => (announcement, Err(fault)),
    }
}

/// What the workers that share this ran on, over this tracker.
fn ran_on<N: Named>(shared: &WorkersShared<'_, N>, tracker: &Tracker) -> Ran
    ensures { HasRun shared.now.options.now tracker.now result }
{
    Ran {
        options: Snapshot::of(shared.options),
        tracker: Snapshot::of(tracker),
    }
}

/// What all workers share over this tracker, which `N` names, and the share of each.
fn shared_by_all<
    'o,
    N: Named,
    R: IoRuntime<Listener = TcpListener> + Threads + Copy + Send + 'static,
>(
    rt: &R,
    alloc: Global,
    options: &'o Options,
    kind: WorkerKind,
    log: &'o Log,
    tracker: &'o Tracker,
) -> Result<(WorkersShared<'o, N>, Vec<Share>), NoMemory>
    requires named { tracker.now ≡ N.tracker }
    requires asked { N.tracker.settings ≡ tracker_settings options.now }
    ensures options { IfOk result (λ both. both.0.options.now ≡ options.now) }
    ensures shares { IfOk result (λ both. length both.1.items ≡ N.tracker.settings.threads) }
{
    let naming = Naming::start(rt, alloc, options.config.addresses(), log)?;
    let (book, shares) = Book::open(alloc, 0, options.settings.threads)?;
    let shared = WorkersShared {
        options,
        seating: SharedSeating::<N>::new(tracker, options.config.servers() as usize),
        book: Mutex::new(book),
        log,
        naming,
        kind,
        allotment: kind.allotment(options),
    };
    Ok((shared, shares))
}

/// The totals of the book. Each worker gave its share back, so `gather` does not refuse them; what
/// a lock had in it is known by its type alone, so no contract says that.
fn totals_of(book: Book, shares: Vec<Share>) -> Totals
    ensures { result.counts ≡ book.totals }
{
    match gather(book, shares) {
        Ok(totals) => totals,
        Err((book, _)) => Totals {
            counts: book.totals(),
        },
    }
}
