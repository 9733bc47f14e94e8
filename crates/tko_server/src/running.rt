//! The server over TCP.
ghost use Rattle.std.specs.Prelude.{◌≡◌, ◌<◌, ◌↔◌, Err, IfOk, MatchOption, Some, unwrap_or};
ghost use Rattle.tko_accept.specs.Allotments.{clients_without_limit};
ghost use Rattle.tko_model.specs.Ranges.{first_fault};
ghost use Rattle.tko_server.specs.Closing.{HasServerEnded};
ghost use Rattle.tko_server.specs.Descriptors.{IsEventAllotment, IsThreadAllotment, clients_asked};
ghost use Rattle.tko_server.specs.Runs.{tracker_settings};
ghost use Rattle.tko_server.specs.ServerRuns.{IsServerRun};

use crate::announce::Silent;
use crate::crew::WorkerKind;
use crate::opening::opened;
use crate::tracked::run_with;
use crate::{Announce, ServerRunFault};
use std::alloc::Global;
use std::marker::Brand;
use std::net::TcpListener;
use std::snapshot::Snapshot;
use std::thread::Threads;
use tko_accept::Allotment;
use tko_desk::Totals;
use tko_events::Log;
use tko_io::IoRuntime;
use tko_keys::KeyPlan;
use tko_model::{Settings, SettingsFault};
use tko_pools::Config;
use tko_prober::Delays;
use tko_threads::{Patience, WorkerReport};
use tko_tracker::{Final, Tracker};

/// What a server is started with.
#[derive(Drop)]
pub struct Options {
    pub config: Config,
    /// There are as many workers as `threads`. The number of servers is that of the configuration,
    /// and each server has a group.
    pub settings: Settings,
    pub delays: Delays,
    /// How long a server may take to answer, in milliseconds.
    pub timeout: u32,
    pub patience: Patience,
    /// How many files the process may have open, where that is known.
    pub open_files: Option<u64>,
    /// How many clients event-driven workers have at most; `None` is what the descriptors allow.
    pub clients: Option<u64>,
    /// How an event-driven worker sends the keys of one request.
    pub keys: KeyPlan,
    /// How many connections are accepted; 0 is no limit.
    pub connections: u64,
}

/// What the workers of a server ran on, which contracts alone see.
#[derive(Drop)]
pub struct Ran {
    pub options: Snapshot<Options>,
    /// The tracker of which each worker had a pass.
    pub tracker: Snapshot<Tracker>,
}

/// What a server came to.
#[derive(Drop)]
pub struct Ended {
    pub ran: Ran,
    pub totals: Totals,
    /// How many connections were accepted.
    pub accepted: u64,
    /// What all workers met.
    pub report: WorkerReport,
    /// What is left of the tracker, to which all passes came back.
    pub closed: Final,
}

/// What a server is run with, once what runs beside it has begun.
#[derive(Drop)]
pub(crate) struct RunParts<'a, A> {
    pub(crate) listener: &'a TcpListener,
    pub(crate) kind: WorkerKind,
    pub(crate) log: &'a Log,
    pub(crate) announcement: A,
}

impl Options {
    /// What the process has descriptors for.
    pub fn allotment(&self) -> Allotment
        ensures { IsThreadAllotment self.now result }
    {
        let threads = self.settings.threads.max(1);
        Allotment::of(self.open_files, threads, self.config.servers())
    }

    /// The same of event-driven workers.
    pub fn event_allotment(&self) -> Allotment
        ensures { IsEventAllotment self.now result }
    {
        let threads = self.settings.threads.max(1);
        let servers = self.config.servers();
        Allotment::of_events(
            self.open_files,
            threads,
            servers,
            at_least_one(self.clients),
        )
    }
}

/// How many clients may be connected, but one in any case.
fn at_least_one(clients: Option<u64>) -> Option<u64>
    ensures some { MatchOption result (Unit {0}) (λ count. 0 < count) }
    ensures asked { unwrap_or result clients_without_limit ≡ clients_asked clients }
{
    match clients {
        Some(count) => Some(count.max(1)),
        None => None,
    }
}

/// Accepts connections and serves each over TCP links by one of the workers, who share the health
/// of the servers without a lock. Returns the totals once the last connection was served.
pub fn run<R: IoRuntime<Listener = TcpListener> + Threads + Sync + Copy + Send + 'static>(
    rt: &R,
    alloc: Global,
    listener: &TcpListener,
    options: &Options,
) -> Result<Totals, ServerRunFault>
    ensures settings { (fault : SettingsFault) → (result ≡ Err (ServerRunFault.Settings fault))
        ↔ (first_fault (tracker_settings options.now) ≡ Some fault) }
{
    match run_to_end(rt, alloc, listener, options) {
        Ok(ended) => Ok(ended.totals),
        Err(fault) => Err(fault),
    }
}

/// The same, with what the workers met.
pub fn run_to_end<R: IoRuntime<Listener = TcpListener> + Threads + Sync + Copy + Send + 'static>(
    rt: &R,
    alloc: Global,
    listener: &TcpListener,
    options: &Options,
) -> Result<Ended, ServerRunFault>
    ensures settings { (fault : SettingsFault) → (result ≡ Err (ServerRunFault.Settings fault))
        ↔ (first_fault (tracker_settings options.now) ≡ Some fault) }
    ensures ended { IfOk result (HasServerEnded options.now) }
{
    let log = Log::off();
    let run = RunParts {
        listener,
        kind: WorkerKind::Blocking,
        log: &log,
        announcement: Silent,
    };
    let (_, ended) = open_and_run(rt, alloc, options, run);
    ended
}

/// Opens the tracker, and runs the server over it. Returns the announcement too, as the run left
/// it.
pub(crate) fn open_and_run<
    R: IoRuntime<Listener = TcpListener> + Threads + Sync + Copy + Send + 'static,
    A: Announce + Drop,
>(
    rt: &R,
    alloc: Global,
    options: &Options,
    run: RunParts<'_, A>,
) -> (A, Result<Ended, ServerRunFault>)
    ensures { IsServerRun A.announces A.fails options.now run.entry.announcement
        result.0 result.1 }
{
    let (tracker, passes) = match opened(alloc, options) {
        Ok(opened) => opened,
        Err(fault) => return (run.announcement, Err(fault)),
    };
    let (announcement, ended) = run_with::<Brand, R, A>(rt, alloc, options, run, tracker, passes);
    match ended {
        Ok(ended) => (announcement, Ok(ended)),
        Err(failed) => (announcement, Err(failed.fault)),
    }
}
