//! A worker: one thread that serves one connection after another.
ghost use Rattle.std.specs.Prelude.{◌≡◌, ◌≤◌, Bool, Result, false, length};
ghost use Rattle.tko_health.specs.Seating.{Leaves};
ghost use Rattle.tko_bytes.specs.Numbers.{capped};
ghost use Rattle.tko_session.specs.declared.fault.SessionFault.{SessionFault};
ghost use Rattle.tko_session.specs.declared.step.Report.{Report};
ghost use Rattle.tko_threads.specs.Reports.{ending_of};
ghost use Rattle.tko_threads.specs.ClientEnds.{attended, paced_outlet};
ghost use Rattle.tko_threads.specs.Worked.{HasSettled, HasWorked, IsRoundRun, IsSession, IsWorkSettled, Works, at_work, probes_below, unsettled, with_share, worker_ghosts};
ghost use Rattle.tko_threads.specs.Workers.{IsEquipped};
ghost use Rattle.tko_reply.specs.Answers.{Reaches};
ghost use Rattle.tko_prober.specs.Ghosts.{backend_ghosts};

use crate::attended::{Attendance, Attended};
use crate::paced::Paced;
use crate::request_times::RequestTimes;
use crate::{Account, Metered, Next, Source, Visitor, WorkerReport, leave};
use std::alloc::Global;
use std::net::SocketAddr;
use std::sync::Wait;
use std::sync::atomic::AtomicU64;
use tko_events::WorkerLog;
use tko_health::{Health, Seating};
use tko_io::{Clock, Inlet, IoRuntime, Outlet};
use tko_links::Links;
use tko_metrics::Ending;
use tko_model::{Counts, Kind};
use tko_pools::Config;
use tko_prober::{Backend, Probers};
use tko_session::{Parts, Report, SessionFault, round, serve};

/// What a worker works with: the seat that it takes, the links, the configuration, the probers,
/// their clock, its account, and its end of the log and of the meter.
#[derive(Drop)]
pub struct WorkerParts<'a, S, L, M> {
    pub seating: &'a S,
    pub links: L,
    pub config: Config,
    pub probers: Probers,
    pub clock: M,
    pub account: Account<'a>,
    pub log: WorkerLog,
}

/// Serves each connection that the source gives, until it gives none any more. Where the source is
/// idle, and after each request, the probers of the servers that this worker marked get a round. At
/// the end the worker gives up its marks, and gives its place back.
pub fn worker<R: IoRuntime, C: Source + Drop, S: Seating, L: Links + Drop, M: Clock + Drop>(
    rt: &R,
    alloc: Global,
    mut source: C,
    idle: S::Idle,
    parts: WorkerParts<'_, S, L, M>,
) -> (S::Idle, WorkerReport)
    requires own { S.own parts.seating.now idle }
    requires equipped { IsEquipped S.servers L.servers parts }
    ensures own { S.own parts.entry.seating.now result.0 }
    ensures worked { HasWorked (worker_ghosts
        (attended {M = C.Clock} C.Reader.Inlet) (paced_outlet {M = C.Clock} C.Writer.Outlet)
        (backend_ghosts S.Worker.Health L.Links M.Clock))
        (S.begins parts.entry.seating.now idle)
        (Leaves S.Worker.Health.steps (S.gives_back parts.entry.seating.now))
        parts.entry result }
{
    let WorkerParts {
        seating,
        links,
        config,
        probers,
        clock,
        mut account,
        log,
    } = parts;
    let requests = AtomicU64::new(0);
    let times = RequestTimes::new(&log);
    let mut working = Working {
        parts: Parts {
            backend: Backend {
                health: seating.seat(idle),
                links,
                probers,
                clock,
            },
            trails: Metered::timed(log, &requests, &times),
            config,
        },
        attendance: Attendance::new(rt, source.clock(rt), &requests, &times),
        report: WorkerReport::new(),
        probes: 0,
    };
    serve_clients(rt, alloc, &mut source, &mut working, &mut account, &times);
    working.settle(rt, &mut account);
    let Working { parts, report, .. } = working;
    let Parts {
        backend,
        trails,
        ..
    } = parts;
    (leave(rt, seating, backend.health, &trails), report)
}

/// Serves one connection after another, and settles after each, until the source gives none any
/// more. Where the source is idle, a round is run.
fn serve_clients<R: IoRuntime, C: Source, H: Health, L: Links, M: Clock>(
    rt: &R,
    alloc: Global,
    source: &mut C,
    working: &mut Working<'_, H, L, M, C::Clock>,
    account: &mut Account<'_>,
    times: &RequestTimes,
)
    requires reach { Reaches H.servers L.servers working.old.parts }
    ensures reach { Reaches H.servers L.servers working.new.parts }
    ensures works { Works (worker_ghosts
        (attended {M = C.Clock} C.Reader.Inlet) (paced_outlet {M = C.Clock} C.Writer.Outlet)
        (backend_ghosts H.Health L.Links M.Clock))
        (with_share (at_work working.old) account.old.share.now)
        (with_share (at_work working.new) account.new.share.now) }
{
    for _ in rt.forever() {
        match source.next(rt) {
            Next::Connection(visitor) => {
                let Visitor {
                    reader,
                    writer,
                    address,
                    patience,
                } = visitor;
                let writer = Paced::new(writer, source.clock(rt), times, patience.write_timeout);
                working.serve(rt, alloc, reader, writer, address, patience.idle_timeout);
                working.settle(rt, account);
            }
            Next::Idle => working.round(rt),
            Next::Closed => return,
        }
    }
}

/// A worker at work.
#[derive(Drop)]
struct Working<'r, H, L, M, W> {
    parts: Parts<H, L, Metered<'r>, M>,
    attendance: Attendance<'r, W>,
    report: WorkerReport,
    /// The probes that were added to the account.
    probes: u64,
}

impl<'r, H: Health, L: Links, M: Clock, W: Clock> Working<'r, H, L, M, W> {
    /// Serves the client at this address, which may complete no request for `limit` milliseconds.
    /// How its session ended is counted, and the worker goes on.
    fn serve<R: IoRuntime, I: Inlet + Drop, O: Outlet + Drop>(
        &mut self,
        rt: &R,
        alloc: Global,
        reader: I,
        writer: O,
        address: Option<SocketAddr>,
        limit: u32,
    )
        requires reach { Reaches H.servers L.servers self.old.parts }
        ensures reach { Reaches H.servers L.servers self.new.parts }
        ensures session { (ended : Result Report SessionFault)
            × IsSession (worker_ghosts (attended {M = W} I.Inlet) O.Outlet
            (backend_ghosts H.Health L.Links M.Clock)) (at_work self.old) ended (at_work self.new) }
    {
        self.parts.trails.meet(address);
        self.serve_met(rt, alloc, reader, writer, limit);
    }

    /// The same, once the observer knows where the client is.
    fn serve_met<R: IoRuntime, I: Inlet + Drop, O: Outlet + Drop>(
        &mut self,
        rt: &R,
        alloc: Global,
        reader: I,
        mut writer: O,
        limit: u32,
    )
        requires reach { Reaches H.servers L.servers self.old.parts }
        ensures reach { Reaches H.servers L.servers self.new.parts }
        ensures session { (ended : Result Report SessionFault)
            × IsSession (worker_ghosts (attended {M = W} I.Inlet) O.Outlet
            (backend_ghosts H.Health L.Links M.Clock)) (at_work self.old) ended (at_work self.new) }
    {
        self.attendance.begin(rt, limit);
        let mut reader = Attended::new(reader, &mut self.attendance);
        let served = serve(rt, alloc, &mut reader, &mut writer, &mut self.parts);
        let is_binary = reader.is_binary();
        self.report.count(&served);
        tell_end(rt, &self.parts.trails, ending_of(&served), is_binary);
    }

    /// One round of the probers.
    fn round<R: IoRuntime>(&mut self, rt: &R)
        requires reach { Reaches H.servers L.servers self.old.parts }
        ensures reach { Reaches H.servers L.servers self.new.parts }
        ensures round { (short : Bool) × IsRoundRun (backend_ghosts H.Health L.Links M.Clock)
            (at_work self.old) short (at_work self.new) }
    {
        let rounded = round(rt, &mut self.parts);
        self.report.note_round(rounded.is_err());
        self.attendance.end_round(rt);
    }

    /// Adds what was counted since the last time to the account.
    fn settle<R: Wait>(&mut self, rt: &R, account: &mut Account<'_>)
        requires reach { Reaches H.servers L.servers self.old.parts }
        ensures reach { Reaches H.servers L.servers self.new.parts }
        ensures settled { (full : Bool) × HasSettled (backend_ghosts H.Health L.Links M.Clock)
            (with_share (at_work self.old) account.old.share.now) full
            (with_share (at_work self.new) account.new.share.now) }
    {
        let counts = self.take_counts();
        let full = account.add(rt, &counts);
        self.report.ledger_full |= full;
    }

    /// What the account lacks, which it is given now.
    fn take_counts(&mut self) -> Counts
        requires reach { Reaches H.servers L.servers self.old.parts }
        ensures counts { result ≡ unsettled (backend_ghosts H.Health L.Links M.Clock)
            (at_work self.old) }
        ensures settled { IsWorkSettled (backend_ghosts H.Health L.Links M.Clock)
            (at_work self.old) false (at_work self.new) }
    {
        let servers = self.parts.config.addresses().len();
        let probes = probes_of(&self.parts.backend.links, servers);
        let more = probes.saturating_sub(self.probes);
        self.probes = probes;
        self.parts.trails.take().saturating_add(Kind::Probe, more)
    }
}

/// Tells how a client's session ended, and whether the client spoke the binary protocol.
fn tell_end<R: IoRuntime>(rt: &R, observer: &Metered<'_>, ending: Ending, is_binary: bool) {
    observer.end_session(ending);
    if is_binary {
        observer.refuse_binary(rt, None);
    }
}

/// How a session ended.
fn ending_of(served: &Result<Report, SessionFault>) -> Ending
    ensures { result ≡ ending_of served.now }
{
    match served {
        Ok(_) => Ending::Done,
        Err(SessionFault::Read) => Ending::Read,
        Err(SessionFault::Write(_)) => Ending::Write,
        Err(SessionFault::LineTooLong) => Ending::LineTooLong,
        Err(SessionFault::Memory) => Ending::Memory,
    }
}

/// How many probes these links sent to the first `servers` servers; it stays at 2^64 - 1.
fn probes_of<L: Links>(links: &L, servers: usize) -> u64
    requires { servers ≤ L.servers links.now }
    ensures { result ≡ capped (probes_below (L.probed links.now) servers) }
{
    let mut probes = 0u64;
    for server in 0..servers {
        probes = probes.saturating_add(links.probes(server));
    }
    probes
}
