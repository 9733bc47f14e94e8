//! A worker's observer: what it counts, the account that gets that, and what it reports.
ghost use Rattle.std.specs.Prelude.{◌≡◌, ◌-◌, Bool};
ghost use Rattle.tko_model.specs.Numbers.{no_counts, saturated};
ghost use Rattle.tko_event_threads.specs.Accounting.{HasCounted, IsAccountSettled, fresh_account, with_ends, with_short};

use crate::ends::{report_of, tell_ends};
use crate::loads::{NO_SERVER_LOAD, worker_load};
use crate::origin::Opening;
use std::marker::{Model, PhantomData};
use std::net::SocketAddr;
use std::sync::Wait;
use std::time::Clock;
use tko_bytes::NoMemory;
use tko_io::IoRuntime;
use tko_loop::{Load, ServerLack, TurnClock};
use tko_metrics::ServerLoad;
use tko_model::{Counts, Kind};
use tko_prober::ProbeEnd;
use tko_reply::Trails;
use tko_route::{Attempt, Trail};
use tko_text::{Request, TextFault};
use tko_threads::{Account, Metered, WorkerReport};
use tko_worker::{BinaryClients, EndCounts};

/// What a worker counts, its account, and its report, which were reached from where the worker
/// began: what is recorded is counted, and the account is given what was counted since it was
/// settled.
#[derive(Drop)]
pub(crate) struct Accounted<'a, 'r, N: Opening> {
    metered: Metered<'r>,
    account: Account<'a>,
    report: WorkerReport,
    /// The probes that were added to the account.
    probes: u64,
    of: PhantomData<N>,
}

impl<'a, 'r, N: Opening> Model for Accounted<'a, 'r, N> {
    ghost use Rattle.tko_event_threads.specs.Accounting.{AccountState, HasCounted, account_state};

    ghost Value = { AccountState };

    ghost view = { λ it. account_state it.metered it.account.share.now it.probes it.report };

    ghost invariant = { λ it. HasCounted N.opened
        (account_state it.metered it.account.share.now it.probes it.report) };
}

impl<'a, 'r, N: Opening> Accounted<'a, 'r, N> {
    /// A worker begins.
    pub(crate) fn new(metered: Metered<'r>, account: Account<'a>) -> Accounted<'a, 'r, N>
        requires none { metered ≡ no_counts }
        requires opened { N.opened account.share.now }
        ensures { result ≡ fresh_account account.entry.share.now }
    {
        Accounted {
            metered,
            account,
            report: WorkerReport::new(),
            probes: 0,
            of: PhantomData,
        }
    }

    /// Notes whether memory ran out in a round, or for the worker.
    pub(crate) fn note_short(&mut self, ran_out: bool)
        ensures { self.new ≡ with_short ran_out self.old }
    {
        self.report.memory |= ran_out;
    }

    /// Counts clients that ended, and tells it.
    pub(crate) fn count_ends(&mut self, ends: &EndCounts)
        ensures { self.new ≡ with_ends ends.now self.old }
    {
        tell_ends(&self.metered, ends);
        self.report.add(&report_of(ends));
    }

    /// Whether what happens is metered, and so timed.
    pub(crate) fn is_metered(&self) -> bool {
        self.metered.is_metered()
    }

    /// The worker looks at the moment that this clock shows.
    pub(crate) fn look_at(&mut self, clock: &TurnClock)
        ensures { self.new ≡ self.old }
    {
        self.metered.look_at(clock.micros());
    }

    /// Tells which of the clients that ended spoke the binary protocol.
    pub(crate) fn refuse_binary<R: Wait + Clock>(&self, rt: &R, clients: BinaryClients) {
        for _ in 0..clients.count {
            self.metered.refuse_binary(rt, clients.last);
        }
    }

    /// Tells that clients which came could not be taken in.
    pub(crate) fn refuse_clients(&self, count: u64) {
        for _ in 0..count {
            self.metered.refuse_client();
        }
    }

    /// Tells how much the worker serves.
    pub(crate) fn set_load(&self, load: &Load) {
        self.metered.set_load(worker_load(load));
    }

    /// Tells what the worker has to do with a server.
    pub(crate) fn set_server_load(&self, server: usize, load: ServerLoad) {
        self.metered.set_server_load(server, load);
    }

    /// Tells that the worker serves nobody, and has nothing to do with any of so many servers.
    pub(crate) fn set_no_load(&self, servers: usize) {
        self.set_load(&Load::none());
        for server in 0..servers {
            self.set_server_load(server, NO_SERVER_LOAD);
        }
    }

    /// Tells what the proxy itself lacked for a connection.
    pub(crate) fn tell_lack<R: Wait + Clock>(&self, rt: &R, lacked: ServerLack) {
        let ServerLack { server, lack } = lacked;
        self.metered.log().tell_lack(rt, server, lack);
    }

    /// Adds what was counted since the last time to the account, where so many probes were sent in
    /// all.
    pub(crate) fn settle<R: Wait>(&mut self, rt: &R, sent: u64)
        ensures counted { HasCounted N.opened self.old }
        ensures settled { (full : Bool) × IsAccountSettled sent self.old full self.new }
    {
        let counts = take_lacking(&mut self.metered, &mut self.probes, sent);
        let full = self.account.add(rt, &counts);
        self.report.ledger_full |= full;
    }

    /// The worker ends.
    pub(crate) fn into_end(self) -> (Metered<'r>, WorkerReport)
        ensures { result.1 ≡ self.entry.report }
    {
        let Accounted {
            metered,
            report,
            ..
        } = self;
        (metered, report)
    }
}

/// What an account lacks that has these probes, where so many were sent in all. It is given that
/// now.
fn take_lacking(metered: &mut Metered<'_>, probes: &mut u64, sent: u64) -> Counts
    ensures counts { result ≡ saturated Kind.Probe (sent - probes.old) metered.old }
    ensures none { metered.new ≡ no_counts }
    ensures probes { probes.new ≡ sent }
{
    let more = sent.saturating_sub(*probes);
    *probes = sent;
    metered.take().saturating_add(Kind::Probe, more)
}

impl<'a, 'r, N: Opening> Trails for Accounted<'a, 'r, N> {
    ghost use Rattle.std.specs.Prelude.{◌≡◌};
    ghost use Rattle.tko_event_threads.specs.Accounting.{with_trail_event};

    ghost records = { λ old event new. new ≡ with_trail_event event old };

    fn request<R: IoRuntime>(&mut self, rt: &R, request: &Request) -> Result<(), NoMemory> {
        self.metered.request(rt, request)
    }

    fn trail<R: IoRuntime>(&mut self, rt: &R, trail: Trail) -> Result<(), NoMemory> {
        self.metered.trail(rt, trail)
    }

    fn attempt<R: IoRuntime>(&mut self, rt: &R, attempt: &Attempt) {
        self.metered.attempt(rt, attempt);
    }

    fn sent(&mut self, server: usize, sends: u64) {
        self.metered.sent(server, sends);
    }

    fn probed<R: IoRuntime>(&mut self, rt: &R, probe: &ProbeEnd) {
        self.metered.probed(rt, probe);
    }

    fn refused<R: IoRuntime>(&mut self, rt: &R, fault: TextFault, client: Option<SocketAddr>) {
        self.metered.refused(rt, fault, client);
    }

    fn now(&self) -> Option<u64> {
        self.metered.now()
    }

    fn responded(&mut self, server: usize, sent: u64) {
        self.metered.responded(server, sent);
    }

    fn replied(&mut self, read: u64) {
        self.metered.replied(read);
    }
}
