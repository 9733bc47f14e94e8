//! A worker's observer: what it counts, meters and logs.
ghost use Rattle.std.specs.Prelude.{◌≡◌};
ghost use Rattle.tko_model.specs.Numbers.{no_counts};
ghost use Rattle.tko_threads.specs.Sums.{sum_of_counts};

use crate::request_times::RequestTimes;
use crate::tallied::{counted_command, end_of, refusal_of};
use std::marker::Model;
use std::net::SocketAddr;
use std::sync::Wait;
use std::sync::atomic::{AtomicU64, Ordering};
use std::time::{Clock, Instant};
use tko_bytes::NoMemory;
use tko_events::{Log, WorkerLog};
use tko_io::IoRuntime;
use tko_links::{ExchangeNoMemory, Outcome};
use tko_metrics::{Ending, Increase, Refusal, ServerLoad, WorkerLoad};
use tko_model::{Counts, Kind, Reply};
use tko_prober::ProbeEnd;
use tko_reply::Trails;
use tko_route::{Attempt, Trail};
use tko_text::{Request, Response, TextFault};

/// What the meter gets of a request that has begun.
const ONE_REQUEST: Increase = Increase {
    requests: 1,
    attempts: 0,
    skips: 0,
    replies: 0,
    no_server: 0,
};

/// A worker's counts, with its end of the log and of the meter: what is recorded is counted there
/// too, and each attempt, probe and release is told as it ends. Contracts see the counts.
#[derive(Drop)]
pub struct Metered<'r> {
    counts: Counts,
    log: WorkerLog,
    /// How many requests its worker has begun to answer, in all.
    requests: &'r AtomicU64,
    /// The moment at which its worker looks, in microseconds of the worker's clock. A worker that
    /// tells none times nothing.
    moment: Option<u64>,
    /// The address of the client that its worker serves. A worker that serves many at once has
    /// none.
    client: Option<SocketAddr>,
    /// The times of a worker that waits for each response, where it is metered.
    times: Option<&'r RequestTimes>,
}

impl<'r> Model for Metered<'r> {
    ghost use Rattle.tko_model.specs.declared.counts.Counts.{Counts};

    ghost Value = { Counts };

    ghost view = { λ m. m.counts };
}

impl<'r> Metered<'r> {
    /// Nothing was counted yet.
    pub fn new(log: WorkerLog, requests: &'r AtomicU64) -> Metered<'r>
        ensures { result ≡ no_counts }
    {
        let counts = Counts::new();
        Metered {
            counts,
            log,
            requests,
            moment: None,
            client: None,
            times: None,
        }
    }

    /// The same for a worker that waits for each response, whose requests are timed so.
    pub(crate) fn timed(
        log: WorkerLog,
        requests: &'r AtomicU64,
        times: &'r RequestTimes,
    ) -> Metered<'r>
        ensures { result ≡ no_counts }
    {
        let mut metered = Metered::new(log, requests);
        if metered.is_metered() {
            metered.times = Some(times);
        }
        metered
    }

    /// What was counted since the last time.
    pub fn take(&mut self) -> Counts
        ensures taken { result ≡ self.old }
        ensures left { self.new ≡ no_counts }
    {
        let counts = self.counts;
        self.counts = Counts::new();
        counts
    }

    /// Its worker looks at this moment, in microseconds of a clock of its own.
    pub fn look_at(&mut self, moment: u64)
        ensures { self.new ≡ self.old }
    {
        self.moment = Some(moment);
    }

    /// Its worker serves the client at this address, and no other.
    pub fn meet(&mut self, client: Option<SocketAddr>)
        ensures { self.new ≡ self.old }
    {
        self.client = client;
    }

    /// Whether what it records is metered.
    pub fn is_metered(&self) -> bool {
        self.log.meter().is_on()
    }

    /// Meters what came of an attempt, if it was sent.
    fn meter_end(&self, attempt: &Attempt) {
        if let Some((server, end)) = end_of(attempt) {
            self.log.meter().count_end(server, end);
        }
    }

    /// A session of its worker ended so.
    pub fn end_session(&self, ending: Ending) {
        self.log.meter().end_session(ending);
        self.log.log().count_session(ending != Ending::Done);
    }

    /// A client that came to its worker could not be taken in, and was closed: a session that ended
    /// by a fault.
    pub fn refuse_client(&self) {
        self.log.log().count_session(true);
        self.log.log().meter().drop_client();
    }

    /// The client at this address, or else the one that its worker serves, spoke the binary
    /// protocol, and was closed.
    pub fn refuse_binary<R: Wait + Clock>(&self, rt: &R, client: Option<SocketAddr>) {
        self.refuse(rt, Refusal::Binary, client);
    }

    fn refuse<R: Wait + Clock>(&self, rt: &R, why: Refusal, client: Option<SocketAddr>) {
        self.log.meter().refuse(why);
        self.log.log().tell_refused(rt, why, client.or(self.client));
    }

    /// The log that has the sum of the sessions of all workers.
    pub fn log(&self) -> &Log {
        self.log.log()
    }

    /// Its worker is event-driven, and this is its load now.
    pub fn set_load(&self, load: WorkerLoad) {
        self.log.meter().set_load(load);
    }

    /// Its worker is event-driven, and this is what it has to do with this server now.
    pub fn set_server_load(&self, server: usize, load: ServerLoad) {
        self.log.meter().set_server_load(server, load);
    }

    /// Its worker released a server as it ended, and the health replied so.
    pub(crate) fn released<R: Wait>(&self, rt: &R, server: usize, reply: Reply) {
        self.log.tell_release(rt, server, reply);
    }
}

impl<'r> Trails for Metered<'r> {
    ghost use Rattle.tko_reply.specs.Counting.{counted};

    ghost records = { λ old event new. new ≡ counted old event };

    fn request<R: IoRuntime>(&mut self, rt: &R, request: &Request) -> Result<(), NoMemory> {
        self.counts.request(rt, request)?;
        self.requests.fetch_add(1, Ordering::SeqCst);
        if self.is_metered() {
            self.log.meter().count(ONE_REQUEST);
            self.log.meter().count_command(counted_command(request));
        }
        if let Some(times) = self.times {
            times.read();
        }
        Ok(())
    }

    fn trail<R: IoRuntime>(&mut self, rt: &R, trail: Trail) -> Result<(), NoMemory> {
        if !self.is_metered() {
            return self.counts.trail(rt, trail);
        }
        if let Some(Response::Values(value)) = trail.response() {
            self.log.meter().count_key(value.is_some());
        }
        let mut more = Counts::new();
        more.trail(rt, trail)?;
        self.counts = sum_of(self.counts, &more);
        self.log.meter().count(increase_of(&more));
        Ok(())
    }

    fn attempt<R: IoRuntime>(&mut self, rt: &R, attempt: &Attempt) {
        if self.is_metered() {
            self.meter_end(attempt);
        }
        if let Attempt::Sent(server, outcome, reply) = attempt {
            self.log.tell_attempt(rt, *server, outcome, *reply);
        }
    }

    fn sent(&mut self, server: usize, sends: u64) {
        self.log.meter().set_sends(server, sends);
    }

    fn probed<R: IoRuntime>(&mut self, rt: &R, probe: &ProbeEnd) {
        self.log.meter().set_probes(probe.server, probe.probes);
        self.log
            .tell_probe(rt, probe.server, &probe.came, probe.reply);
    }

    fn refused<R: IoRuntime>(&mut self, rt: &R, fault: TextFault, client: Option<SocketAddr>) {
        self.refuse(rt, refusal_of(fault), client);
    }

    fn now(&self) -> Option<u64> {
        self.moment
    }

    fn responded(&mut self, server: usize, sent: u64) {
        if let Some(moment) = self.moment {
            self.log
                .meter()
                .time_response(server, moment.saturating_sub(sent));
        }
    }

    fn exchanged(
        &mut self,
        server: usize,
        begun: Option<Instant>,
        came: &Result<Outcome, ExchangeNoMemory>,
    ) {
        let (Some(times), Some(begun)) = (self.times, begun) else {
            return;
        };
        match came {
            Ok(Outcome::Reply(_)) => times.responded(server, begun),
            Ok(_) | Err(_) => times.exchanged(begun),
        }
    }

    fn replied(&mut self, read: u64) {
        if let Some(moment) = self.moment {
            self.log.meter().time_request(moment.saturating_sub(read));
        }
        if let Some(times) = self.times {
            times.replied();
        }
    }
}

/// These counts with what became of more requests; each number stays at 2^64 - 1.
fn sum_of(counts: Counts, more: &Counts) -> Counts
    ensures { result ≡ sum_of_counts counts more.now }
{
    counts
        .saturating_add(Kind::Attempt, more.of(Kind::Attempt))
        .saturating_add(Kind::Skip, more.of(Kind::Skip))
        .saturating_add(Kind::Reply, more.of(Kind::Reply))
        .saturating_add(Kind::NoServer, more.of(Kind::NoServer))
}

/// What the meter gets of what became of more requests.
fn increase_of(more: &Counts) -> Increase
    ensures requests { result.requests ≡ 0 }
    ensures attempts { result.attempts ≡ more.now.attempt }
    ensures skips { result.skips ≡ more.now.skip }
    ensures replies { result.replies ≡ more.now.reply }
    ensures no_server { result.no_server ≡ more.now.no_server }
{
    Increase {
        requests: 0,
        attempts: more.of(Kind::Attempt),
        skips: more.of(Kind::Skip),
        replies: more.of(Kind::Reply),
        no_server: more.of(Kind::NoServer),
    }
}
