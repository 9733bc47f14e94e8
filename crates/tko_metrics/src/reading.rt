//! What a meter says at a moment.
ghost use Rattle.std.specs.Prelude.{◌≡◌, All, IfOk, find, length, map, string_bytes};
ghost use Rattle.tko_metrics.specs.Readings.{AreOfWorkers, IsOfWorkers, is_marked_reading, server_number, together, total_of};

use crate::marking::Marking;
use crate::meter::SharedMeter;
use crate::numbers::Numbers;
use crate::sent_end::SentEnd;
use std::alloc::{AllocError, Global};

/// What all workers counted.
#[derive(Clone, Copy, Debug, PartialEq, Eq)]
pub struct Sums {
    pub requests: u64,
    pub attempts: u64,
    pub skips: u64,
    pub replies: u64,
    pub no_server: u64,
    pub hits: u64,
    pub misses: u64,
    pub sessions: u64,
    pub read_faults: u64,
    pub write_faults: u64,
    pub line_faults: u64,
    pub memory_faults: u64,
}

/// What one worker counted of a server, and the mark that it has on it; or what all counted, and
/// the server's mark.
#[derive(Clone, Copy, Debug, PartialEq, Eq)]
pub struct ServerReading {
    pub sends: u64,
    pub probes: u64,
    pub replies: u64,
    pub timeouts: u64,
    pub refused: u64,
    pub broken: u64,
    pub aborted: u64,
    /// The requests that wait for a response of the server, or to be sent to it.
    pub in_flight: u64,
    pub mark: Marking,
    /// When the mark was set, in milliseconds since 1970.
    pub since: u64,
    /// In how many milliseconds the next probe is due, if one is.
    pub next_probe: Option<u64>,
    /// The worker that counted it; or the one that has the mark, and so probes the server.
    pub worker: u64,
}

/// A number that is counted of a server.
#[derive(Clone, Copy, Debug, PartialEq, Eq)]
pub(crate) enum ServerNumber {
    Sends,
    Probes,
    /// How often what was sent came to this.
    Ended(SentEnd),
    InFlight,
}

impl ServerNumber {
    pub(crate) fn of(self, reading: ServerReading) -> u64
        ensures { result ≡ server_number self reading }
    {
        match self {
            ServerNumber::Sends => reading.sends,
            ServerNumber::Probes => reading.probes,
            ServerNumber::Ended(SentEnd::Reply) => reading.replies,
            ServerNumber::Ended(SentEnd::Timeout) => reading.timeouts,
            ServerNumber::Ended(SentEnd::Refused) => reading.refused,
            ServerNumber::Ended(SentEnd::Broken) => reading.broken,
            ServerNumber::Ended(SentEnd::Aborted) => reading.aborted,
            ServerNumber::InFlight => reading.in_flight,
        }
    }
}

/// A server of a page: its address, and what the workers counted of it.
#[derive(Clone, Copy, Debug)]
pub struct Shown<'a> {
    pub address: &'a str,
    pub reading: ServerReading,
}

impl Shown<'_> {
    /// What the workers counted of the servers of these addresses.
    pub(crate) fn all<'a>(
        alloc: Global,
        shared: &SharedMeter,
        addresses: &'a [String],
    ) -> Result<Vec<Shown<'a>>, AllocError>
        ensures addresses { IfOk result (λ servers.
            map (λ server. server.address.now) servers.items ≡ map string_bytes addresses.now) }
        ensures readings { IfOk result (λ servers.
            All (λ server. IsOfWorkers (length shared.now.workers.items) server.reading)
            servers.items) }
    {
        let mut servers = Vec::new(alloc);
        for (place, address) in addresses.iter().enumerate() {
            let reading = ServerReading::of(alloc, shared, place)?;
            let address = address.as_str();
            servers.push(Shown { address, reading })?;
        }
        Ok(servers)
    }
}

impl Sums {
    /// What the workers of a server counted until now.
    pub(crate) fn of(shared: &SharedMeter) -> Sums {
        let mut sums = Sums {
            requests: 0,
            attempts: 0,
            skips: 0,
            replies: 0,
            no_server: 0,
            hits: 0,
            misses: 0,
            sessions: 0,
            read_faults: 0,
            write_faults: 0,
            line_faults: 0,
            memory_faults: 0,
        };
        for worker in shared.workers.iter() {
            sums.add_counts(worker);
            sums.add_sessions(worker);
        }
        sums
    }

    fn add_counts(&mut self, worker: &Numbers) {
        self.requests = self.requests.saturating_add(worker.requests.get());
        self.attempts = self.attempts.saturating_add(worker.attempts.get());
        self.skips = self.skips.saturating_add(worker.skips.get());
        self.replies = self.replies.saturating_add(worker.replies.get());
        self.no_server = self.no_server.saturating_add(worker.no_server.get());
        self.hits = self.hits.saturating_add(worker.hits.get());
        self.misses = self.misses.saturating_add(worker.misses.get());
    }

    fn add_sessions(&mut self, worker: &Numbers) {
        self.sessions = self.sessions.saturating_add(worker.sessions.get());
        self.read_faults = self.read_faults.saturating_add(worker.read_faults.get());
        self.write_faults = self.write_faults.saturating_add(worker.write_faults.get());
        self.line_faults = self.line_faults.saturating_add(worker.line_faults.get());
        self.memory_faults = self
            .memory_faults
            .saturating_add(worker.memory_faults.get());
    }
}

impl ServerReading {
    /// What the workers counted together of a server.
    fn of(alloc: Global, shared: &SharedMeter, server: usize) -> Result<ServerReading, AllocError>
        ensures { IfOk result (IsOfWorkers (length shared.now.workers.items)) }
    {
        let parts = ServerReading::of_workers(alloc, shared, server)?;
        Ok(ServerReading::together(&parts))
    }

    /// What each worker counted of a server.
    fn of_workers(
        alloc: Global,
        shared: &SharedMeter,
        server: usize,
    ) -> Result<Vec<ServerReading>, AllocError>
        ensures { IfOk result (λ parts.
            AreOfWorkers (length shared.now.workers.items) parts.items) }
    {
        let mut parts = Vec::new(alloc);
        for (worker, numbers) in shared.workers.iter().enumerate() {
            parts.push(ServerReading::of_worker(numbers, worker as u64, server))?;
        }
        Ok(parts)
    }

    /// What the worker of this number counted of a server.
    fn of_worker(numbers: &Numbers, worker: u64, server: usize) -> ServerReading
        ensures { result.worker ≡ worker }
    {
        match numbers.servers.get(server) {
            Some(numbers) => numbers.reading(worker),
            None => ServerReading::nothing(worker),
        }
    }

    /// What a worker counted of a server that it does not have.
    fn nothing(worker: u64) -> ServerReading
        ensures { result.worker ≡ worker }
    {
        ServerReading {
            sends: 0,
            probes: 0,
            replies: 0,
            timeouts: 0,
            refused: 0,
            broken: 0,
            aborted: 0,
            in_flight: 0,
            mark: Marking::Up,
            since: 0,
            next_probe: None,
            worker,
        }
    }

    /// What the workers counted together of a server. Its mark is that of the worker that has one:
    /// at most one has, but the workers are not read at one moment, and then the first one counts.
    fn together(parts: &[ServerReading]) -> ServerReading
        ensures { result ≡ together parts.now }
    {
        let (mark, since, next_probe, worker) = match first_marked(parts) {
            Some(part) => (part.mark, part.since, part.next_probe, part.worker),
            None => (Marking::Up, 0, None, 0),
        };
        ServerReading {
            sends: total(parts, ServerNumber::Sends),
            probes: total(parts, ServerNumber::Probes),
            replies: total(parts, ServerNumber::Ended(SentEnd::Reply)),
            timeouts: total(parts, ServerNumber::Ended(SentEnd::Timeout)),
            refused: total(parts, ServerNumber::Ended(SentEnd::Refused)),
            broken: total(parts, ServerNumber::Ended(SentEnd::Broken)),
            aborted: total(parts, ServerNumber::Ended(SentEnd::Aborted)),
            in_flight: total(parts, ServerNumber::InFlight),
            mark,
            since,
            next_probe,
            worker,
        }
    }
}

/// The first of the workers that have a mark.
fn first_marked(parts: &[ServerReading]) -> Option<ServerReading>
    ensures { result ≡ find is_marked_reading parts.now }
{
    for part in parts {
        if part.mark.is_set() {
            return Some(*part);
        }
    }
    None
}

/// This number of all.
fn total(parts: &[ServerReading], which: ServerNumber) -> u64
    ensures { result ≡ total_of which parts.now }
{
    let mut sum = 0u64;
    for part in parts {
        sum = sum.saturating_add(which.of(*part));
    }
    sum
}
