//! How long requests and responses take, of a worker that waits for each response.

use std::cell::Cell;
use std::time::Instant;
use tko_events::WorkerLog;
use tko_metrics::WorkerMeter;

/// An exchange with a server that gave a response.
#[derive(Clone, Copy)]
struct Responded {
    server: usize,
    begun: Instant,
}

/// Times requests and responses by the readings of the clock that a worker makes anyway: one begins
/// each exchange, and the next one ends what was answered since. That is the one of the next
/// exchange, or the one before replies are written or more is read. The worker's observer tells what
/// happens, and the two ends of the client's connection what the clock shows.
#[derive(Drop)]
pub(crate) struct RequestTimes {
    meter: WorkerMeter,
    /// When the first exchange for the request began that is being answered, if there was one.
    begun: Cell<Option<Instant>>,
    /// The same of a request that was answered and is not timed yet.
    replied: Cell<Option<Instant>>,
    /// A response that is not timed yet.
    responded: Cell<Option<Responded>>,
}

impl RequestTimes {
    /// Nothing was timed yet. Where no other end of the meter can be had, nothing will be.
    pub(crate) fn new(log: &WorkerLog) -> RequestTimes {
        RequestTimes {
            meter: log.meter().another().unwrap_or(WorkerMeter::off()),
            begun: Cell::new(None),
            replied: Cell::new(None),
            responded: Cell::new(None),
        }
    }

    /// A request was read.
    pub(crate) fn read(&self) {
        self.begun.set(None);
    }

    /// An exchange that began at this instant gave no response.
    pub(crate) fn exchanged(&self, begun: Instant) {
        self.look(begun);
        if self.begun.get().is_none() {
            self.begun.set(Some(begun));
        }
    }

    /// An exchange with this server, which began at this instant, gave a response.
    pub(crate) fn responded(&self, server: usize, begun: Instant) {
        self.exchanged(begun);
        self.responded.set(Some(Responded { server, begun }));
    }

    /// The request was answered wholly. One for which nothing was sent took no time.
    pub(crate) fn replied(&self) {
        match self.begun.take() {
            Some(begun) => self.replied.set(Some(begun)),
            None => self.meter.time_request(0),
        }
    }

    /// The clock shows this instant.
    pub(crate) fn look(&self, now: Instant) {
        if let Some(Responded { server, begun }) = self.responded.take() {
            self.meter.time_response(server, micros_between(begun, now));
        }
        if let Some(begun) = self.replied.take() {
            self.meter.time_request(micros_between(begun, now));
        }
    }
}

/// Microseconds from one instant to a later one; the greatest number means that many or more.
fn micros_between(from: Instant, to: Instant) -> u64 {
    u64::try_from(to.duration_since(from).as_micros()).unwrap_or(u64::MAX)
}
