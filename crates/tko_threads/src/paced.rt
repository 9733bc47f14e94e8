//! Replies that are written at the pace at which a client must take them.

use crate::client_clock::ClientClock;
use crate::request_times::RequestTimes;
use tko_io::{Clock, IoRuntime, Outlet, Stop, raise};
use tko_pace::Pace;

/// A client's outlet, which fails where the client takes its replies too slowly.
#[derive(Drop)]
pub(crate) struct Paced<'r, O, M> {
    inner: O,
    pace: Pace,
    clock: ClientClock<'r, M>,
    /// How often the client was too slow.
    failures: u64,
}

impl<'r, O, M: Clock> Paced<'r, O, M> {
    /// The client must take 64 KiB of what waits, or all of it, in each `limit` milliseconds.
    pub(crate) fn new(inner: O, clock: M, times: &'r RequestTimes, limit: u32) -> Paced<'r, O, M> {
        Paced {
            inner,
            pace: Pace::new(limit),
            clock: ClientClock::new(clock, times),
            failures: 0,
        }
    }
}

impl<'r, O: Outlet, M: Clock> Outlet for Paced<'r, O, M> {
    ghost use Rattle.std.specs.Prelude.{◌+◌};

    ghost takes = { λ a bytes b. O.takes a.inner bytes b.inner };

    ghost failures = { λ a. O.failures a.inner + a.failures };

    ghost nothing = { λ x. O.nothing x.inner };

    ghost goes_on = { λ x y z bytes more first second.
        O.goes_on x.inner y.inner z.inner bytes more first second };

    fn write<R: IoRuntime>(&mut self, rt: &R, piece: &[u8]) -> Result<usize, Stop> {
        let now = self.clock.moment(rt);
        if !self.pace.begin(now) {
            raise(rt, &mut self.failures);
            return Err(Stop::Fault);
        }
        let written = self.inner.write(rt, piece);
        if let Ok(count) = written {
            self.pace.take(count, piece.len());
        }
        written
    }
}
