//! The clock of a running server.
ghost use Rattle.std.specs.Prelude.{◌≡◌};
ghost use Rattle.std.specs.Option.{option_map};
ghost use Rattle.std.specs.Time.{instant_nanos};
ghost use Rattle.tko_io.specs.Clocks.{IsElapsed, elapsed_to, millis_between};

use crate::{Clock, IoRuntime};
use std::marker::Model;
use std::time;
use std::time::Instant;

/// Milliseconds since it was made, or since the clock could first be read. It never goes back, and
/// where the clock cannot be read it gives its last moment again, 0 before the first. Contracts see
/// the start, in nanoseconds of the clock, and the last moment.
#[derive(Drop)]
pub struct MonotonicClock {
    start: Option<Instant>,
    last: u64,
    /// When it was read last.
    read: Option<Instant>,
}

impl Model for MonotonicClock {
    ghost use Rattle.std.specs.Option.{option_map};
    ghost use Rattle.std.specs.Time.{instant_nanos};
    ghost use Rattle.tko_io.specs.Clocks.{ElapsedTime};

    ghost Value = { ElapsedTime };

    ghost view = { λ e. record { start = option_map instant_nanos e.start; last = e.last } };
}

impl MonotonicClock {
    pub fn new(clock: &impl time::Clock) -> MonotonicClock
        ensures { result.last ≡ 0 }
    {
        MonotonicClock {
            start: Instant::now(clock).ok(),
            last: 0,
            read: None,
        }
    }

    /// The moment that this clock gives.
    pub(crate) fn read(&mut self, clock: &impl time::Clock) -> u64
        ensures { IsElapsed self.old result self.new }
    {
        self.move_to(Instant::now(clock).ok())
    }

    /// The moment at this instant, or the last one again where there is none.
    fn move_to(&mut self, now: Option<Instant>) -> u64
        ensures moment { result ≡ self.new.last }
        ensures clock { self.new ≡ elapsed_to self.old (option_map instant_nanos now) }
    {
        if let Some(now) = now {
            let start = self.start.unwrap_or(now);
            self.start = Some(start);
            self.read = Some(now);
            self.last = self.last.max(millis_between(start, now));
        }
        self.last
    }
}

/// Milliseconds from one instant to a later one; the greatest number means that many or more.
fn millis_between(start: Instant, now: Instant) -> u64
    ensures { result ≡ millis_between (instant_nanos start) (instant_nanos now) }
{
    let millis = now.duration_since(start).as_millis();
    if millis < u128::from(u64::MAX) {
        millis as u64
    } else {
        u64::MAX
    }
}

impl Clock for MonotonicClock {
    ghost reads = { λ old moment new. IsElapsed old moment new };

    fn next<R: IoRuntime>(&mut self, rt: &R) -> u64
        ensures { IsElapsed self.old result self.new }
    {
        self.read(rt)
    }

    fn instant(&self) -> Option<Instant> {
        self.read
    }
}
