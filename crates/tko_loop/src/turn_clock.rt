//! The clock of a loop's turns.
ghost use Rattle.std.specs.Prelude.{◌≡◌, ◌/◌};
ghost use Rattle.std.specs.Option.{option_map};
ghost use Rattle.std.specs.Time.{instant_nanos};
ghost use Rattle.tko_bytes.specs.Numbers.{capped};
ghost use Rattle.tko_io.specs.Clocks.{nanos_of_milli};
ghost use Rattle.tko_loop.specs.TurnClocks.{IsClockRead, nanos_between, nanos_of_micro, shown_by};

use std::marker::Model;
use std::time::{Clock, Instant};

const NANOS_OF_MICRO: u64 = 1_000;

const NANOS_OF_MILLI: u64 = 1_000_000;

/// The time since the loop began, or since the clock could first be read. It never falls, and where
/// the clock cannot be read it stays. One reading gives it in milliseconds, and in microseconds to
/// those that ask.
#[derive(Drop)]
pub struct TurnClock {
    start: Option<Instant>,
    nanos: u64,
}

impl Model for TurnClock {
    ghost use Rattle.std.specs.Option.{option_map};
    ghost use Rattle.std.specs.Time.{instant_nanos};
    ghost use Rattle.tko_loop.specs.TurnClocks.{ShownTime};

    ghost Value = { ShownTime };

    ghost view = { λ c. record { start = option_map instant_nanos c.start; nanos = c.nanos } };
}

impl TurnClock {
    /// The loop begins.
    pub(crate) fn new(clock: &impl Clock) -> TurnClock
        ensures { result.nanos ≡ 0 }
    {
        TurnClock {
            start: Instant::now(clock).ok(),
            nanos: 0,
        }
    }

    /// Reads the clock, and returns the milliseconds.
    pub(crate) fn read(&mut self, clock: &impl Clock) -> u64
        ensures read { IsClockRead self.old self.new }
        ensures millis { result ≡ self.new.nanos / nanos_of_milli }
    {
        self.show(Instant::now(clock).ok());
        self.nanos / NANOS_OF_MILLI
    }

    /// The microseconds, as the clock was read last.
    pub fn micros(&self) -> u64
        ensures { result ≡ self.now.nanos / nanos_of_micro }
    {
        self.nanos / NANOS_OF_MICRO
    }

    /// Shows the time of this instant, or the last one again where there is none.
    fn show(&mut self, now: Option<Instant>)
        ensures { self.new ≡ shown_by self.old (option_map instant_nanos now) }
    {
        if let Some(now) = now {
            let start = self.start.unwrap_or(now);
            self.start = Some(start);
            self.nanos = self.nanos.max(nanos_between(start, now));
        }
    }
}

/// Nanoseconds from one instant to a later one; the greatest number means that many or more.
fn nanos_between(start: Instant, now: Instant) -> u64
    ensures { result ≡ nanos_between (instant_nanos start) (instant_nanos now) }
{
    capped(now.duration_since(start).as_nanos())
}

fn capped(count: u128) -> u64
    ensures { result ≡ capped count }
{
    if count < u128::from(u64::MAX) {
        count as u64
    } else {
        u64::MAX
    }
}
