//! Where the moments of rounds and probes come from.
ghost use Rattle.std.specs.Prelude.{◌≡◌};
ghost use Rattle.tko_io.specs.Clocks.{IsFrozen, IsListed};

use crate::IoRuntime;
use std::marker::Model;
use std::time::Instant;

/// Moments in milliseconds. Each call is one item of a record that contracts see.
pub trait Clock {
    ghost use Rattle.std.specs.Prelude.{ℕ};

    /// Between the two it gave this moment.
    ghost reads: { Self → ℕ → Self → Type 0 };

    fn next<R: IoRuntime>(&mut self, rt: &R) -> u64
        ensures { reads self.old result self.new };

    /// The instant of the last moment, if there is one: finer than milliseconds, for what is timed.
    /// No contract speaks of it.
    fn instant(&self) -> Option<Instant> {
        None
    }
}

/// A clock that stands still at moment 0.
#[derive(Clone, Copy, Debug)]
pub struct FrozenClock;

impl Clock for FrozenClock {
    ghost reads = { λ old moment new. IsFrozen old moment new };

    fn next<R: IoRuntime>(&mut self, _rt: &R) -> u64
        ensures { IsFrozen self.old result self.new }
    {
        0
    }
}

/// Moments from a list, and then the last of them again; an empty list gives 0. Contracts see what
/// is left of the list, and the last moment.
#[derive(Drop)]
pub struct ListedClock {
    moments: Vec<u64>,
    next: usize,
    last: u64,
}

impl Model for ListedClock {
    ghost use Rattle.std.specs.Prelude.{◌≤◌, drop, vec_len};
    ghost use Rattle.tko_io.specs.Clocks.{MomentList};

    ghost Value = { MomentList };

    ghost view = { λ l. record { left = drop l.next l.moments.items; last = l.last } };

    ghost invariant = { λ l. l.next ≤ vec_len l.moments };
}

impl ListedClock {
    pub fn new(moments: Vec<u64>) -> ListedClock
        ensures { result ≡ record { left = moments.items; last = 0 } }
    {
        ListedClock {
            moments,
            next: 0,
            last: 0,
        }
    }
}

impl Clock for ListedClock {
    ghost reads = { λ old moment new. IsListed old moment new };

    fn next<R: IoRuntime>(&mut self, _rt: &R) -> u64
        ensures { IsListed self.old result self.new }
    {
        if let Some(moment) = self.moments.get(self.next) {
            self.last = *moment;
            self.next += 1;
        }
        self.last
    }
}
