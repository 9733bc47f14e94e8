//! How long something took, counted by bounds.
ghost use Rattle.std.specs.Prelude.{◌≡◌, slice_get};
ghost use Rattle.tko_metrics.specs.Times.{bounds, bucket_of};

use crate::counter::Counter;
use crate::tallies::Tallies;
use std::alloc::{AllocError, Global};

/// The bounds of the buckets, in microseconds. What took longer than the last one is in a bucket of
/// its own.
const BOUNDS: [u64; 15] = [
    250, 500, 1_000, 2_500, 5_000, 10_000, 25_000, 50_000, 100_000, 250_000, 500_000, 1_000_000,
    2_500_000, 5_000_000, 10_000_000,
];

/// How many buckets there are.
pub(crate) const BUCKETS: usize = 16;

/// How often something took how long. One thread alone writes here.
#[derive(Drop)]
pub(crate) struct Times {
    buckets: Tallies,
    /// All of it together, in microseconds.
    sum: Counter,
}

impl Times {
    pub(crate) fn new(alloc: Global) -> Result<Times, AllocError> {
        Ok(Times {
            buckets: Tallies::new(alloc, BUCKETS)?,
            sum: Counter::new(),
        })
    }

    /// It took so many microseconds once.
    pub(crate) fn count(&self, micros: u64) {
        self.buckets.count(bucket_of(&BOUNDS, micros));
        self.sum.add(micros);
    }

    /// How often it took what the bucket at this place holds.
    pub(crate) fn bucket(&self, place: usize) -> u64 {
        self.buckets.get(place)
    }

    /// How many microseconds it took in all.
    pub(crate) fn sum(&self) -> u64 {
        self.sum.get()
    }
}

/// The bound of the bucket at this place, in microseconds; the last bucket has none.
pub fn bucket_bound(place: usize) -> Option<u64>
    ensures { result ≡ slice_get bounds place }
{
    BOUNDS.get(place).copied()
}

/// The bucket of what took so long: the first whose bound it does not exceed.
fn bucket_of(bounds: &[u64], micros: u64) -> usize
    ensures { result ≡ bucket_of bounds.now micros }
{
    bounds.iter().filter(|bound| **bound < micros).count()
}
