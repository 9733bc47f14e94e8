//! How long something took, as a page shows it.
ghost use Rattle.std.specs.Prelude.{◌≡◌, IfOk, length, map, sum_by};
ghost use Rattle.std.specs.List.{range_with_len};
ghost use Rattle.tko_bytes.specs.Numbers.{capped};
ghost use Rattle.tko_metrics.specs.Times.{AreBuckets, at_most, bound_words, bucket_count};

use crate::times::{BUCKETS, Times};
use std::alloc::{AllocError, Global};

/// The bounds of the buckets in seconds, as they are shown.
const BOUND_WORDS: [&str; 16] = [
    "0.00025", "0.0005", "0.001", "0.0025", "0.005", "0.01", "0.025", "0.05", "0.1", "0.25", "0.5",
    "1", "2.5", "5", "10", "+Inf",
];

/// A bucket of a page: its bound in seconds, and how often something took no longer.
#[derive(Clone, Copy, Debug)]
pub struct Bucket {
    pub bound: &'static str,
    pub count: u64,
}

/// How often something took how long.
#[derive(Drop)]
pub struct TimesReading {
    pub buckets: Vec<Bucket>,
    /// All of it together, in microseconds.
    pub sum: u64,
    /// How often it was.
    pub count: u64,
    ghost bounded: { map (λ bucket. bucket.bound.now) buckets.items ≡ bound_words },
}

/// How often something took how long, for several workers together: in each bucket alone.
#[derive(Drop)]
pub(crate) struct TimesSum {
    counts: Vec<u64>,
    sum: u64,
    ghost whole: { length counts.items ≡ bucket_count },
}

impl TimesSum {
    /// It never was.
    pub(crate) fn nothing(alloc: Global) -> Result<TimesSum, AllocError> {
        Ok(TimesSum {
            counts: vec![in alloc; 0; BUCKETS]?,
            sum: 0,
        })
    }

    /// With those of a worker.
    pub(crate) fn add(&mut self, times: &Times) {
        for place in 0..BUCKETS {
            self.counts[place] = self.counts[place].saturating_add(times.bucket(place));
        }
        self.sum = self.sum.saturating_add(times.sum());
    }

    /// As a page shows it.
    pub(crate) fn reading(&self, alloc: Global) -> Result<TimesReading, AllocError>
        ensures buckets { IfOk result (λ reading.
            AreBuckets self.now.counts.items reading.buckets.items) }
        ensures sum { IfOk result (λ reading. reading.sum ≡ self.now.sum) }
        ensures count { IfOk result (λ reading.
            reading.count ≡ capped (sum_by (λ number. number) self.now.counts.items)) }
    {
        Ok(TimesReading {
            buckets: buckets_of(alloc, &self.counts)?,
            sum: self.sum,
            count: total(&self.counts),
        })
    }
}

/// The buckets of a page, where each bucket alone has so many.
fn buckets_of(alloc: Global, counts: &[u64]) -> Result<Vec<Bucket>, AllocError>
    requires { length counts.now ≡ bucket_count }
    ensures { IfOk result (λ buckets. AreBuckets counts.now buckets.items) }
{
    let up_to = up_to_each(alloc, counts)?;
    bounded(alloc, &BOUND_WORDS, &up_to)
}

/// How many are in the buckets up to each of them.
fn up_to_each(alloc: Global, counts: &[u64]) -> Result<Vec<u64>, AllocError>
    ensures { IfOk result (λ numbers. numbers.items
        ≡ map (at_most counts.now) (range_with_len 0 (length counts.now))) }
{
    let mut numbers = Vec::new(alloc);
    for place in 0..counts.len() {
        numbers.push(total(&counts[..place + 1]))?;
    }
    Ok(numbers)
}

/// Buckets of these bounds with these numbers, as far as there are both.
fn bounded(
    alloc: Global,
    bounds: &[&'static str],
    numbers: &[u64],
) -> Result<Vec<Bucket>, AllocError>
    requires { length bounds.now ≡ length numbers.now }
    ensures bounds { IfOk result (λ buckets. map (λ bucket. bucket.bound.now) buckets.items
        ≡ map (λ bound. bound.now) bounds.now) }
    ensures numbers { IfOk result (λ buckets. map (λ bucket. bucket.count) buckets.items
        ≡ numbers.now) }
{
    let mut buckets = Vec::new(alloc);
    for (place, bound) in bounds.iter().enumerate() {
        let count = numbers[place];
        buckets.push(Bucket {
            bound: *bound,
            count,
        })?;
    }
    Ok(buckets)
}

/// All of them together.
fn total(counts: &[u64]) -> u64
    ensures { result ≡ capped (sum_by (λ number. number) counts.now) }
{
    let mut sum = 0u64;
    for count in counts {
        sum = sum.saturating_add(*count);
    }
    sum
}
