//! Quantiles of times that are counted by buckets.
ghost use Rattle.std.specs.Prelude.{◌≡◌, ◌++◌, OnOk, slice_get};
ghost use Rattle.std.specs.List.{position};
ghost use Rattle.tko_metrics.specs.Times.{bounds};
ghost use Rattle.tko_status.specs.Quantiles.{all_in, quantile_of, quantile_text, reaches, within_text};

use crate::durations::add_bound;
use tko_bytes::{NoMemory, append};
use tko_metrics::bucket_bound;

/// What takes longer than these microseconds is in the last bucket.
const GREATEST_BOUND: u64 = 10_000_000;

/// A part of all answers.
#[derive(Clone, Copy, Debug, PartialEq, Eq)]
pub(crate) enum Share {
    Half,
    /// 99 of 100.
    NearlyAll,
}

impl Share {
    /// Whether so many are at least this part of all.
    fn reaches(self, count: u64, all: u64) -> bool
        ensures { result ≡ reaches self all count }
    {
        match self {
            Share::Half => all as u128 <= 2 * count as u128,
            Share::NearlyAll => 99 * all as u128 <= 100 * count as u128,
        }
    }
}

/// How many are in all buckets, where each counts those up to its bound.
fn all_in(up_to: &[u64]) -> u64
    ensures { result ≡ all_in up_to.now }
{
    up_to.last().copied().unwrap_or(0)
}

/// The first bucket up to which this part of all lies, where each bucket counts those up to its
/// bound; none where there are none at all.
pub(crate) fn quantile_of(share: Share, up_to: &[u64]) -> Option<usize>
    ensures { result ≡ quantile_of share up_to.now }
{
    let all = all_in(up_to);
    if all == 0 {
        return None;
    }
    first_reaching(share, all, up_to)
}

/// The place of the first count that is at least this part of all.
fn first_reaching(share: Share, all: u64, up_to: &[u64]) -> Option<usize>
    ensures { result ≡ position (reaches share all) up_to.now }
{
    up_to.iter().position(|count| share.reaches(*count, all))
}

/// Appends what the bucket at this place says of how long something took.
fn add_bucket(out: &mut Vec<u8>, place: usize) -> Result<(), NoMemory>
    ensures { OnOk result (out.new.items ≡ out.old.items ++ within_text (slice_get bounds place)) }
{
    match bucket_bound(place) {
        Some(micros) => {
            append(out, &[b"at most "])?;
            add_bound(out, micros)
        }
        None => {
            append(out, &[b"over "])?;
            add_bound(out, GREATEST_BOUND)
        }
    }
}

/// Appends how long this part of all took at most.
pub(crate) fn add_quantile(out: &mut Vec<u8>, share: Share, up_to: &[u64]) -> Result<(), NoMemory>
    ensures { OnOk result (out.new.items ≡ out.old.items ++ quantile_text share up_to.now) }
{
    match quantile_of(share, up_to) {
        Some(place) => add_bucket(out, place),
        None => Ok(()),
    }
}
