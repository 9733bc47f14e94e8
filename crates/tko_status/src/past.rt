//! What was counted until moments of the last minute.
ghost use Rattle.std.specs.Prelude.{◌≡◌, [], ◌++◌, ◌∷◌, IfOk, OnErr, OnOk, map, string_bytes};
ghost use Rattle.tko_metrics.specs.Meters.{meter_parts};
ghost use Rattle.tko_status.specs.Past.{AddsReading, IsReadingOf, KeepsReadings, bucket_counts, is_due, is_recent, recent_of};

use std::alloc::{AllocError, Global};
use tko_bytes::NoMemory;
use tko_metrics::{Bucket, Meter, Status, TimedServer};

/// For how many milliseconds a reading is kept.
const KEPT_TIME: u64 = 60_000;

/// How many milliseconds lie between two readings at least.
const PAUSE: u64 = 5_000;

/// What was counted until a moment.
#[derive(Drop)]
pub struct PastReading {
    /// In milliseconds since the server began.
    pub(crate) moment: u64,
    pub(crate) requests: u64,
    /// For each server and each bucket, how many answers took no longer than its bound.
    pub(crate) times: Vec<Vec<u64>>,
}

/// What was counted until moments of the last minute, in the order of the moments.
#[derive(Drop)]
pub struct Past {
    pub(crate) kept: Vec<PastReading>,
}

impl PastReading {
    /// What this status says of the moment.
    fn of(alloc: Global, moment: u64, status: &Status<'_>) -> Result<PastReading, AllocError>
        ensures { IfOk result (IsReadingOf moment status.now) }
    {
        Ok(PastReading {
            moment,
            requests: status.sums.requests,
            times: times_of(alloc, &status.timed)?,
        })
    }

    /// Whether it is young enough to be kept.
    fn is_recent(&self, now: u64) -> bool
        ensures { result ≡ is_recent now self.now }
    {
        now.saturating_sub(self.moment) <= KEPT_TIME
    }
}

impl Past {
    /// Nothing was counted.
    pub fn new(alloc: Global) -> Past
        ensures { result.kept.items ≡ [] }
    {
        Past {
            kept: Vec::new(alloc),
        }
    }

    /// The readings that are kept.
    pub fn readings(&self) -> &[PastReading]
        ensures { result.now ≡ self.now.kept.items }
    {
        &self.kept
    }

    /// Drops what is too old, and keeps what this meter counts now, if the last reading is not
    /// too young. The moment is in milliseconds since the server began.
    pub fn keep(
        &mut self,
        alloc: Global,
        now: u64,
        meter: &Meter,
        addresses: &[String],
    ) -> Result<(), NoMemory>
        ensures ok { OnOk result (KeepsReadings (map string_bytes addresses.now)
            (meter_parts meter.now) now self.old.kept.items self.new.kept.items) }
        ensures err { OnErr result
            (self.new.kept.items ≡ recent_of now self.old.kept.items) }
    {
        self.forget(now);
        if self.is_due(now) {
            self.add(alloc, now, meter, addresses)
        } else {
            Ok(())
        }
    }

    /// Keeps what this meter counts now.
    fn add(
        &mut self,
        alloc: Global,
        now: u64,
        meter: &Meter,
        addresses: &[String],
    ) -> Result<(), NoMemory>
        ensures ok { OnOk result (AddsReading (map string_bytes addresses.now)
            (meter_parts meter.now) now self.old.kept.items self.new.kept.items) }
        ensures err { OnErr result (self.new.kept.items ≡ self.old.kept.items) }
    {
        let status = meter.status(alloc, addresses)?;
        let reading = PastReading::of(alloc, now, &status)?;
        self.kept.push(reading)?;
        Ok(())
    }

    /// Drops what is too old.
    fn forget(&mut self, now: u64)
        ensures { self.new.kept.items ≡ recent_of now self.old.kept.items }
    {
        self.kept.retain(|reading| reading.is_recent(now));
    }

    /// Whether the last reading is old enough for another one.
    fn is_due(&self, now: u64) -> bool
        ensures { result ≡ is_due now self.now.kept.items }
    {
        match self.kept.last() {
            Some(last) => PAUSE <= now.saturating_sub(last.moment),
            None => true,
        }
    }
}

/// The counts of the buckets of each server.
fn times_of(alloc: Global, servers: &[TimedServer<'_>]) -> Result<Vec<Vec<u64>>, AllocError>
    ensures { IfOk result (λ times. map (λ each. each.items) times.items
        ≡ map (λ server. bucket_counts server.times.buckets.items) servers.now) }
{
    let mut times = Vec::new(alloc);
    for server in servers {
        times.push(counts_of(alloc, &server.times.buckets)?)?;
    }
    Ok(times)
}

/// The counts of these buckets.
pub(crate) fn counts_of(alloc: Global, buckets: &[Bucket]) -> Result<Vec<u64>, AllocError>
    ensures { IfOk result (λ counts. counts.items ≡ bucket_counts buckets.now) }
{
    let mut counts = Vec::new(alloc);
    for bucket in buckets {
        counts.push(bucket.count)?;
    }
    Ok(counts)
}
