//! What is shown of a server to people.
ghost use Rattle.std.specs.Prelude.{◌≡◌, All, IfOk, length, map, option_map, string_bytes, sum_by};
ghost use Rattle.tko_bytes.specs.Numbers.{capped};
ghost use Rattle.tko_metrics.specs.Loads.{AreWorkersIf};
ghost use Rattle.tko_metrics.specs.Meters.{meter_parts};
ghost use Rattle.tko_metrics.specs.Readings.{IsOfWorkers};
ghost use Rattle.tko_metrics.specs.Statuses.{IsStatusOf};

use crate::meter::{Meter, SharedMeter};
use crate::reading::{Shown, Sums};
use crate::timed::TimedServer;
use crate::worded::Worded;
use crate::workers::WorkerReading;
use std::alloc::{AllocError, Global};

/// What the workers of a server counted until a moment.
#[derive(Drop)]
pub struct Status<'a> {
    /// The clients that are connected.
    pub connected: u64,
    pub sums: Sums,
    /// What was refused, for all reasons together.
    pub refused: u64,
    pub servers: Vec<Shown<'a>>,
    /// How long the same servers took to answer.
    pub timed: Vec<TimedServer<'a>>,
    /// The workers, if they are event-driven.
    pub workers: Option<Vec<WorkerReading>>,
}

impl SharedMeter {
    fn status<'a>(&self, alloc: Global, addresses: &'a [String]) -> Result<Status<'a>, AllocError>
        ensures { IfOk result (IsStatusOf (map string_bytes addresses.now)
            (length self.now.workers.items)) }
    {
        Ok(Status {
            connected: self.connected.get(),
            sums: Sums::of(self),
            refused: in_all(&Worded::of_refusals(alloc, self)?),
            servers: Shown::all(alloc, self, addresses)?,
            timed: TimedServer::all(alloc, self, addresses)?,
            workers: WorkerReading::all(alloc, self)?,
        })
    }
}

impl Meter {
    /// What is shown to people at this moment, over servers of these addresses. A meter that is off
    /// has counted nothing.
    pub fn status<'a>(
        &self,
        alloc: Global,
        addresses: &'a [String],
    ) -> Result<Status<'a>, AllocError>
        ensures { IfOk result (IsStatusOf (map string_bytes addresses.now) (meter_parts self.now)) }
    {
        let nothing = SharedMeter::of(Vec::new(alloc));
        let shared = self.shared().unwrap_or(&nothing);
        shared.status(alloc, addresses)
    }
}

/// All these numbers together.
fn in_all(numbers: &[Worded]) -> u64
    ensures { result ≡ capped (sum_by (λ it. it.number) numbers.now) }
{
    let mut sum = 0u64;
    for it in numbers {
        sum = sum.saturating_add(it.number);
    }
    sum
}
