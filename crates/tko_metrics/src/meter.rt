//! The numbers of a server.
ghost use Rattle.std.specs.Prelude.{◌≡◌, IfOk, length, map, option_copied, option_map, string_bytes};
ghost use Rattle.std.specs.Arc.{arc_value};
ghost use Rattle.tko_metrics.specs.Loads.{AreWorkersIf};
ghost use Rattle.tko_metrics.specs.Meters.{HasParts, meter_parts};
ghost use Rattle.tko_metrics.specs.Pages.{IsPage};
ghost use Rattle.tko_metrics.specs.Traffic.{IsOfCommands, IsOfRefusals};

use crate::counter::Counter;
use crate::numbers::Numbers;
use crate::page::Page;
use crate::process::Process;
use crate::reading::{Shown, Sums};
use crate::timed::{TimedServer, request_times};
use crate::worded::Worded;
use crate::worker_meter::WorkerMeter;
use crate::workers::WorkerReading;
use std::alloc::{AllocError, Global};
use std::sync::atomic::{AtomicU64, Ordering};
use std::sync::{Arc, Wait};
use std::time::Duration;
use tko_bytes::NoMemory;

/// What all ends of a meter share.
#[derive(Drop)]
pub(crate) struct SharedMeter {
    /// The clients that are connected now.
    pub(crate) connected: Counter,
    /// The connections that were accepted and set up.
    pub(crate) accepted: Counter,
    /// The connections that were accepted and closed at once, for want of memory or since their
    /// socket could not be set up.
    pub(crate) dropped: Counter,
    pub(crate) workers: Vec<Arc<Numbers, Global>>,
    /// 1 once the server has ended.
    ended: AtomicU64,
}

/// The numbers of a server. A meter that is off keeps nothing.
#[derive(Drop)]
pub struct Meter {
    shared: Option<Arc<SharedMeter, Global>>,
}

impl SharedMeter {
    /// Of these workers, which nobody has added to.
    pub(crate) fn of(workers: Vec<Arc<Numbers, Global>>) -> SharedMeter
        ensures { result.workers ≡ workers }
    {
        SharedMeter {
            connected: Counter::new(),
            accepted: Counter::new(),
            dropped: Counter::new(),
            workers,
            ended: AtomicU64::new(0),
        }
    }

    /// What the page of servers of these addresses shows at this moment.
    fn reading<'a>(
        &self,
        alloc: Global,
        addresses: &'a [String],
        process: &Process,
    ) -> Result<Page<'a>, AllocError>
        ensures servers { IfOk result (λ page. map (λ server. server.address.now) page.servers.items
            ≡ map string_bytes addresses.now) }
        ensures timed { IfOk result (λ page. map (λ server. server.address.now) page.timed.items
            ≡ map string_bytes addresses.now) }
        ensures refusals { IfOk result (λ page. IsOfRefusals page.refusals.items) }
        ensures commands { IfOk result (λ page. IsOfCommands page.commands.items) }
        ensures workers { IfOk result (λ page. AreWorkersIf (length self.now.workers.items)
            (option_map (λ workers. workers.items) page.workers)) }
        ensures build { IfOk result (λ page. page.build ≡ process.now.build) }
    {
        Ok(Page {
            connected: self.connected.get(),
            accepted: self.accepted.get(),
            dropped: self.dropped.get(),
            sums: Sums::of(self),
            refusals: Worded::of_refusals(alloc, self)?,
            commands: Worded::of_commands(alloc, self)?,
            request_times: request_times(alloc, self)?,
            servers: Shown::all(alloc, self, addresses)?,
            timed: TimedServer::all(alloc, self, addresses)?,
            workers: WorkerReading::all(alloc, self)?,
            build: process.build,
            descriptors: process.descriptors(),
            descriptor_limit: process.limit,
            memory: process.memory(alloc),
        })
    }
}

impl Meter {
    /// A meter that keeps nothing.
    pub fn off() -> Meter {
        Meter { shared: None }
    }

    /// The meter of a server of so many workers and servers.
    pub fn open(alloc: Global, workers: u32, servers: usize) -> Result<Meter, AllocError>
        ensures { IfOk result (HasParts workers) }
    {
        let mut each = Vec::new(alloc);
        for _ in 0..workers {
            each.push(Arc::new(alloc, Numbers::new(alloc, servers)?)?)?;
        }
        Ok(Meter {
            shared: Some(Arc::new(alloc, SharedMeter::of(each))?),
        })
    }

    /// Another end of this meter.
    pub fn another(&self) -> Result<Meter, AllocError> {
        match &self.shared {
            Some(shared) => Ok(Meter {
                shared: Some(Arc::try_clone(shared)?),
            }),
            None => Ok(Meter::off()),
        }
    }

    /// The part of the worker of this number.
    pub fn worker(&self, worker: u32) -> Result<WorkerMeter, AllocError> {
        match self
            .shared()
            .and_then(|shared| shared.workers.get(worker as usize))
        {
            Some(numbers) => Ok(WorkerMeter::over(Arc::try_clone(numbers)?)),
            None => Ok(WorkerMeter::off()),
        }
    }

    /// Counts a connection that was accepted and set up.
    pub fn accept_client(&self) {
        if let Some(shared) = &self.shared {
            shared.accepted.add(1);
        }
    }

    /// Counts a client that has come.
    pub fn enter(&self) {
        if let Some(shared) = &self.shared {
            shared.connected.add(1);
        }
    }

    /// Counts a client that has left.
    pub fn leave(&self) {
        if let Some(shared) = &self.shared {
            shared.connected.take(1);
        }
    }

    /// Counts a connection that was accepted and closed at once.
    pub fn drop_client(&self) {
        if let Some(shared) = &self.shared {
            shared.dropped.add(1);
        }
    }

    /// The server has ended: its numbers are not asked for any more.
    pub fn end(&self) {
        if let Some(shared) = &self.shared {
            shared.ended.store(1, Ordering::SeqCst);
            shared.ended.wake_all();
        }
    }

    /// Whether the server has ended; a meter that is off has no server.
    pub fn has_ended(&self) -> bool {
        match &self.shared {
            Some(shared) => shared.ended.load(Ordering::SeqCst) == 1,
            None => true,
        }
    }

    /// Waits until the server ends, or so many milliseconds.
    pub fn wait<R: Wait>(&self, rt: &R, milliseconds: u64) {
        if let Some(shared) = &self.shared {
            let pause = Duration::from_millis(milliseconds);
            shared.ended.park_timeout(rt, 0, pause);
        }
    }

    /// The page of the metrics at this moment, over servers of these addresses, in this process.
    /// That of a meter that is off has counted nothing.
    pub fn page(
        &self,
        alloc: Global,
        addresses: &[String],
        process: &Process,
    ) -> Result<Vec<u8>, NoMemory>
        ensures { IfOk result (λ text. IsPage (map string_bytes addresses.now) process.now.build
            (meter_parts self.now) text.items) }
    {
        let nothing = SharedMeter::of(Vec::new(alloc));
        let shared = self.shared().unwrap_or(&nothing);
        shared.reading(alloc, addresses, process)?.text(alloc)
    }

    pub(crate) fn shared(&self) -> Option<&SharedMeter>
        ensures { option_copied result ≡ option_map (λ shared. arc_value shared) self.now.shared }
    {
        match &self.shared {
            Some(shared) => Some(shared),
            None => None,
        }
    }
}
