//! The event-driven workers of a page.
ghost use Rattle.std.specs.Prelude.{◌≡◌, ◌++◌, IfOk, OnOk, length, option_map};
ghost use Rattle.tko_metrics.specs.Loads.{AreWorkersIf, gauge_of, gauge_text, loads_text, metric_of};

use crate::load::WorkerLoad;
use crate::meter::SharedMeter;
use crate::metrics::Metric;
use crate::sample::{add_of_worker, begin};
use std::alloc::{AllocError, Global};
use tko_bytes::NoMemory;

/// A worker of a page: its number, and its load.
#[derive(Clone, Copy, Debug)]
pub struct WorkerReading {
    pub worker: u64,
    pub load: WorkerLoad,
}

/// A gauge of each event-driven worker.
#[derive(Clone, Copy, Debug, PartialEq, Eq)]
pub(crate) enum LoadGauge {
    Clients,
    Connections,
    Waiting,
}

impl LoadGauge {
    fn metric(self) -> Metric
        ensures { result ≡ metric_of self }
    {
        match self {
            LoadGauge::Clients => Metric::WorkerClients,
            LoadGauge::Connections => Metric::WorkerConnections,
            LoadGauge::Waiting => Metric::WorkerWaiting,
        }
    }

    /// Its number of a load.
    fn of(self, load: WorkerLoad) -> u64
        ensures { result ≡ gauge_of self load }
    {
        match self {
            LoadGauge::Clients => load.clients,
            LoadGauge::Connections => load.connections,
            LoadGauge::Waiting => load.waiting,
        }
    }
}

impl WorkerReading {
    /// All workers, where one has told its load: then all are event-driven.
    pub(crate) fn all(
        alloc: Global,
        shared: &SharedMeter,
    ) -> Result<Option<Vec<WorkerReading>>, AllocError>
        ensures { IfOk result (λ workers. AreWorkersIf (length shared.now.workers.items)
            (option_map (λ each. each.items) workers)) }
    {
        if !is_any_told(shared) {
            return Ok(None);
        }
        let mut workers = Vec::new(alloc);
        for (worker, numbers) in shared.workers.iter().enumerate() {
            let worker = worker as u64;
            let load = numbers.load.reading();
            workers.push(WorkerReading { worker, load })?;
        }
        Ok(Some(workers))
    }
}

/// Whether a worker has told its load.
fn is_any_told(shared: &SharedMeter) -> bool {
    for worker in shared.workers.iter() {
        if worker.load.is_told() {
            return true;
        }
    }
    false
}

/// Appends the loads of event-driven workers.
#[tactic(auto, unfolding(crate::specs::Loads::loads_text))]
pub(crate) fn add_loads(out: &mut Vec<u8>, workers: &[WorkerReading]) -> Result<(), NoMemory>
    ensures { OnOk result (out.new.items ≡ out.old.items ++ loads_text workers.now) }
{
    add_gauge(out, LoadGauge::Clients, workers)?;
    add_gauge(out, LoadGauge::Connections, workers)?;
    add_gauge(out, LoadGauge::Waiting, workers)
}

/// Appends a gauge of each of these workers.
#[tactic(auto, unfolding(crate::specs::Loads::gauge_text))]
fn add_gauge(out: &mut Vec<u8>, gauge: LoadGauge, workers: &[WorkerReading]) -> Result<(), NoMemory>
    ensures { OnOk result (out.new.items ≡ out.old.items ++ gauge_text gauge workers.now) }
{
    let metric = gauge.metric();
    begin(out, metric)?;
    for each in workers {
        add_of_worker(out, metric, each.worker, gauge.of(each.load))?;
    }
    Ok(())
}
