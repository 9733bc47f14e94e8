//! How long the servers of a page took to answer.
ghost use Rattle.std.specs.Prelude.{◌≡◌, ◌++◌, IfOk, OnOk, map, string_bytes};
ghost use Rattle.tko_metrics.specs.Pages.{timed_text, times_of};

use crate::meter::SharedMeter;
use crate::metrics::Metric;
use crate::sample::begin;
use crate::times_page::add_times;
use crate::times_reading::{TimesReading, TimesSum};
use std::alloc::{AllocError, Global};
use tko_bytes::NoMemory;

/// A server of a page: its address, and how long it took to answer.
#[derive(Drop)]
pub struct TimedServer<'a> {
    pub address: &'a str,
    pub times: TimesReading,
}

impl TimedServer<'_> {
    /// How long the servers of these addresses took.
    pub(crate) fn all<'a>(
        alloc: Global,
        shared: &SharedMeter,
        addresses: &'a [String],
    ) -> Result<Vec<TimedServer<'a>>, AllocError>
        ensures { IfOk result (λ servers.
            map (λ server. server.address.now) servers.items ≡ map string_bytes addresses.now) }
    {
        let mut servers = Vec::new(alloc);
        for (place, address) in addresses.iter().enumerate() {
            let times = response_times(alloc, shared, place)?;
            let address = address.as_str();
            servers.push(TimedServer { address, times })?;
        }
        Ok(servers)
    }
}

/// How long requests took, those of all workers together.
pub(crate) fn request_times(
    alloc: Global,
    shared: &SharedMeter,
) -> Result<TimesReading, AllocError> {
    let mut sum = TimesSum::nothing(alloc)?;
    for worker in shared.workers.iter() {
        sum.add(&worker.request_times);
    }
    sum.reading(alloc)
}

/// How long a server took to answer, those of all workers together.
fn response_times(
    alloc: Global,
    shared: &SharedMeter,
    server: usize,
) -> Result<TimesReading, AllocError> {
    let mut sum = TimesSum::nothing(alloc)?;
    for worker in shared.workers.iter() {
        if let Some(numbers) = worker.servers.get(server) {
            sum.add(&numbers.response_times);
        }
    }
    sum.reading(alloc)
}

/// Appends how long each server took.
#[tactic(auto, unfolding(crate::specs::Pages::timed_text))]
pub(crate) fn add_timed(out: &mut Vec<u8>, servers: &[TimedServer<'_>]) -> Result<(), NoMemory>
    ensures { OnOk result (out.new.items ≡ out.old.items ++ timed_text servers.now) }
{
    begin(out, Metric::ResponseTimes)?;
    for server in servers {
        add_times(
            out,
            Metric::ResponseTimes,
            Some(server.address),
            &server.times,
        )?;
    }
    Ok(())
}
