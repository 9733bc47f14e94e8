//! The page of a server's metrics.
ghost use Rattle.std.specs.Prelude.{◌≡◌, ◌++◌, IfOk, OnOk};
ghost use Rattle.tko_metrics.specs.Pages.{build_text, clients_text, counts_text, faults_text, in_flight_text, known_text, page_text, probes_in_all, process_text, requests_text, servers_text, traffic_text, workers_text};

use crate::build::Build;
use crate::metrics::Metric;
use crate::reading::{ServerNumber, Shown, Sums};
use crate::sample::{add_of_build, add_of_kind, add_single, begin};
use crate::server_page::{add_marks, add_moments, add_numbers, add_outcomes};
use crate::timed::{TimedServer, add_timed};
use crate::times_page::add_times;
use crate::times_reading::TimesReading;
use crate::worded::{Worded, add_words};
use crate::worker_meter::Ending;
use crate::workers::{WorkerReading, add_loads};
use std::alloc::Global;
use tko_bytes::NoMemory;

/// What a page shows.
#[derive(Drop)]
pub(crate) struct Page<'a> {
    pub(crate) connected: u64,
    pub(crate) accepted: u64,
    pub(crate) dropped: u64,
    pub(crate) sums: Sums,
    pub(crate) refusals: Vec<Worded>,
    pub(crate) commands: Vec<Worded>,
    /// How long requests took.
    pub(crate) request_times: TimesReading,
    pub(crate) servers: Vec<Shown<'a>>,
    /// How long the servers took to answer.
    pub(crate) timed: Vec<TimedServer<'a>>,
    /// The workers, if they are event-driven.
    pub(crate) workers: Option<Vec<WorkerReading>>,
    pub(crate) build: Build,
    pub(crate) descriptors: Option<u64>,
    pub(crate) descriptor_limit: Option<u64>,
    pub(crate) memory: Option<u64>,
}

impl Page<'_> {
    /// Its text.
    pub(crate) fn text(&self, alloc: Global) -> Result<Vec<u8>, NoMemory>
        ensures { IfOk result (λ text. text.items ≡ page_text self.now) }
    {
        let mut out = Vec::new(alloc);
        self.add_counts(&mut out)?;
        self.add_servers(&mut out)?;
        self.add_workers(&mut out)?;
        self.add_process(&mut out)?;
        Ok(out)
    }

    #[tactic(auto, unfolding(crate::specs::Pages::counts_text))]
    fn add_counts(&self, out: &mut Vec<u8>) -> Result<(), NoMemory>
        ensures { OnOk result (out.new.items ≡ out.old.items ++ counts_text self.now) }
    {
        self.add_clients(out)?;
        add_faults(out, self.sums)?;
        add_requests(out, self.sums)?;
        self.add_traffic(out)?;
        add_single(out, Metric::Probes, probes_in_all(&self.servers))
    }

    #[tactic(auto, unfolding(crate::specs::Pages::clients_text))]
    fn add_clients(&self, out: &mut Vec<u8>) -> Result<(), NoMemory>
        ensures { OnOk result (out.new.items ≡ out.old.items ++ clients_text self.now) }
    {
        add_single(out, Metric::Connected, self.connected)?;
        add_single(out, Metric::Accepted, self.accepted)?;
        add_single(out, Metric::Dropped, self.dropped)?;
        add_single(out, Metric::Sessions, self.sums.sessions)
    }

    /// Appends what clients asked, and how that went.
    #[tactic(auto, unfolding(crate::specs::Pages::traffic_text))]
    fn add_traffic(&self, out: &mut Vec<u8>) -> Result<(), NoMemory>
        ensures { OnOk result (out.new.items ≡ out.old.items ++ traffic_text self.now) }
    {
        add_words(out, Metric::Refused, b"kind", &self.refusals)?;
        add_words(out, Metric::Commands, b"command", &self.commands)?;
        add_single(out, Metric::Hits, self.sums.hits)?;
        add_single(out, Metric::Misses, self.sums.misses)?;
        begin(out, Metric::RequestTimes)?;
        add_times(out, Metric::RequestTimes, None, &self.request_times)
    }

    #[tactic(auto, unfolding(crate::specs::Pages::servers_text))]
    fn add_servers(&self, out: &mut Vec<u8>) -> Result<(), NoMemory>
        ensures { OnOk result (out.new.items ≡ out.old.items ++ servers_text self.now) }
    {
        add_numbers(out, Metric::ServerSends, ServerNumber::Sends, &self.servers)?;
        add_numbers(
            out,
            Metric::ServerProbes,
            ServerNumber::Probes,
            &self.servers,
        )?;
        add_outcomes(out, &self.servers)?;
        self.add_in_flight(out)?;
        add_timed(out, &self.timed)?;
        add_marks(out, &self.servers)?;
        add_moments(out, &self.servers)
    }

    /// Appends how many requests are in flight to each server, if the workers are event-driven.
    fn add_in_flight(&self, out: &mut Vec<u8>) -> Result<(), NoMemory>
        ensures { OnOk result (out.new.items ≡ out.old.items ++ in_flight_text self.now) }
    {
        match &self.workers {
            Some(_) => add_numbers(out, Metric::InFlight, ServerNumber::InFlight, &self.servers),
            None => Ok(()),
        }
    }

    fn add_workers(&self, out: &mut Vec<u8>) -> Result<(), NoMemory>
        ensures { OnOk result (out.new.items ≡ out.old.items ++ workers_text self.now) }
    {
        match &self.workers {
            Some(workers) => add_loads(out, workers),
            None => Ok(()),
        }
    }

    #[tactic(auto, unfolding(crate::specs::Pages::process_text))]
    fn add_process(&self, out: &mut Vec<u8>) -> Result<(), NoMemory>
        ensures { OnOk result (out.new.items ≡ out.old.items ++ process_text self.now) }
    {
        add_build(out, self.build)?;
        add_known(out, Metric::Descriptors, self.descriptors)?;
        add_known(out, Metric::DescriptorLimit, self.descriptor_limit)?;
        add_known(out, Metric::Memory, self.memory)
    }
}

#[tactic(auto, unfolding(crate::specs::Pages::faults_text))]
fn add_faults(out: &mut Vec<u8>, sums: Sums) -> Result<(), NoMemory>
    ensures { OnOk result (out.new.items ≡ out.old.items ++ faults_text sums) }
{
    begin(out, Metric::Faults)?;
    add_of_kind(out, Metric::Faults, Ending::Read, sums.read_faults)?;
    add_of_kind(out, Metric::Faults, Ending::Write, sums.write_faults)?;
    add_of_kind(out, Metric::Faults, Ending::LineTooLong, sums.line_faults)?;
    add_of_kind(out, Metric::Faults, Ending::Memory, sums.memory_faults)
}

#[tactic(auto, unfolding(crate::specs::Pages::requests_text))]
fn add_requests(out: &mut Vec<u8>, sums: Sums) -> Result<(), NoMemory>
    ensures { OnOk result (out.new.items ≡ out.old.items ++ requests_text sums) }
{
    add_single(out, Metric::Requests, sums.requests)?;
    add_single(out, Metric::Attempts, sums.attempts)?;
    add_single(out, Metric::Skips, sums.skips)?;
    add_single(out, Metric::Replies, sums.replies)?;
    add_single(out, Metric::NoServer, sums.no_server)
}

/// The probes of all servers.
fn probes_in_all(servers: &[Shown<'_>]) -> u64
    ensures { result ≡ probes_in_all servers.now }
{
    let mut probes = 0u64;
    for server in servers {
        probes = probes.saturating_add(server.reading.probes);
    }
    probes
}

/// Appends which build the process runs.
#[tactic(auto, unfolding(crate::specs::Pages::build_text))]
fn add_build(out: &mut Vec<u8>, build: Build) -> Result<(), NoMemory>
    ensures { OnOk result (out.new.items ≡ out.old.items ++ build_text build) }
{
    begin(out, Metric::Build)?;
    add_of_build(out, Metric::Build, build)
}

/// Appends a metric whose number the system may not tell.
fn add_known(out: &mut Vec<u8>, metric: Metric, number: Option<u64>) -> Result<(), NoMemory>
    ensures { OnOk result (out.new.items ≡ out.old.items ++ known_text metric number) }
{
    match number {
        Some(number) => add_single(out, metric, number),
        None => Ok(()),
    }
}
