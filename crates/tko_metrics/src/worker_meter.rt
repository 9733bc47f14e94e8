//! The numbers of one worker.
ghost use Rattle.std.specs.Prelude.{◌≡◌};
ghost use Rattle.tko_metrics.specs.Metrics.{ending_word};

use crate::command::Command;
use crate::load::WorkerLoad;
use crate::marking::Marking;
use crate::numbers::{Numbers, ServerNumbers};
use crate::refusal::Refusal;
use crate::sent_end::SentEnd;
use crate::server_load::ServerLoad;
use std::alloc::{AllocError, Global};
use std::sync::Arc;

/// By how much a worker's counts of requests grew.
#[derive(Clone, Copy, Debug, PartialEq, Eq)]
pub struct Increase {
    pub requests: u64,
    pub attempts: u64,
    pub skips: u64,
    pub replies: u64,
    pub no_server: u64,
}

/// How a session ended.
#[derive(Clone, Copy, Debug, PartialEq, Eq)]
pub enum Ending {
    /// By `quit`, or by its client.
    Done,
    Read,
    Write,
    LineTooLong,
    Memory,
}

impl Ending {
    /// The word of the fault, `none` where there is none.
    pub(crate) fn word(self) -> &'static str
        ensures { result.now ≡ ending_word self }
    {
        match self {
            Ending::Done => "none",
            Ending::Read => "read",
            Ending::Write => "write",
            Ending::LineTooLong => "line_too_long",
            Ending::Memory => "memory",
        }
    }
}

/// One worker's part of a meter. A part that is off keeps nothing.
#[derive(Drop)]
pub struct WorkerMeter {
    numbers: Option<Arc<Numbers, Global>>,
}

impl WorkerMeter {
    /// A part that keeps nothing.
    pub fn off() -> WorkerMeter {
        WorkerMeter { numbers: None }
    }

    pub(crate) fn over(numbers: Arc<Numbers, Global>) -> WorkerMeter {
        WorkerMeter {
            numbers: Some(numbers),
        }
    }

    /// Another end of this part.
    pub fn another(&self) -> Result<WorkerMeter, AllocError> {
        match &self.numbers {
            Some(numbers) => Ok(WorkerMeter::over(Arc::try_clone(numbers)?)),
            None => Ok(WorkerMeter::off()),
        }
    }

    /// Whether it keeps numbers.
    pub fn is_on(&self) -> bool {
        self.numbers.is_some()
    }

    /// Adds what became of some requests.
    pub fn count(&self, more: Increase) {
        if let Some(numbers) = &self.numbers {
            numbers.requests.add(more.requests);
            numbers.attempts.add(more.attempts);
            numbers.skips.add(more.skips);
            numbers.replies.add(more.replies);
            numbers.no_server.add(more.no_server);
        }
    }

    /// Counts a request that was read.
    pub fn count_command(&self, command: Command) {
        if let Some(numbers) = &self.numbers {
            numbers.commands.count(command.place());
        }
    }

    /// Counts a line that was refused, or a client.
    pub fn refuse(&self, why: Refusal) {
        if let Some(numbers) = &self.numbers {
            numbers.refusals.count(why.place());
        }
    }

    /// Counts a key of a `get` or `gets` that a server answered with a value, or without.
    pub fn count_key(&self, has_value: bool) {
        if let Some(numbers) = &self.numbers {
            let number = if has_value {
                &numbers.hits
            } else {
                &numbers.misses
            };
            number.add(1);
        }
    }

    /// Counts a request that took so many microseconds.
    pub fn time_request(&self, micros: u64) {
        if let Some(numbers) = &self.numbers {
            numbers.request_times.count(micros);
        }
    }

    /// Counts what came of what was sent to this server.
    pub fn count_end(&self, server: usize, end: SentEnd) {
        if let Some(server) = self.server(server) {
            server.outcomes.count(end.place());
        }
    }

    /// Counts a response of this server, which took so many microseconds.
    pub fn time_response(&self, server: usize, micros: u64) {
        if let Some(server) = self.server(server) {
            server.response_times.count(micros);
        }
    }

    /// Counts a session that has ended.
    pub fn end_session(&self, ending: Ending) {
        if let Some(numbers) = &self.numbers {
            numbers.sessions.add(1);
            match ending {
                Ending::Done => {}
                Ending::Read => numbers.read_faults.add(1),
                Ending::Write => numbers.write_faults.add(1),
                Ending::LineTooLong => numbers.line_faults.add(1),
                Ending::Memory => numbers.memory_faults.add(1),
            }
        }
    }

    /// Sets how often the worker has sent to this server.
    pub fn set_sends(&self, server: usize, sends: u64) {
        if let Some(server) = self.server(server) {
            server.sends.set(sends);
        }
    }

    /// Sets how often the worker has probed this server.
    pub fn set_probes(&self, server: usize, probes: u64) {
        if let Some(server) = self.server(server) {
            server.probes.set(probes);
        }
    }

    /// The worker's mark on this server is this one from this moment on, in milliseconds since
    /// 1970. A mark that is hardened keeps its moment.
    pub fn set_mark(&self, server: usize, mark: Marking, moment: u64) {
        if let Some(server) = self.server(server) {
            server.set_mark(mark, moment);
        }
    }

    /// The worker is event-driven, and this is its load now.
    pub fn set_load(&self, load: WorkerLoad) {
        if let Some(numbers) = &self.numbers {
            numbers.load.set(load);
        }
    }

    /// The worker is event-driven, and this is what it has to do with this server now.
    pub fn set_server_load(&self, server: usize, load: ServerLoad) {
        if let Some(server) = self.server(server) {
            server.load.set(load);
        }
    }

    fn server(&self, server: usize) -> Option<&ServerNumbers> {
        match &self.numbers {
            Some(numbers) => numbers.servers.get(server),
            None => None,
        }
    }
}
