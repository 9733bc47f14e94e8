//! What one worker counts.
ghost use Rattle.std.specs.Prelude.{◌≡◌};

use crate::command::Command;
use crate::counter::Counter;
use crate::load::LoadNumbers;
use crate::marking::{Marking, since};
use crate::reading::ServerReading;
use crate::refusal::Refusal;
use crate::sent_end::SentEnd;
use crate::server_load::ServerLoadNumbers;
use crate::tallies::Tallies;
use crate::times::Times;
use std::alloc::{AllocError, Global};

/// What one worker counts. It alone writes here.
#[derive(Drop)]
pub(crate) struct Numbers {
    pub(crate) requests: Counter,
    pub(crate) attempts: Counter,
    pub(crate) skips: Counter,
    pub(crate) replies: Counter,
    pub(crate) no_server: Counter,
    pub(crate) refusals: Tallies,
    pub(crate) commands: Tallies,
    pub(crate) hits: Counter,
    pub(crate) misses: Counter,
    pub(crate) request_times: Times,
    pub(crate) sessions: Counter,
    pub(crate) read_faults: Counter,
    pub(crate) write_faults: Counter,
    pub(crate) line_faults: Counter,
    pub(crate) memory_faults: Counter,
    pub(crate) servers: Vec<ServerNumbers>,
    pub(crate) load: LoadNumbers,
}

/// What one worker counts of a server, and the mark that it has on it.
#[derive(Drop)]
pub(crate) struct ServerNumbers {
    pub(crate) sends: Counter,
    pub(crate) probes: Counter,
    pub(crate) outcomes: Tallies,
    pub(crate) response_times: Times,
    /// 0 for no mark, 1 for a soft one, 2 for a hard one.
    pub(crate) mark: Counter,
    /// When the mark was set, in milliseconds since 1970.
    pub(crate) since: Counter,
    pub(crate) load: ServerLoadNumbers,
}

impl Numbers {
    /// Of a worker over this many servers, which has not begun.
    pub(crate) fn new(alloc: Global, servers: usize) -> Result<Numbers, AllocError> {
        let mut each = Vec::new(alloc);
        for _ in 0..servers {
            each.push(ServerNumbers::new(alloc)?)?;
        }
        Ok(Numbers {
            requests: Counter::new(),
            attempts: Counter::new(),
            skips: Counter::new(),
            replies: Counter::new(),
            no_server: Counter::new(),
            refusals: Tallies::new(alloc, Refusal::ALL.len())?,
            commands: Tallies::new(alloc, Command::ALL.len())?,
            hits: Counter::new(),
            misses: Counter::new(),
            request_times: Times::new(alloc)?,
            sessions: Counter::new(),
            read_faults: Counter::new(),
            write_faults: Counter::new(),
            line_faults: Counter::new(),
            memory_faults: Counter::new(),
            servers: each,
            load: LoadNumbers::new(),
        })
    }
}

impl ServerNumbers {
    fn new(alloc: Global) -> Result<ServerNumbers, AllocError> {
        Ok(ServerNumbers {
            sends: Counter::new(),
            probes: Counter::new(),
            outcomes: Tallies::new(alloc, SentEnd::ALL.len())?,
            response_times: Times::new(alloc)?,
            mark: Counter::new(),
            since: Counter::new(),
            load: ServerLoadNumbers::new(),
        })
    }

    /// The numbers of the server at this moment, which are those of the worker of this number.
    pub(crate) fn reading(&self, worker: u64) -> ServerReading
        ensures { result.worker ≡ worker }
    {
        let load = self.load.reading();
        ServerReading {
            sends: self.sends.get(),
            probes: self.probes.get(),
            replies: self.ended(SentEnd::Reply),
            timeouts: self.ended(SentEnd::Timeout),
            refused: self.ended(SentEnd::Refused),
            broken: self.ended(SentEnd::Broken),
            aborted: self.ended(SentEnd::Aborted),
            in_flight: load.in_flight,
            mark: Marking::of(self.mark.get()),
            since: self.since.get(),
            next_probe: load.next_probe,
            worker,
        }
    }

    /// How often what the worker sent came to this.
    fn ended(&self, end: SentEnd) -> u64 {
        self.outcomes.get(end.place())
    }

    /// Sets the mark, which was set at this moment.
    pub(crate) fn set_mark(&self, mark: Marking, moment: u64) {
        let was = Marking::of(self.mark.get());
        self.since.set(since(was, self.since.get(), moment));
        self.mark.set(mark.number());
    }
}
