//! What a worker met.
ghost use Rattle.std.specs.Prelude.{◌≡◌};
ghost use Rattle.tko_threads.specs.Reports.{IsSum, counted_session, no_report, sum_of_reports, with_memory};

use tko_session::{Report, SessionFault};

/// What a worker met. Its numbers stay at 2^64 - 1.
#[derive(Clone, Copy, Debug, PartialEq, Eq)]
pub struct WorkerReport {
    pub sessions: u64,
    /// The sessions that ended by a fault.
    pub faults: u64,
    /// Whether memory ran out in a session or in a round.
    pub memory: bool,
    /// Whether the ledger was full for a kind.
    pub ledger_full: bool,
}

impl WorkerReport {
    pub fn new() -> WorkerReport
        ensures { result ≡ no_report }
    {
        WorkerReport {
            sessions: 0,
            faults: 0,
            memory: false,
            ledger_full: false,
        }
    }

    /// Counts a session.
    pub(crate) fn count(&mut self, served: &Result<Report, SessionFault>)
        ensures { self.new ≡ counted_session self.old served.now }
    {
        self.sessions = self.sessions.saturating_add(1);
        if let Err(fault) = served {
            self.faults = self.faults.saturating_add(1);
            self.memory = self.memory || *fault == SessionFault::Memory;
        }
    }

    /// Notes whether memory ran out in a round.
    pub(crate) fn note_round(&mut self, ran_out: bool)
        ensures { self.new ≡ with_memory self.old ran_out }
    {
        self.memory = self.memory || ran_out;
    }

    /// Adds what another worker met.
    pub fn add(&mut self, other: &WorkerReport)
        ensures { self.new ≡ sum_of_reports self.old other.now }
    {
        self.sessions = self.sessions.saturating_add(other.sessions);
        self.faults = self.faults.saturating_add(other.faults);
        self.memory = self.memory || other.memory;
        self.ledger_full = self.ledger_full || other.ledger_full;
    }

    /// What all of these workers met.
    pub(crate) fn of_all<P>(ended: &[(P, WorkerReport)]) -> WorkerReport
        ensures { IsSum ended.now result }
    {
        let mut all = WorkerReport::new();
        for one in ended {
            all.add(&one.1);
        }
        all
    }
}
