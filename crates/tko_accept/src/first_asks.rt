//! The first time that each worker of a server asks for a connection.
ghost use Rattle.std.specs.Prelude.{◌≡◌, ◌<◌, ◌+◌, true, IfOk};
ghost use Rattle.tko_accept.specs.FirstAsks.{HaveAllAsked};

use crossbeam_channel::{Receiver, Sender, bounded};
use std::alloc::{AllocError, Global};
use std::sync::Wait;

/// Lets one worker report that it asks for its first connection.
#[derive(Drop)]
pub struct FirstAsk {
    reports: Sender<()>,
}

/// Receives the reports of all workers.
#[derive(Drop)]
pub struct FirstAsks {
    reports: Receiver<()>,
    /// How many workers have not reported yet.
    pub missing: u32,
}

/// The receiver of the reports of `workers` workers, and what one of them reports by.
pub fn first_asks_of(alloc: Global, workers: u32) -> Result<(FirstAsk, FirstAsks), AllocError>
    ensures { IfOk result (λ both. both.1.missing ≡ workers) }
{
    let (sender, reports) = bounded(alloc, workers as usize)?;
    let first_asks = FirstAsks {
        reports,
        missing: workers,
    };
    Ok((FirstAsk { reports: sender }, first_asks))
}

impl FirstAsk {
    /// What another worker reports by.
    pub fn another(&self) -> Result<FirstAsk, AllocError> {
        let reports = self.reports.clone()?;
        Ok(FirstAsk { reports })
    }

    /// Reports that the worker asks. If nobody waits for reports any more, this one is lost.
    pub fn report<R: Wait>(self, rt: &R) {
        let _ = self.reports.send(rt, ());
    }
}

impl FirstAsks {
    /// Waits until each worker has reported, and returns whether all did: a worker that ends before
    /// its report never does.
    pub fn hear_all<R: Wait>(&mut self, rt: &R) -> bool
        ensures { result ≡ true → HaveAllAsked self.new }
    {
        while 0 < self.missing {
            if !self.hear(rt) {
                return false;
            }
        }
        true
    }

    /// Waits for one more worker's report, and returns whether it came.
    fn hear<R: Wait>(&mut self, rt: &R) -> bool
        requires { 0 < self.old.missing }
        ensures { result ≡ true → self.new.missing + 1 ≡ self.old.missing }
    {
        let has_reported = self.reports.recv(rt).is_ok();
        if has_reported {
            self.missing -= 1;
        }
        has_reported
    }
}
