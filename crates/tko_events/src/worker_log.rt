//! One worker's end of the log and of the meter.

use crate::event::{LogEvent, ServerChange, What};
use crate::log::Log;
use crate::slow::is_slow;
use std::alloc::AllocError;
use std::sync::Wait;
use std::time::Clock;
use tko_links::{ExchangeNoMemory, Outcome};
use tko_metrics::{WorkerMeter, moment_now};
use tko_model::Reply;

/// One worker's end of the log and of the meter beside it, which the worker owns. It is told what
/// happened, and takes no lock.
#[derive(Drop)]
pub struct WorkerLog {
    log: Log,
    worker: u32,
    meter: WorkerMeter,
}

impl WorkerLog {
    /// The end of this log, if there is one, for the worker of this number.
    pub fn open(log: Option<&Log>, worker: u32) -> Result<WorkerLog, AllocError> {
        let log = Log::another(log)?;
        let meter = log.meter().worker(worker)?;
        Ok(WorkerLog { log, worker, meter })
    }

    /// An end that tells and counts nothing.
    pub fn off() -> WorkerLog {
        WorkerLog {
            log: Log::off(),
            worker: 0,
            meter: WorkerMeter::off(),
        }
    }

    /// The log that has the sum of the sessions of all workers.
    pub fn log(&self) -> &Log {
        &self.log
    }

    /// The worker's part of the meter.
    pub fn meter(&self) -> &WorkerMeter {
        &self.meter
    }

    /// The worker sent to a server, which came to this, and the health replied so.
    pub fn tell_attempt<R: Wait + Clock>(
        &self,
        rt: &R,
        server: usize,
        outcome: &Outcome,
        reply: Reply,
    ) {
        if is_slow(outcome, reply) {
            self.log.tell_slow(rt, server);
        }
        if let Some(what) = What::of_attempt(server, self.worker, outcome, reply) {
            if self.is_on() {
                self.send(rt, Some(moment_now(rt)), what);
            }
        }
    }

    /// The worker probed a server, which came to this, and the health replied so, if it was told.
    pub fn tell_probe<R: Wait + Clock>(
        &self,
        rt: &R,
        server: usize,
        came: &Result<Outcome, ExchangeNoMemory>,
        reply: Option<Reply>,
    ) {
        if !self.is_on() {
            return;
        }
        let moment = Some(moment_now(rt));
        self.send(rt, moment, What::of_probe(server, self.worker, came));
        if let Some(what) = What::after_probe(server, self.worker, came, reply) {
            self.send(rt, moment, what);
        }
    }

    /// The worker released a server as it ended, and the health replied so.
    pub fn tell_release<R: Wait>(&self, rt: &R, server: usize, reply: Reply) {
        if let Some(what) = What::of_release(server, self.worker, reply) {
            if self.is_on() {
                self.send(rt, None, what);
            }
        }
    }

    /// Whether anything is told or counted.
    fn is_on(&self) -> bool {
        self.log.is_on() || self.meter.is_on()
    }

    /// Sends an event of this moment, and counts what became of the worker's mark.
    fn send<R: Wait>(&self, rt: &R, moment: Option<u64>, what: What) {
        if let Some((server, mark)) = what.marking() {
            self.meter.set_mark(server, mark, moment.unwrap_or(0));
        }
        self.log.send(rt, LogEvent { moment, what });
    }
}
