//! The end of the log that gives events.

use crate::event::{LogEvent, What};
use crate::journal::Journal;
use crate::line_writer::LineWriter;
use crate::log::SharedLog;
use crossbeam_channel::{Receiver, RecvTimeoutError};
use std::alloc::{AllocError, Global};
use std::sync::atomic::Ordering;
use std::sync::{Arc, Wait};
use std::time::{Clock, Duration};
use tko_metrics::moment_now;

/// How long it waits for the next event, in milliseconds.
const TURN: u64 = 1000;

/// How long the sum of the clients is kept back at least, in milliseconds.
const SUM_EVERY: u64 = 10_000;

/// The end of the log that gives events.
#[derive(Drop)]
pub struct LogReader {
    pub(crate) receiver: Receiver<LogEvent>,
    pub(crate) shared: Arc<SharedLog, Global>,
}

/// What was written of the clients.
#[derive(Clone, Copy)]
struct Sum {
    moment: u64,
    faults: u64,
}

impl LogReader {
    /// Writes a line for each event to standard error, until the log has ended. A line that cannot
    /// be written, or for which there is no memory, is lost, and counts as an event that was lost.
    pub fn write_lines<R: Wait + Clock + Eprint>(
        &self,
        rt: &R,
        alloc: Global,
        journal: &mut Journal,
    ) {
        let mut sum = Sum {
            moment: moment_now(rt),
            faults: 0,
        };
        let mut writer = LineWriter::new();
        for _ in rt.forever() {
            let came = self.receiver.recv_timeout(rt, Duration::from_millis(TURN));
            self.write_lost(rt, &mut writer);
            match came {
                Ok(event) if event.what == What::Ended => break,
                Ok(event) => write_event(rt, alloc, journal, &mut writer, event),
                Err(RecvTimeoutError::Timeout) if self.has_ended() => break,
                Err(RecvTimeoutError::Timeout) => {}
                Err(RecvTimeoutError::Disconnected) => break,
            }
            self.write_sum(rt, alloc, journal, &mut writer, &mut sum, SUM_EVERY);
        }
        self.write_sum(rt, alloc, journal, &mut writer, &mut sum, 0);
        let ended = LogEvent {
            moment: None,
            what: What::Ended,
        };
        write_event(rt, alloc, journal, &mut writer, ended);
    }

    fn has_ended(&self) -> bool {
        self.shared.ended.load(Ordering::SeqCst) == 1
    }

    /// Writes how many events were lost since the last such line, if there are any.
    fn write_lost<R: Wait + Clock + Eprint>(&self, rt: &R, writer: &mut LineWriter) {
        writer.lose(self.shared.lost.swap(0, Ordering::SeqCst));
        writer.write_lost(rt, moment_now(rt));
    }

    /// Writes the sum of the clients, where more of them ended by a fault, at most once in this
    /// many milliseconds.
    fn write_sum<R: Wait + Clock + Eprint>(
        &self,
        rt: &R,
        alloc: Global,
        journal: &mut Journal,
        writer: &mut LineWriter,
        sum: &mut Sum,
        every: u64,
    ) {
        let moment = moment_now(rt);
        let faults = self.shared.faults.load(Ordering::SeqCst);
        if faults == sum.faults || moment.saturating_sub(sum.moment) < every {
            return;
        }
        *sum = Sum { moment, faults };
        let sessions = self.shared.sessions.load(Ordering::SeqCst);
        let event = LogEvent {
            moment: Some(moment),
            what: What::Clients { sessions, faults },
        };
        write_event(rt, alloc, journal, writer, event);
    }
}

/// Writes the line of an event.
fn write_event<R: Clock + Eprint>(
    rt: &R,
    alloc: Global,
    journal: &mut Journal,
    writer: &mut LineWriter,
    event: LogEvent,
) {
    match journal.line(alloc, event, moment_now(rt)) {
        Ok(line) => writer.write(rt, line.as_str()),
        Err(_) => writer.lose(1),
    }
}
