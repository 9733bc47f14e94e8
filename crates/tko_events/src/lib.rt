//! The event log of a server, beside its workers: each mark of a server that was set, hardened or
//! removed, each probe, what the proxy itself lacks, and names that cannot be looked up, as lines
//! of text.
//!
//! - `LogEvent`: what the log tells, with its moment. `ServerChange` is what became of a server's
//!   mark, or that it was probed, and `Cause` what came of the send or of the probe.
//! - `Log`: takes events from any thread and never waits for a reader; `open` makes it with its
//!   `LogReader`, whose `write_lines` writes a line for each event.
//! - `WorkerLog`: one worker's end of the log, which is told each attempt, probe and release.
//! - `Journal`: the lines, with what they know of the servers.
//!
//! The meter of tko_metrics goes with the log: each mark is set there too.
#![tactic(auto)]

mod event;
mod journal;
mod lacks;
mod line_writer;
mod log;
mod moment;
mod reader;
mod said_counts;
mod slow;
mod worker_log;

pub use event::{Cause, LogEvent, ServerChange, What};
pub use journal::Journal;
pub use log::{Log, open};
pub use reader::LogReader;
pub use worker_log::WorkerLog;
