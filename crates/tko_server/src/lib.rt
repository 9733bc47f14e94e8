//! The server over TCP: it accepts connections and serves them by workers on threads of their own.
//!
//! - `run`: accepts connections over TCP and serves them by a pool, as its `Options` say;
//!   `run_to_end` says what the workers met too.
//! - `run_all`: what `run_to_end` does, with all that a `ServerRun` names: which workers serve, a
//!   `Logging` that writes the event log meanwhile, a `Metering` that has the metrics answered for,
//!   and an `Announce`, which announces that clients can connect once the `FirstAsks` of all
//!   workers are there.
//!
//! The workers are those of tko_threads and tko_event_threads, and tko_accept hands the clients to
//! them. The crates above get the first two from here too.
#![tactic(auto)]

mod announce;
mod beside;
mod by_turns;
mod crew;
mod ending;
mod event_members;
mod logging;
mod members;
mod metering;
mod naming;
mod opening;
mod route_pools;
mod run_fault;
mod running;
mod serving;
mod starting;
mod threads;
mod tracked;

pub use announce::{Announce, AnnounceFault};
pub use beside::{ServerRun, run_all};
pub use crew::WorkerKind;
pub use logging::Logging;
pub use metering::Metering;
pub use run_fault::ServerRunFault;
pub use running::{Ended, Options, Ran, run, run_to_end};
pub use tko_accept::{Allotment, FirstAsks};
pub use tko_threads::{
    Account, Member, Next, Patience, Source, WorkerParts, WorkerReport, pool, worker,
};
