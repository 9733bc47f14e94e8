//! Workers on threads of their own, each of which serves one connection after another.
//!
//! - `Source`: where a worker's connections come from; `Next` is what it gives.
//! - `Account`: a worker's share of a ledger, and the book that all workers share.
//! - `WorkerParts`: what a worker works with; `worker` works until its source is closed, and
//!   `WorkerReport` says what it met.
//! - `Member`: what one worker of a `pool` is started with. `lend_all` takes the passes of workers
//!   from a desk, and `work` runs a pool whose passes go back there; a `PassMember` has one.
//! - `Metered`: a worker's observer, which counts, meters and logs; `leave` gives a seat back.
//! - `Patience`: how long a worker waits for a client.
#![tactic(auto)]

mod account;
mod attended;
mod client_clock;
mod keepalive;
mod leaving;
mod lending;
mod metered;
mod paced;
mod patience;
mod pooling;
mod report;
mod request_times;
mod source;
mod tallied;
mod watch;
mod working;

pub use account::Account;
pub use leaving::leave;
pub use lending::{PassMember, lend_all, work};
pub use metered::Metered;
pub use patience::{IDLE, Patience};
pub use pooling::{Member, pool};
pub use report::WorkerReport;
pub use source::{Next, Source, Visitor};
pub use working::{WorkerParts, worker};

#[cfg(test)]
mod tests;
