//! One event-driven worker on a thread: many clients at once, from the seat that it takes to the
//! one that it gives back.
//!
//! - `EventParts`: what such a worker works with; `event_worker` works until no client is left and
//!   none can come, and a `WorkerReport` says what it met.
//! - An origin names where a worker began: the health of its seat, and the share of its account.
//!   `SeatHealth` is its health, which was reached from there, and `Accounted` its observer.
//! - `EventHost`: what its loop calls: it makes the sessions of clients, and runs the rounds.
#![tactic(auto)]

mod accounted;
mod ends;
mod host;
mod loads;
mod origin;
mod seated;
mod working;

pub use working::{EventParts, event_worker};
