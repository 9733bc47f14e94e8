//! The rounds of probes of an event-driven worker.
//!
//! - `Rounds`: what a worker knows of its probes: how often each server was probed, and which have
//!   a probe out. `run` is a round: it takes what came of the probes since the last one, and sends
//!   those that are due.
#![tactic(auto)]

mod coming;
mod rounds;
mod running;
mod visits;

pub use rounds::Rounds;
