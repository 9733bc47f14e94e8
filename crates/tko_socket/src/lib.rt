//! Sockets of the system that do not wait, as ports of an event-driven worker.
//!
//! - `Socket`: a connection over TCP, registered once at a poll of mio; `Connecting`: how far it is
//!   while it is being made.
//! - `Trace`: the bytes that went one way, which only proofs read.
#![tactic(auto)]

mod calls;
mod socket;
mod trace;

pub use socket::{Connecting, Socket};
pub use trace::Trace;
