//! What an event-driven worker does for its clients, from one event to the next. There is no
//! socket, no clock and no handle here.
//!
//! - `Worker`: the clients, and which of them are to be served.
//! - `EndCounts`: how many clients ended, by how they did.
//! - `EventWorker`: the same with the servers; `Outlook`: what lies ahead of these at the end of a
//!   turn.
//! - `acts_compose`, `clients_act`: laws. What the clients did by several calls.
#![tactic(auto)]

mod ends;
mod event_worker;
mod giving_up;
mod law;
mod numbers;
mod resting;
mod rounds;
mod servers;
mod serving;
mod turns;
mod worker;

pub use ends::{BinaryClients, EndCounts};
pub use event_worker::EventWorker;
pub use law::{acts_compose, clients_act};
pub use resting::{Outlook, earlier};
pub use worker::Worker;
