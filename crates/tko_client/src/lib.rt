//! A client of an event-driven worker: its session, driven from one event to the next. There is no
//! socket and no clock here.
//!
//! - `EventClient`: a client's session as its port sees it (`Talking` of tko_port). It asks
//!   servers and does not wait for them.
//! - `Lent`: what all clients of a worker share: the health of the servers, the configuration, the
//!   observer, and how often each server was sent to (`Sends`).
//! - `each_lives`: a law. What is done with a client is one session's life.
#![tactic(auto)]

mod answering;
mod arriving;
mod boxed_keys;
mod calls;
mod client;
mod counting;
mod going;
mod halt;
mod handing;
mod keys;
mod law;
mod lent;
mod moments;
mod sends;
mod taking;

pub use client::{ClientStanding, EventClient};
pub use law::each_lives;
pub use lent::Lent;
pub use sends::Sends;
