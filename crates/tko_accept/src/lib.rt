//! Accepting clients: a thread accepts their connections and hands them to workers.
//!
//! - `Listening`: the listener, and the results of its accepts. `accept_all` accepts from it, and
//!   an `AcceptEnd` says why it ended.
//! - `Entrance`: gives each connection a place and hands it to the workers. A `Room` has a limited
//!   number of places, and a client keeps its `ClientPlace` until it is closed.
//! - `Way`: how a client is handed to a worker; `OneQueue` does so for workers that serve one
//!   client after another.
//! - `AcceptedClient`: the two ends of a client's connection over TCP; `Clients` is a worker's
//!   source of them.
//! - `FirstAsks`: whether each worker has asked for its first connection, which it reports by its
//!   `FirstAsk`.
//! - `Allotment`: how many workers and clients the process has descriptors for.
#![tactic(auto)]

mod accepting;
mod allotment;
mod clients;
mod first_asks;
mod listening;
mod room;
mod way;

pub use accepting::{AcceptEnd, Entrance, accept_all};
pub use allotment::{Allotment, MAX_QUEUED};
pub use clients::{AcceptedClient, Clients};
pub use first_asks::{FirstAsk, FirstAsks, first_asks_of};
pub use listening::Listening;
pub use room::{ClientPlace, Room};
pub use way::{OneQueue, Way};
