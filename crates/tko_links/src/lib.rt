//! The links to the servers: one request out, and what came of it.
//!
//! - `Links`: sends a request to a server and counts it. What came of it is an `Outcome`, or
//!   `ExchangeNoMemory`, which says whether the request was counted.
//! - `Scripted`: links in memory that play a list of `Script`s, and keep the bytes of each request
//!   as a `RequestText`.
//! - `Wire`: the connections to the servers and their bytes; `counted` and `counted_write` count
//!   what failed on them. tko_tcp has the wire over TCP.
//! - `Wired`: links over a wire.
#![tactic(auto)]

mod counting;
mod exchanging;
mod fault;
mod incoming;
mod laws;
mod links;
mod read_buffer;
mod scripted;
mod wire;
mod wired;
mod wired_law;

pub use counting::{counted, counted_write};
pub use laws::scripted_replays;
pub use links::{ExchangeNoMemory, Links, Outcome};
pub use scripted::{RequestText, Script, Scripted};
pub use wire::{Wire, WireFault};
pub use wired::Wired;
pub use wired_law::wired_records;
