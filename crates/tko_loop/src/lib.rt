//! The loop of one event-driven worker: a poll of the system, and what is done at each of its
//! returns, which is a turn of events.
//!
//! - `EventLoop`: the worker with its poll, its clock and its servers' addresses; `NextTurn`:
//!   whether another turn follows.
//! - `Handover` and `LoopEntry`: the two ends of the way of clients from another thread to the
//!   loop; `Arrival`: a client on it.
//! - `Host`: makes the sessions of those that came, and runs a round at the end of each turn.
//! - `LoopLimits`: how long the loop waits for clients and servers, and how many bytes of replies
//!   may wait.
//! - `Load`: how much the worker serves, which the host is told after each walk.
//! - `ServerLack`: what the proxy itself lacked for a connection, which the host is told.
//! - `Held`: a client's socket, and what is kept until that is closed.
//! - `Addresses`: where a server may be, each tried in turn.
//! - A walk is a look at each client, each 100 ms: one that does not keep its limits is to leave.
//! - A seat is the place of a client's socket in the poll's tokens; the worker gives a client's
//!   number only after its socket was registered.
#![tactic(auto)]

mod addresses;
mod connecting;
mod event_loop;
mod handover;
mod held;
mod host;
mod limits;
mod load;
mod noted;
mod noting;
mod offering;
mod pause;
mod seats;
mod targets;
mod times;
mod turn_clock;
mod walk;

pub use addresses::Addresses;
pub use connecting::ServerLack;
pub use event_loop::{EventLoop, NextTurn};
pub use handover::{Arrival, Handover, LoopEntry};
pub use held::Held;
pub use host::Host;
pub use limits::LoopLimits;
pub use load::Load;
pub use turn_clock::TurnClock;
