//! Routing with failover: one request goes from target to target until one answers.
//!
//! - `Health` of tko_health: what is known of the servers, and what a router reports of them;
//!   `PlainHealth` keeps it for one thread, and `LockedHealth` for several, in a lock.
//! - `Attempt` and `Trail`: what was done at one target, and at all of them in order.
//! - `Stage`: how far a routed request came: what it sends next, or its trail; `AwaitedSend`, the
//!   same while that send is out.
//! - `record_outcome`: records what came of a send, once for all requests that share it.
//! - `route`: makes the trail of a request, as a `Routed` or, out of memory, a `RouteFault`.
#![tactic(auto)]

mod attempt;
mod failover;
mod recording;
mod routed;
mod routing;

pub use attempt::{Attempt, Trail};
pub use failover::route;
pub use recording::record_outcome;
pub use routed::{RouteFault, Routed};
pub use routing::{AwaitedSend, Stage};
pub use tko_health::{Health, LockedHealth, PlainHealth};
