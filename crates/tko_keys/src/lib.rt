//! The keys of one request for several, of which some are under way at once.
//!
//! - `KeysAtOnce`: the keys as a value that sends nothing itself. Its calls are lent the servers'
//!   health and the configuration, and return how far a key came, a `KeyStep`. A key that is due at
//!   a server goes out in a request of its own, or with the others that are due there (`KeyPlan`,
//!   `Grouping`). Several requests of it may be under way; a call takes what came of the first of
//!   them at a server, and its keys are then taken on one after another. Each response is kept
//!   until the reply is complete.
#![tactic(auto)]

mod come;
mod due;
mod keys_at_once;
mod laws;
mod line;
mod plan;
mod slot;
mod step;
mod under_way;

pub use keys_at_once::{KeysAtOnce, Sending};
pub use laws::keys_life;
pub use plan::{Grouping, KeyPlan};
pub use step::KeyStep;
pub use tko_reply::Dropped;
