//! One request of a client, answered by the proxy itself or key by key.
//!
//! - `OneKey`: a key of a request as a value that sends nothing itself, changed in place to the
//!   next one. Its calls are lent the servers' health and the configuration, and return how far
//!   the key came, the `Stage` of its routing. Where memory runs out they return the `Dropped`
//!   attempts; `stop` does where it runs out at a send. The reply is put at the end of an `Outbox`,
//!   the replies that wait to be written.
//! - `KeysLeft`: the keys of a request that are still to be asked for; `split_keys` takes them out
//!   of a request that `has_several`. `OneKey::one_of` is a request for one of them, whose response
//!   is kept apart from those of the others. `in_turn`: what a reply is where at most one key of a
//!   request is under way.
//! - `Parts`: what a session is served over: the `Backend` of the worker, the configuration, and
//!   `Trails`, which records each request and each trail. `Kept` keeps the trails, and `Counts`
//!   of tko_model counts what is in them.
//! - `status`: the mark of each server as text.
#![tactic(auto)]

mod asking;
mod counting;
mod dropped;
mod keys_left;
mod law;
mod outbox;
mod parts;
mod requests;
mod status_text;
mod targets;
mod trails;

pub use asking::OneKey;
pub use dropped::{Dropped, stop};
pub use keys_left::KeysLeft;
pub use law::in_turn;
pub use outbox::Outbox;
pub use parts::Parts;
pub use requests::{has_several, split_keys};
pub use status_text::status;
pub use tko_model::Counts;
pub use trails::{Kept, Trails};
