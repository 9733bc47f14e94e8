//! How far a key of a request came by one call.

use tko_model::Clear;
use tko_route::Trail;

/// What a call says of the key that it was about.
#[derive(Drop)]
pub enum KeyStep {
    /// It is due at this server: `send` makes a request of it, with others or alone.
    Due(usize),
    /// The attempts at it ended; these are to be recorded. Its response is kept.
    Tried(Trail),
}

/// The same of a key's slot; where it is due it has the permission to send.
#[derive(Drop)]
pub(crate) enum SlotStep {
    Due(Clear),
    Tried(Trail),
}
