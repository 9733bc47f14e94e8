//! What all clients of a worker share.
ghost use Rattle.std.specs.Prelude.{◌≡◌, length};

use crate::Sends;
use std::alloc::Global;
use tko_health::Health;
use tko_session::Parts;

/// What all clients of a worker share: the runtime and the memory that their calls need, and the
/// parts that their sessions work on. Health and the counts of sends have the servers of the
/// configuration.
#[derive(Drop)]
pub struct Lent<'r, R, H: Health, T, C> {
    pub rt: &'r R,
    pub alloc: Global,
    pub parts: Parts<H, Sends, T, C>,
    ghost health: { H.servers parts.backend.health ≡ length parts.config.addresses },
    ghost links: { length parts.backend.links ≡ length parts.config.addresses },
}

impl<'r, R, H: Health, T, C> Lent<'r, R, H, T, C> {
    /// These parts are lent.
    pub fn new(rt: &'r R, alloc: Global, parts: Parts<H, Sends, T, C>) -> Lent<'r, R, H, T, C>
        requires health { H.servers parts.backend.health ≡ length parts.config.addresses }
        requires links { length parts.backend.links ≡ length parts.config.addresses }
        ensures { result.parts ≡ parts }
    {
        Lent { rt, alloc, parts }
    }
}
