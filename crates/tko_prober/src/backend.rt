//! What a worker has of the servers.

use crate::Probers;

/// The health of the servers, the links to them, the probers of marked servers, and the clock by
/// which these are due.
#[derive(Drop)]
pub struct Backend<H, L, C> {
    pub health: H,
    pub links: L,
    pub probers: Probers,
    pub clock: C,
}
