//! What a session is served over.

use tko_pools::Config;
use tko_prober::Backend;

/// What the worker has of the servers, what records the trails, and the configuration, which
/// chooses the targets of each key.
#[derive(Drop)]
pub struct Parts<H, L, T, C> {
    pub backend: Backend<H, L, C>,
    pub trails: T,
    pub config: Config,
}
