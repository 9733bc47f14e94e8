//! The pools of which the health is shown.
ghost use Rattle.std.specs.Prelude.{IfOk};
ghost use Rattle.tko_server.specs.Beside.{AreRoutePools};

use std::alloc::{AllocError, Global};
use tko_metrics::ShownPool;
use tko_pools::Config;

/// The pools of the route of a configuration, in its order.
pub(crate) fn route_pools(alloc: Global, config: &Config) -> Result<Vec<ShownPool>, AllocError>
    ensures { IfOk result (λ pools. AreRoutePools config.now pools.items) }
{
    let names = config.names();
    let mut pools = Vec::new(alloc);
    for (place, name) in names.iter().enumerate() {
        let name = String::from_str(alloc, name.as_str())?;
        let servers = config.servers_of(place).to_vec(alloc)?;
        pools.push(ShownPool { name, servers })?;
    }
    Ok(pools)
}
