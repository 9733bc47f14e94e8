//! The pools of the route: their names, and their servers.
ghost use Rattle.std.specs.Prelude.{◌≡◌, IfOk, length, map, string_bytes};
ghost use Rattle.serde_json.specs.View.{view};
ghost use Rattle.tko_pools.specs.Configs.{addresses_of, servers_at};

use super::Config;
use crate::json::servers_named;
use crate::numbering::NumberedAddresses;
use serde_json::Value;
use std::alloc::{AllocError, Global};

impl Config {
    /// The names of the pools of the route, in its order: one for each child.
    pub fn names(&self) -> &[String]
        ensures value { map string_bytes result.now ≡ self.now.names }
        ensures each { length self.now.names ≡ length self.now.children }
    {
        self.names.as_slice()
    }

    /// The numbers of the servers of the child at this place; none if there is no such child.
    pub fn servers_of(&self, child: usize) -> &[usize]
        ensures { result.now ≡ servers_at self.now child }
    {
        match self.children.get(child) {
            Some(child) => child.servers(),
            None => &[],
        }
    }
}

/// Copies of the names of a route, in its order.
pub(super) fn copied_names(alloc: Global, names: &[&str]) -> Result<Vec<String>, AllocError>
    ensures { IfOk result (λ copies.
        map string_bytes copies.items ≡ map (λ name. name.now) names.now) }
{
    let mut copies = Vec::with_capacity(alloc, names.len())?;
    for name in names {
        copies.push(String::from_str(alloc, name)?)?;
    }
    Ok(copies)
}

/// The addresses of these pools.
pub(super) fn addresses_of(
    alloc: Global,
    pools: &Value,
    names: &[&str],
) -> Result<NumberedAddresses, AllocError>
    ensures { IfOk result (λ addresses. addresses
        ≡ addresses_of (view pools.now) (map (λ name. name.now) names.now)) }
{
    let mut addresses = NumberedAddresses::new(alloc);
    for name in names {
        addresses.add_all(alloc, servers_named(pools, name))?;
    }
    Ok(addresses)
}
