//! The configuration without pools.
ghost use Rattle.std.specs.Prelude.{◌≡◌, ◌≤◌, ℕ, [], ◌∷◌, List, IfOk, length, map, string_bytes};
ghost use Rattle.tko_pools.specs.Configs.{alone, in_order, numbers_below, targets_of};
ghost use Rattle.tko_model.specs.Limits.{max_servers};

use super::Config;
use crate::child::Child;
use crate::numbering::{NumberedAddresses, copy_texts};
use crate::route::DEFAULT_EXPTIME;
use std::alloc::Global;
use tko_bytes::NoMemory;

impl Config {
    /// The configuration of servers without pools: every key has all of them as its targets, in the
    /// order of these addresses. The servers are all in one group.
    pub fn in_order(alloc: Global, addresses: Vec<String>) -> Result<Config, NoMemory>
        requires few { length addresses.items ≤ max_servers }
        ensures value { IfOk result (λ config.
            config ≡ in_order (map string_bytes addresses.items)) }
        ensures targets { IfOk result (λ config. (key : List ℕ) →
            targets_of config key ≡ numbers_below (length addresses.items)) }
    {
        Ok(Config {
            groups: vec![in alloc; 0; addresses.len()]?,
            soft_limits: vec![in alloc; None; 1]?,
            children: children_in_order(alloc, addresses.len())?,
            names: copy_texts(alloc, &addresses)?,
            addresses: NumberedAddresses::of(addresses),
            failover_exptime: DEFAULT_EXPTIME,
        })
    }
}

/// Children of one server each, `count` of them.
fn children_in_order(alloc: Global, count: usize) -> Result<Vec<Child>, NoMemory>
    ensures { IfOk result (λ children. children.items ≡ map alone (numbers_below count)) }
{
    let mut children = Vec::with_capacity(alloc, count)?;
    for number in 0..count {
        children.push(Child::alone(alloc, number)?)?;
    }
    Ok(children)
}
