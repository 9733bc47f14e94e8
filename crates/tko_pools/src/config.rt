//! A configuration and how it is read.
ghost use Rattle.std.specs.Prelude.{◌≡◌, ◌<◌, [], None, IfOk, IfErr, OnOk, OnErr, length, map, option_map, string_bytes, unwrap_or};
ghost use Rattle.serde_json.specs.View.{view};
ghost use Rattle.tko_pools.specs.Configs.{IsConfiguration, IsMeaning, IsRoot, Means, Refuses};
ghost use Rattle.tko_pools.specs.Json.{pool_list};
ghost use Rattle.tko_pools.specs.Reasons.{Reports, children_reason, pools_reason, reason_of};

mod copying;
mod in_order;
mod route_pools;

use crate::ConfigFault;
use crate::child::Child;
use crate::children::children_of;
use crate::config::route_pools::{addresses_of, copied_names};
use crate::flaws::{check_pools, unknown_child};
use crate::groups::ServerGroups;
use crate::json::pools_in;
use crate::numbering::NumberedAddresses;
use crate::route::Route;
use crate::targets::push_targets;
use serde_json::Value;
use std::alloc::{AllocError, Global};
use std::marker::Model;
use tko_bytes::NoMemory;
use tko_ring::Ring;

/// The most different addresses of all children together.
const MAX_ADDRESSES: usize = tko_model::MAX_SERVERS as usize;

/// A configuration: the addresses of the servers by their numbers, the servers of each child of the
/// route, and the groups of the servers. In contracts it is a `Configuration`.
#[derive(Drop)]
pub struct Config {
    addresses: NumberedAddresses,
    /// Of each child: the name of its pool.
    names: Vec<String>,
    children: Vec<Child>,
    failover_exptime: u32,
    /// Of each server: the number of its group.
    groups: Vec<u32>,
    /// Of each group: the soft limit of its pool, if the pool has one.
    soft_limits: Vec<Option<u32>>,
}

impl Model for Config {
    ghost use Rattle.std.specs.Prelude.{map, string_bytes};
    ghost use Rattle.tko_pools.specs.Configs.{Configuration, IsSoundConfig};

    ghost Value = { Configuration };

    ghost view = { λ c. record {
      addresses = c.addresses;
      names = map string_bytes c.names.items;
      children = c.children.items;
      failover_exptime = c.failover_exptime;
      groups = c.groups.items;
      soft_limits = c.soft_limits.items;
    } };

    ghost invariant = { λ c. IsSoundConfig (record {
      addresses = c.addresses;
      names = map string_bytes c.names.items;
      children = c.children.items;
      failover_exptime = c.failover_exptime;
      groups = c.groups.items;
      soft_limits = c.soft_limits.items;
    }) };
}

impl Config {
    /// Reads a configuration's JSON text.
    pub fn read(alloc: Global, text: &[u8]) -> Result<Config, ConfigFault>
        ensures ok { IfOk result (λ config. Means text.now config) }
        ensures err { IfErr result (λ fault. Refuses text.now fault) }
    {
        let root = root_of(alloc, text)?;
        Config::of(alloc, &root)
    }

    /// The configuration that an object means.
    fn of(alloc: Global, root: &Value) -> Result<Config, ConfigFault>
        ensures ok { IfOk result (λ config. IsMeaning (view root.now) config) }
        ensures err { IfErr result (λ fault. Reports (reason_of (view root.now)) fault) }
    {
        let Some(pools) = pools_in(root) else {
            return Err(ConfigFault::NoPools);
        };
        check_pools(alloc, pools)?;
        match Route::of(alloc, root)? {
            Some(route) => Config::over(alloc, pools, &route),
            None => Err(ConfigFault::Route),
        }
    }

    /// The configuration of a route over pools without a flaw.
    fn over(alloc: Global, pools: &Value, route: &Route<'_>) -> Result<Config, ConfigFault>
        requires sound { pools_reason (pool_list (view pools.now)) ≡ None }
        requires some { 0 < length route.now.children }
        ensures ok { IfOk result (λ config.
            IsConfiguration (view pools.now) route.now config) }
        ensures sound { IfOk result (λ config.
            children_reason (view pools.now) route.now.children ≡ None) }
        ensures err { IfErr result (λ fault.
            Reports (children_reason (view pools.now) route.now.children) fault) }
    {
        let names = route.children();
        if let Some(name) = unknown_child(pools, names) {
            return Err(ConfigFault::NoSuchPool(String::from_str(alloc, name)?));
        }
        let addresses = addresses_of(alloc, pools, names)?;
        if addresses.len() > MAX_ADDRESSES {
            return Err(ConfigFault::TooManyServers);
        }
        let copies = copied_names(alloc, names)?;
        let children = children_of(alloc, &addresses, pools, names)?;
        let grouping = ServerGroups::of(alloc, pools, names, &children, addresses.len())?;
        Ok(Config {
            addresses,
            names: copies,
            children,
            failover_exptime: route.failover_exptime(),
            groups: grouping.groups,
            soft_limits: grouping.soft_limits,
        })
    }
}

impl Config {
    ghost use Rattle.tko_pools.specs.Configs.{AreGroups, AreOwners, AreServers, limits_of, ring_at, targets_of};

    /// The targets of a key, in the order of the children.
    pub fn targets(&self, alloc: Global, key: &[u8]) -> Result<Vec<usize>, NoMemory>
        ensures value { IfOk result (λ targets. targets.items ≡ targets_of self.now key.now) }
        ensures within { AreServers self.now (targets_of self.now key.now) }
        ensures owners { AreOwners self.now key.now (targets_of self.now key.now) }
    {
        let mut targets = Vec::new(alloc);
        self.replace_targets(key, &mut targets)?;
        Ok(targets)
    }

    /// Puts the targets of a key into a list, in place of what it held. At an `Err` it is empty.
    #[tactic(auto, unfolding(crate::specs::Configs::targets_of))]
    pub fn replace_targets(&self, key: &[u8], targets: &mut Vec<usize>) -> Result<(), NoMemory>
        ensures ok { OnOk result (targets.new.items ≡ targets_of self.now key.now) }
        ensures within { AreServers self.now (targets_of self.now key.now) }
        ensures owners { AreOwners self.now key.now (targets_of self.now key.now) }
        ensures err { OnErr result (targets.new.items ≡ []) }
    {
        targets.clear();
        let done = push_targets(key, &self.children, targets);
        if done.is_err() {
            targets.clear();
        }
        done
    }

    /// The points of the child at this place, if it has a ring.
    pub fn ring(&self, child: usize) -> Option<&Ring>
        ensures { option_map (λ ring. ring.now) result ≡ ring_at self.now child }
    {
        self.children.get(child)?.ring()
    }

    /// The addresses of the servers, each at its number.
    pub fn addresses(&self) -> &[String]
        ensures { map string_bytes result.now ≡ self.now.addresses }
    {
        self.addresses.texts()
    }

    /// How many servers there are.
    pub fn servers(&self) -> u32
        ensures { result ≡ length self.now.addresses }
    {
        self.addresses.len() as u32
    }

    /// The group of each server. A server is in the group of the first child that holds it.
    pub fn groups(&self) -> &[u32]
        ensures value { result.now ≡ self.now.groups }
        ensures sound { AreGroups self.now }
    {
        self.groups.as_slice()
    }

    /// The soft limit of each group: that of its pool, or `default` if the pool has none.
    pub fn limits(&self, alloc: Global, default: u32) -> Result<Vec<u32>, NoMemory>
        ensures { IfOk result (λ limits. limits.items ≡ limits_of self.now default) }
    {
        limits_or(alloc, &self.soft_limits, default)
    }

    /// The greatest expiry that a storage command keeps after its first target, in seconds; 0
    /// stands for any.
    pub fn failover_exptime(&self) -> u32
        ensures { result ≡ self.now.failover_exptime }
    {
        self.failover_exptime
    }
}

/// The limits, and this one where there is none.
fn limits_or(alloc: Global, limits: &[Option<u32>], default: u32) -> Result<Vec<u32>, NoMemory>
    ensures { IfOk result (λ numbers. numbers.items
        ≡ map (λ limit. unwrap_or limit default) limits.now) }
{
    let mut numbers = Vec::with_capacity(alloc, limits.len())?;
    for limit in limits {
        numbers.push(limit.unwrap_or(default))?;
    }
    Ok(numbers)
}

/// The object that a text is the JSON of.
fn root_of(alloc: Global, text: &[u8]) -> Result<Value, ConfigFault>
    ensures ok { IfOk result (λ root. IsRoot text.now (view root)) }
    ensures err { IfErr result (λ fault. Refuses text.now fault) }
{
    match Value::from_slice(alloc, text) {
        Ok(root) if root.is_object() => Ok(root),
        Ok(_) => Err(ConfigFault::Json),
        Err(error) if error.is_memory() => Err(ConfigFault::Memory),
        Err(_) => Err(ConfigFault::Json),
    }
}
