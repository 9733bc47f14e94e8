//! What is wrong with a configuration.
ghost use Rattle.std.specs.Prelude.{◌≡◌, None, IfErr, IfOk, map, option_map};
ghost use Rattle.serde_json.specs.View.{items_view, members_view, view};
ghost use Rattle.tko_pools.specs.Json.{pool_list, pool_of, pools_of, texts_of};
ghost use Rattle.tko_pools.specs.PlacementFlaws.{placement_flaw};
ghost use Rattle.tko_pools.specs.Reasons.{BadKey, Reports, bad_address, pool_reason, pools_reason, unknown_child};

use crate::ConfigFault;
use crate::address::is_address;
use crate::json::{servers_of, text_of};
use crate::placement_flaws::placement_flaw;
use crate::soft_limits::has_no_limit;
use serde_json::{Map, Value};
use std::alloc::Global;
use tko_bytes::NoMemory;

/// Fails with what is wrong with the first pool that is wrong.
pub(crate) fn check_pools(alloc: Global, pools: &Value) -> Result<(), ConfigFault>
    ensures ok { IfOk result (λ _. pools_reason (pool_list (view pools.now)) ≡ None) }
    ensures err { IfErr result (λ fault.
        Reports (pools_reason (pool_list (view pools.now))) fault) }
{
    match pools.as_object() {
        Some(members) => check_members(alloc, members),
        None => Ok(()),
    }
}

fn check_members(alloc: Global, pools: &Map<String, Value>) -> Result<(), ConfigFault>
    ensures ok { IfOk result (λ _.
        pools_reason (pools_of (members_view pools.now.entries)) ≡ None) }
    ensures err { IfErr result (λ fault.
        Reports (pools_reason (pools_of (members_view pools.now.entries))) fault) }
{
    for (name, value) in pools {
        check_pool(alloc, name.as_str(), value)?;
    }
    Ok(())
}

/// Fails with what is wrong with a pool.
fn check_pool(alloc: Global, name: &str, value: &Value) -> Result<(), ConfigFault>
    ensures ok { IfOk result (λ _. pool_reason (pool_of name.now (view value.now)) ≡ None) }
    ensures err { IfErr result (λ fault.
        Reports (pool_reason (pool_of name.now (view value.now))) fault) }
{
    let servers = servers_of(value);
    if servers.is_empty() {
        return Err(ConfigFault::EmptyPool(String::from_str(alloc, name)?));
    }
    if let Some(text) = bad_address(servers) {
        return Err(ConfigFault::Address(String::from_str(alloc, text)?));
    }
    if has_no_limit(value) {
        return Err(ConfigFault::SoftLimit(String::from_str(alloc, name)?));
    }
    check_keys(alloc, name, value)
}

/// Fails with the first key of a pool that does not say how it spreads keys over its servers.
fn check_keys(alloc: Global, name: &str, value: &Value) -> Result<(), ConfigFault>
    ensures ok { IfOk result (λ _.
        option_map (λ key. BadKey key name.now) (placement_flaw (view value.now)) ≡ None) }
    ensures err { IfErr result (λ fault.
        Reports (option_map (λ key. BadKey key name.now) (placement_flaw (view value.now))) fault) }
{
    match placement_flaw(alloc, value) {
        Ok(Some(key)) => Err(ConfigFault::PoolKey(key, String::from_str(alloc, name)?)),
        Ok(None) => Ok(()),
        Err(NoMemory) => Err(ConfigFault::Memory),
    }
}

/// The first item of a pool's list that is no address.
fn bad_address(servers: &[Value]) -> Option<&str>
    ensures { option_map (λ text. text.now) result
        ≡ bad_address (texts_of (items_view servers.now)) }
{
    for value in servers {
        let text = text_of(value);
        if !is_address(text.as_bytes()) {
            return Some(text);
        }
    }
    None
}

/// The first child that names no pool.
pub(crate) fn unknown_child<'a>(pools: &Value, children: &[&'a str]) -> Option<&'a str>
    ensures { option_map (λ name. name.now) result
        ≡ unknown_child (view pools.now) (map (λ name. name.now) children.now) }
{
    for name in children {
        if pools.get(*name).is_none() {
            return Some(*name);
        }
    }
    None
}
