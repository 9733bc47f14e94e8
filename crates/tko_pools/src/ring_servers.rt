//! The servers of a pool, as the points of its ring depend on them.
ghost use Rattle.std.specs.Prelude.{◌≡◌, IfOk, IsTrue, map, option_map};
ghost use Rattle.serde_json.specs.View.{items_view, view};
ghost use Rattle.tko_pools.specs.Json.{texts_of};
ghost use Rattle.tko_pools.specs.RingServers.{are_distinct, are_fit, is_in_names, ring_name, named_from, named_servers, weight_at, weight_value};
ghost use Rattle.tko_ring.specs.Servers.{AreWeighed};

use crate::json::{servers_of, text_of};
use serde_json::Value;
use std::alloc::Global;
use tko_bytes::NoMemory;
use tko_ring::{MAX_WEIGHT, Server, are_weighed, default_name};

/// The servers of a pool with their names and weights.
#[tactic(auto, unfolding(crate::specs::RingServers::named_servers))]
pub(crate) fn named_servers(alloc: Global, pool: &Value) -> Result<Vec<Server>, NoMemory>
    ensures { IfOk result (λ servers. servers.items ≡ named_servers (view pool.now)) }
{
    let (names, weights) = (pool.get("names"), pool.get("weights"));
    servers_named(alloc, names, weights, servers_of(pool))
}

/// The servers of a list of addresses, with these names and weights.
fn servers_named(
    alloc: Global,
    names: Option<&Value>,
    weights: Option<&Value>,
    addresses: &[Value],
) -> Result<Vec<Server>, NoMemory>
    ensures { IfOk result (λ servers. servers.items
        ≡ named_from (option_map (λ names. view names.now) names.entry)
        (option_map (λ weights. view weights.now) weights.entry) 0
        (texts_of (items_view addresses.now))) }
{
    let mut servers = Vec::with_capacity(alloc, addresses.len())?;
    for (place, address) in addresses.iter().enumerate() {
        servers.push(Server {
            name: Vec::from_slice(alloc, ring_name(names, place, text_of(address).as_bytes()))?,
            weight: weight_at(weights, place),
        })?;
    }
    Ok(servers)
}

/// The name of the server at this place and this address.
fn ring_name<'a>(names: Option<&'a Value>, place: usize, address: &'a [u8]) -> &'a [u8]
    ensures { result.now
        ≡ ring_name (option_map (λ names. view names.now) names.entry) place address.now }
{
    let Some(names) = names else {
        return default_name(address);
    };
    match names.get(place) {
        Some(name) => text_of(name).as_bytes(),
        None => b"",
    }
}

/// The weight of the server at this place.
fn weight_at(weights: Option<&Value>, place: usize) -> u32
    ensures { result ≡ weight_at (option_map (λ weights. view weights.now) weights.entry) place }
{
    let Some(weights) = weights else {
        return 1;
    };
    match weights.get(place) {
        Some(weight) => weight_value(weight),
        None => 0,
    }
}

/// A whole number from 1 to the greatest weight, and 0 for anything else.
fn weight_value(value: &Value) -> u32
    ensures { result ≡ weight_value (view value.now) }
{
    match value.as_u64() {
        Some(weight) if weight <= u64::from(MAX_WEIGHT) => weight as u32,
        _ => 0,
    }
}

/// Whether a ring can be made of these servers.
pub(crate) fn are_fit(servers: &[Server]) -> bool
    ensures value { result ≡ are_fit servers.now }
    ensures weighed { IsTrue result → AreWeighed servers.now }
{
    are_weighed(servers)
}

/// Whether no two servers have one name.
pub(crate) fn are_distinct(servers: &[Server]) -> bool
    ensures { result ≡ are_distinct (map (λ server. server.name) servers.now) }
{
    for (place, server) in servers.iter().enumerate() {
        if is_named(&servers[place + 1..], &server.name) {
            return false;
        }
    }
    true
}

/// Whether one of these servers has a name.
fn is_named(servers: &[Server], name: &[u8]) -> bool
    ensures { result ≡ is_in_names (map (λ server. server.name) servers.now) name.now }
{
    for server in servers {
        if name == server.name.as_slice() {
            return true;
        }
    }
    false
}
