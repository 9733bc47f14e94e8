//! What is wrong with how a pool spreads keys over its servers.
ghost use Rattle.std.specs.Prelude.{◌≡◌, IfOk, map, option_map};
ghost use Rattle.std.specs.List.{list_all};
ghost use Rattle.serde_json.specs.View.{items_view, view};
ghost use Rattle.tko_pools.specs.Json.{texts_of};
ghost use Rattle.tko_pools.specs.PlacementFlaws.{are_misfit_names, are_misfit_weights, are_names, is_misfit_prefix, is_misfit_tag, is_name, is_one_each, is_prefix, is_printable, names_are_wrong, placement_flaw, servers_flaw, listed_texts, weights_are_wrong};
ghost use Rattle.tko_pools.specs.RingServers.{are_distinct, are_fit, named_servers};

use crate::json::{servers_of, text_of};
use crate::placement::{distribution_in, hash_in};
use crate::ring_servers::{are_distinct, are_fit, named_servers};
use crate::{Distribution, PoolKey};
use serde_json::Value;
use std::alloc::Global;
use tko_bytes::NoMemory;
use tko_ring::Server;

const TAG_LEN: usize = 2;

const MAX_PREFIX: usize = 250;

const MAX_NAME: usize = 255;

/// The first of the keys of a pool that say how it spreads keys which says nothing that it may.
#[tactic(auto, unfolding(crate::specs::PlacementFlaws::placement_flaw))]
pub(crate) fn placement_flaw(alloc: Global, pool: &Value) -> Result<Option<PoolKey>, NoMemory>
    ensures { IfOk result (λ flaw. flaw ≡ placement_flaw (view pool.now)) }
{
    let Some(way) = distribution_in(pool) else {
        return Ok(Some(PoolKey::Distribution));
    };
    if hash_in(pool).is_none() {
        return Ok(Some(PoolKey::Hash));
    }
    if is_misfit_tag(pool.get("hash_tag")) {
        return Ok(Some(PoolKey::HashTag));
    }
    if is_misfit_prefix(pool.get("unhashed_prefix"), pool.get("hash_tag")) {
        return Ok(Some(PoolKey::UnhashedPrefix));
    }
    let servers = named_servers(alloc, pool)?;
    Ok(servers_flaw(way, pool, &servers))
}

/// What is wrong with the weights or the names of a pool, whose servers these are.
fn servers_flaw(way: Distribution, pool: &Value, servers: &[Server]) -> Option<PoolKey>
    requires { servers.now ≡ named_servers (view pool.now) }
    ensures { result ≡ servers_flaw way (view pool.now) }
{
    if weights_are_wrong(way, pool, servers) {
        return Some(PoolKey::Weights);
    }
    if names_are_wrong(way, pool, servers) {
        return Some(PoolKey::Names);
    }
    None
}

fn weights_are_wrong(way: Distribution, pool: &Value, servers: &[Server]) -> bool
    requires { servers.now ≡ named_servers (view pool.now) }
    ensures { result ≡ weights_are_wrong way (view pool.now) }
{
    are_misfit_weights(way, pool, pool.get("weights")) || (way.is_ring() && !are_fit(servers))
}

fn names_are_wrong(way: Distribution, pool: &Value, servers: &[Server]) -> bool
    requires { servers.now ≡ named_servers (view pool.now) }
    ensures { result ≡ names_are_wrong way (view pool.now) }
{
    are_misfit_names(way, pool, pool.get("names")) || (way.is_ring() && !are_distinct(servers))
}

/// Whether there is something as a tag that is no text of two bytes.
fn is_misfit_tag(tag: Option<&Value>) -> bool
    ensures { result ≡ is_misfit_tag (option_map (λ tag. view tag.now) tag.entry) }
{
    match tag {
        Some(value) => text_of(value).len() != TAG_LEN,
        None => false,
    }
}

/// Whether there is something as a prefix that is none, or a tag beside it.
fn is_misfit_prefix(prefix: Option<&Value>, tag: Option<&Value>) -> bool
    ensures { result ≡ is_misfit_prefix (option_map (λ prefix. view prefix.now) prefix.entry)
        (option_map (λ tag. view tag.now) tag.entry) }
{
    match prefix {
        Some(value) => tag.is_some() || !is_prefix(text_of(value)),
        None => false,
    }
}

fn is_prefix(text: &str) -> bool
    ensures { result ≡ is_prefix text.now }
{
    text.len() >= 1 && text.len() <= MAX_PREFIX
}

/// Whether there is something as weights that are not for a distribution, or not as many as there
/// are servers.
fn are_misfit_weights(way: Distribution, pool: &Value, weights: Option<&Value>) -> bool
    ensures { result ≡ are_misfit_weights way (view pool.now)
        (option_map (λ weights. view weights.now) weights.entry) }
{
    match weights {
        Some(value) => !way.is_ketama() || !is_one_each(pool, value),
        None => false,
    }
}

/// Whether there is something as names that are not for a distribution, not as many as there are
/// servers, or no names.
fn are_misfit_names(way: Distribution, pool: &Value, names: Option<&Value>) -> bool
    ensures { result ≡ are_misfit_names way (view pool.now)
        (option_map (λ names. view names.now) names.entry) }
{
    match names {
        Some(value) => !way.is_ring() || !is_one_each(pool, value) || !are_names(listed(value)),
        None => false,
    }
}

/// Whether a list has as many items as a pool has servers.
fn is_one_each(pool: &Value, value: &Value) -> bool
    ensures { result ≡ is_one_each (view pool.now) (view value.now) }
{
    listed(value).len() == servers_of(pool).len()
}

/// The items of a list, and none of anything else.
fn listed(value: &Value) -> &[Value]
    ensures { texts_of (items_view result.now) ≡ listed_texts (view value.now) }
{
    match value.as_array() {
        Some(list) => list.as_slice(),
        None => &[],
    }
}

fn are_names(list: &[Value]) -> bool
    ensures { result ≡ are_names (texts_of (items_view list.now)) }
{
    for value in list {
        if !is_name(text_of(value).as_bytes()) {
            return false;
        }
    }
    true
}

fn is_name(text: &[u8]) -> bool
    ensures { result ≡ is_name text.now }
{
    !text.is_empty() && text.len() <= MAX_NAME && are_printable(text)
}

fn are_printable(text: &[u8]) -> bool
    ensures { result ≡ list_all is_printable text.now }
{
    text.iter().all(|byte| is_printable(*byte))
}

fn is_printable(byte: u8) -> bool
    ensures { result ≡ is_printable byte }
{
    byte >= b' ' && byte <= b'~'
}
