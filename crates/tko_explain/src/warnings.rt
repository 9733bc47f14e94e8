//! What in a configuration has no effect, as lines. Where memory runs out, the buffer may hold a
//! part of a text.
ghost use Rattle.std.specs.Prelude.{◌≡◌, ◌++◌, OnOk, map};
ghost use Rattle.serde_json.specs.View.{members_view, view};
ghost use Rattle.tko_explain.specs.Parts.{members_in};
ghost use Rattle.tko_pools.specs.RingServers.{is_in_names};
ghost use Rattle.tko_explain.specs.Warnings.{ignored_text, key_text, pool_keys, pool_place, pool_text, pools_text, unnamed_text, warnings_text};

use crate::parts::names_in;
use crate::printing::{append_around, quoted};
use serde_json::{Map, Value};
use std::alloc::Global;
use tko_bytes::NoMemory;

const ROOT_KEYS: [&str; 2] = ["pools", "route"];

const POOL_KEYS: [&str; 8] = [
    "servers",
    "soft_limit",
    "distribution",
    "hash",
    "hash_tag",
    "unhashed_prefix",
    "weights",
    "names",
];

const ROUTE_KEYS: [&str; 3] = ["type", "children", "failover_exptime"];

/// Appends a line for each key that is not read and for each pool that no child names.
pub(crate) fn append_warnings(
    alloc: Global,
    out: &mut Vec<u8>,
    root: &Value,
) -> Result<(), NoMemory>
    ensures { OnOk result (out.new.items ≡ out.old.items ++ warnings_text (view root.now)) }
{
    append_ignored(alloc, out, b"", &ROOT_KEYS, root)?;
    if let Some(route) = root.get("route") {
        append_ignored(alloc, out, b" of the route", &ROUTE_KEYS, route)?;
    }
    let names = names_in(alloc, root)?;
    if let Some(pools) = root.get("pools").and_then(Value::as_object) {
        append_pools(alloc, out, &names, pools)?;
    }
    Ok(())
}

/// Appends the keys of a value that are none of those that are read.
fn append_ignored(
    alloc: Global,
    out: &mut Vec<u8>,
    place: &[u8],
    keys: &[&str],
    value: &Value,
) -> Result<(), NoMemory>
    ensures { OnOk result (out.new.items ≡ out.old.items
        ++ ignored_text place.now (map (λ key. key.now) keys.now) (members_in (view value.now))) }
{
    match value.as_object() {
        Some(members) => append_unread(alloc, out, place, keys, members),
        None => Ok(()),
    }
}

fn append_unread(
    alloc: Global,
    out: &mut Vec<u8>,
    place: &[u8],
    keys: &[&str],
    members: &Map<String, Value>,
) -> Result<(), NoMemory>
    ensures { OnOk result (out.new.items ≡ out.old.items
        ++ ignored_text place.now (map (λ key. key.now) keys.now)
        (members_view members.now.entries)) }
{
    for (key, _) in members {
        append_key(alloc, out, place, keys, key.as_str())?;
    }
    Ok(())
}

/// Appends a key, unless it is one of those that are read.
fn append_key(
    alloc: Global,
    out: &mut Vec<u8>,
    place: &[u8],
    keys: &[&str],
    key: &str,
) -> Result<(), NoMemory>
    ensures { OnOk result (out.new.items
        ≡ out.old.items ++ key_text place.now (map (λ key. key.now) keys.now) key.now) }
{
    if is_in_names(keys, key) {
        return Ok(());
    }
    append_around(alloc, out, b"warning: key ", key, place, b" is ignored\n")
}

/// Appends what has no effect in each pool.
fn append_pools(
    alloc: Global,
    out: &mut Vec<u8>,
    names: &[&str],
    pools: &Map<String, Value>,
) -> Result<(), NoMemory>
    ensures { OnOk result (out.new.items ≡ out.old.items
        ++ pools_text (map (λ name. name.now) names.now) (members_view pools.now.entries)) }
{
    for (name, pool) in pools {
        append_pool(alloc, out, names, name.as_str(), pool)?;
    }
    Ok(())
}

/// Appends what has no effect in a pool.
#[tactic(auto, unfolding(crate::specs::Warnings::pool_text))]
fn append_pool(
    alloc: Global,
    out: &mut Vec<u8>,
    names: &[&str],
    name: &str,
    pool: &Value,
) -> Result<(), NoMemory>
    ensures { OnOk result (out.new.items ≡ out.old.items
        ++ pool_text (map (λ name. name.now) names.now) name.now (members_in (view pool.now))) }
{
    append_members(alloc, out, name, pool)?;
    append_unnamed(alloc, out, names, name)?;
    Ok(())
}

/// Appends the keys of a pool that are not read.
fn append_members(
    alloc: Global,
    out: &mut Vec<u8>,
    name: &str,
    pool: &Value,
) -> Result<(), NoMemory>
    ensures { OnOk result (out.new.items ≡ out.old.items
        ++ ignored_text (pool_place name.now) pool_keys (members_in (view pool.now))) }
{
    let mut place = Vec::from_slice(alloc, b" of pool ")?;
    place.extend_from_slice(quoted(alloc, name)?.as_bytes())?;
    append_ignored(alloc, out, &place, &POOL_KEYS, pool)
}

/// Appends the name of a pool, unless a child names it.
fn append_unnamed(
    alloc: Global,
    out: &mut Vec<u8>,
    names: &[&str],
    name: &str,
) -> Result<(), NoMemory>
    ensures { OnOk result (out.new.items
        ≡ out.old.items ++ unnamed_text (map (λ name. name.now) names.now) name.now) }
{
    if is_in_names(names, name) {
        return Ok(());
    }
    append_around(
        alloc,
        out,
        b"warning: no child of the route names pool ",
        name,
        b"",
        b"\n",
    )
}

pub(crate) fn is_in_names(names: &[&str], name: &str) -> bool
    ensures { result ≡ is_in_names (map (λ name. name.now) names.now) name.now }
{
    for other in names {
        if name == *other {
            return true;
        }
    }
    false
}
