//! Why a text is no configuration, as a line. Where memory runs out, the buffer may hold a part of
//! it.
ghost use Rattle.std.specs.Prelude.{◌≡◌, ◌++◌, [], Some, IfOk, OnOk, option_map};
ghost use Rattle.serde_json.specs.View.{items_view, members_view, view};
ghost use Rattle.tko_explain.specs.Reasons.{IsReasonOf, address_text, are_children, bad_address_place, bad_address_text, flaw_text, is_child, key_flaw, is_failover_kind, object_text, place_or, reason_line, root_place_text, route_text, soft_limit_flaw, too_many_text};
ghost use Rattle.tko_pools.specs.Json.{pools_of, texts_of};

use crate::parts::list_in;
use crate::printing::append_around;
use serde_json::{Map, Value};
use std::alloc::Global;
use tko_bytes::NoMemory;
use tko_model::append_number;
use tko_pools::{ConfigFault, PoolKey, child_name, is_address, text_of};

/// How a text begins that some editors save as "UTF-8 with BOM".
const BYTE_ORDER_MARK: [u8; 3] = [0xef, 0xbb, 0xbf];

const HAS_MARK: &[u8] = b"it begins with a byte order mark, which JSON does not allow";

/// The line that says why a text is no configuration, where this is its fault: with the pool, the
/// place in its list and the text of an address, or with what `serde_json` says of a text that is
/// no JSON.
pub fn reason(alloc: Global, json: &[u8], fault: &ConfigFault) -> Result<Vec<u8>, NoMemory>
    ensures { IfOk result (λ line. IsReasonOf json.now fault.now line.items) }
{
    match Value::from_slice(alloc, json) {
        Ok(root) => {
            let words = flaw_words(alloc, &root, fault)?;
            reason_line(alloc, &words)
        }
        Err(error) if error.is_memory() => Err(NoMemory),
        Err(_) if json.starts_with(&BYTE_ORDER_MARK) => reason_line(alloc, HAS_MARK),
        Err(error) => {
            let words = format!(in alloc; "{error}")?;
            reason_line(alloc, words.as_bytes())
        }
    }
}

/// A line of these words.
fn reason_line(alloc: Global, words: &[u8]) -> Result<Vec<u8>, NoMemory>
    ensures { IfOk result (λ line. line.items ≡ reason_line words.now) }
{
    let mut line = Vec::from_slice(alloc, b"config: ")?;
    line.extend_from_slice(words)?;
    line.extend_from_slice(b"\n")?;
    Ok(line)
}

/// What is wrong with this object, as a fault tells it.
fn flaw_words(alloc: Global, root: &Value, fault: &ConfigFault) -> Result<Vec<u8>, NoMemory>
    ensures { IfOk result (λ words. words.items ≡ flaw_text (view root.now) fault.now) }
{
    let mut out = Vec::new(alloc);
    match fault {
        ConfigFault::Json => out.extend_from_slice(b"the JSON is no object")?,
        ConfigFault::NoPools => out.extend_from_slice(b"there is no object of pools")?,
        ConfigFault::EmptyPool(name) => {
            let end = b" has no list of one or more servers";
            append_around(alloc, &mut out, b"pool ", name.as_str(), b"", end)?;
        }
        ConfigFault::Address(text) => {
            append_root_place(alloc, &mut out, root)?;
            append_address(alloc, &mut out, text.as_str())?;
        }
        ConfigFault::SoftLimit(name) => {
            let end = soft_limit_flaw().as_bytes();
            append_around(alloc, &mut out, b"pool ", name.as_str(), b"", end)?;
        }
        ConfigFault::PoolKey(key, name) => {
            let end = key_flaw(*key).as_bytes();
            append_around(alloc, &mut out, b"pool ", name.as_str(), b"", end)?;
        }
        ConfigFault::Route => out.extend_from_slice(route_text(root.get("route")).as_bytes())?,
        ConfigFault::NoSuchPool(name) => {
            let (before, end) = (b"the route names pool ", b", which is not there");
            append_around(alloc, &mut out, before, name.as_str(), b"", end)?;
        }
        ConfigFault::TooManyServers => out.extend_from_slice(too_many_servers().as_bytes())?,
        ConfigFault::Memory => out.extend_from_slice(b"memory ran out")?,
    }
    Ok(out)
}

/// What is wrong with a pool's own soft limit.
#[tactic(auto, using(crate::proofs::ReasonLemmas::soft_limit_words))]
fn soft_limit_flaw() -> &'static str
    ensures { result.now ≡ soft_limit_flaw }
{
    " has a soft_limit that is no whole number from 0 to 256"
}

/// What is wrong with a route over too many servers.
#[tactic(auto, using(crate::proofs::ReasonLemmas::too_many_words))]
fn too_many_servers() -> &'static str
    ensures { result.now ≡ too_many_text }
{
    "the route has more than 256 servers"
}

/// What is wrong with a key of a pool that says how it spreads keys.
#[tactic(auto, unfolding(crate::specs::Reasons::key_flaw), using(crate::proofs::ReasonLemmas::weight_digits))]
fn key_flaw(key: PoolKey) -> &'static str
    ensures { result.now ≡ key_flaw key }
{
    match key {
        PoolKey::Distribution =>
            " has a distribution that is none of modula, ketama and consistent",
        PoolKey::Hash =>
            " has a hash that is none of fnv1a, md5, fnv1a_64, fnv1a_32, fnv1_64, fnv1_32, \
             one_at_a_time, murmur and crc32a",
        PoolKey::HashTag => " has a hash_tag that is no text of two bytes",
        PoolKey::UnhashedPrefix =>
            " has an unhashed_prefix that is no text of 1 to 250 bytes, or a hash_tag beside it",
        PoolKey::Weights =>
            " has weights without ketama, or not a whole number of at least 1 for each server, \
             together at most 16777216",
        PoolKey::Names =>
            " has names with modula, or not 1 to 255 bytes of printable ASCII for each server, \
             all different (by default the name is the address)",
    }
}

/// Appends where the first item of a pool's list stands that is no address.
fn append_root_place(alloc: Global, out: &mut Vec<u8>, root: &Value) -> Result<(), NoMemory>
    ensures { OnOk result (out.new.items ≡ out.old.items ++ root_place_text (view root.now)) }
{
    match root.get("pools").unwrap_or(root).as_object() {
        Some(pools) => append_place(alloc, out, pools),
        None => Ok(()),
    }
}

fn append_place(
    alloc: Global,
    out: &mut Vec<u8>,
    pools: &Map<String, Value>,
) -> Result<(), NoMemory>
    ensures { OnOk result (out.new.items
        ≡ out.old.items ++ bad_address_text (pools_of (members_view pools.now.entries))) }
{
    for (name, pool) in pools {
        if let Some(place) = bad_place(list_in("servers", pool)) {
            return append_server(alloc, out, name.as_str(), place);
        }
    }
    Ok(())
}

/// Appends a place in the list of a pool.
fn append_server(alloc: Global, out: &mut Vec<u8>, name: &str, place: usize) -> Result<(), NoMemory>
    ensures { OnOk result
        (out.new.items ≡ out.old.items ++ place_or name.now (Some place) []) }
{
    append_around(alloc, out, b"pool ", name, b"", b", server ")?;
    append_number(out, b"", place as u64)?;
    out.extend_from_slice(b": ")?;
    Ok(())
}

/// The place of the first item of a list that is no address, counted from 1.
fn bad_place(servers: &[Value]) -> Option<usize>
    ensures { result ≡ bad_address_place (texts_of (items_view servers.now)) }
{
    for (index, value) in servers.iter().enumerate() {
        if !is_address(text_of(value).as_bytes()) {
            return Some(index + 1);
        }
    }
    None
}

/// Appends why a text is no address.
fn append_address(alloc: Global, out: &mut Vec<u8>, text: &str) -> Result<(), NoMemory>
    ensures { OnOk result (out.new.items ≡ out.old.items ++ address_text text.now) }
{
    if text.is_empty() {
        out.extend_from_slice(b"it is empty or no text")?;
        return Ok(());
    }
    append_around(alloc, out, b"", text, b"", b" is no address <host>:<port>")
}

/// What is wrong with a route, if there is one.
fn route_text(route: Option<&Value>) -> &'static str
    ensures { result.now ≡ route_text (option_map (λ route. view route.now) route.entry) }
{
    let Some(route) = route else {
        return "there is no route";
    };
    match route {
        Value::String(_) => "the route is a text, but not PoolRoute|<pool>",
        Value::Object(_) => object_text(route),
        Value::Null | Value::Bool(_) | Value::Number(_) | Value::Array(_) =>
            "the route is neither a text nor an object",
    }
}

/// What is wrong with a route that is an object.
#[tactic(auto, using(crate::proofs::ReasonLemmas::exptime_digits))]
fn object_text(route: &Value) -> &'static str
    ensures { result.now ≡ object_text (view route.now) }
{
    if !names_failover(route.get("type")) {
        "the route's type is not FailoverRoute"
    } else if !are_children(list_in("children", route)) {
        "the route's children are no list of one or more texts PoolRoute|<pool>"
    } else {
        "the route's failover_exptime is no whole number from 0 to 2147483647"
    }
}

fn names_failover(kind: Option<&Value>) -> bool
    ensures { result ≡ is_failover_kind (option_map (λ kind. view kind.now) kind.entry) }
{
    match kind {
        Some(value) => text_of(value) == "FailoverRoute",
        None => false,
    }
}

/// Whether there is one or more, and each is the text of a child.
fn are_children(list: &[Value]) -> bool
    ensures { result ≡ are_children (texts_of (items_view list.now)) }
{
    for value in list {
        if !is_child(text_of(value)) {
            return false;
        }
    }
    !list.is_empty()
}

fn is_child(text: &str) -> bool
    ensures { result ≡ is_child text.now }
{
    child_name(text).is_some()
}
