//! What a configuration names more than once, as lines. Where memory runs out, the buffer may hold
//! a part of a text.
ghost use Rattle.std.specs.Prelude.{◌≡◌, ◌++◌, IfOk, OnOk, map};
ghost use Rattle.serde_json.specs.View.{items_view, members_view, view};
ghost use Rattle.tko_pools.specs.Json.{texts_of};
ghost use Rattle.tko_explain.specs.Repeats.{IsKeyText, name_again, names_again, pools_again, repeats_text, servers_again};

use crate::parts::{list_in, names_in};
use crate::printing::{append_around, quoted};
use crate::warnings::is_in_names;
use json::{Error, Scratch};
use serde_json::{Map, Value};
use std::alloc::Global;
use tko_bytes::NoMemory;
use tko_pools::text_of;

const KEY_TWICE: &str = "warning: an object has a key twice, and the last one counts\n";

/// Appends a line for each pool that the route names again, and for each server that its pool names
/// again.
pub(crate) fn append_repeats(alloc: Global, out: &mut Vec<u8>, root: &Value) -> Result<(), NoMemory>
    ensures { OnOk result (out.new.items ≡ out.old.items ++ repeats_text (view root.now)) }
{
    let names = names_in(alloc, root)?;
    let place = b" is named again by the route";
    append_names(alloc, out, b"warning: pool ", place, &names)?;
    if let Some(pools) = root.get("pools").and_then(Value::as_object) {
        append_pools(alloc, out, pools)?;
    }
    Ok(())
}

/// Appends what each pool names again.
fn append_pools(
    alloc: Global,
    out: &mut Vec<u8>,
    pools: &Map<String, Value>,
) -> Result<(), NoMemory>
    ensures { OnOk result (out.new.items
        ≡ out.old.items ++ pools_again (members_view pools.now.entries)) }
{
    for (name, pool) in pools {
        append_servers(alloc, out, name.as_str(), pool)?;
    }
    Ok(())
}

/// Appends each address that comes again in the list of a pool.
#[tactic(auto, unfolding(crate::specs::Repeats::servers_again))]
fn append_servers(
    alloc: Global,
    out: &mut Vec<u8>,
    name: &str,
    pool: &Value,
) -> Result<(), NoMemory>
    ensures { OnOk result
        (out.new.items ≡ out.old.items ++ servers_again name.now (view pool.now)) }
{
    let servers = texts_of(alloc, list_in("servers", pool))?;
    let mut place = Vec::from_slice(alloc, b" is named again in pool ")?;
    place.extend_from_slice(quoted(alloc, name)?.as_bytes())?;
    append_names(alloc, out, b"warning: server ", &place, &servers)
}

/// The texts of a list.
pub(crate) fn texts_of(alloc: Global, list: &[Value]) -> Result<Vec<&str>, NoMemory>
    ensures { IfOk result (λ texts.
        map (λ text. text.now) texts.items ≡ texts_of (items_view list.now)) }
{
    let mut texts = Vec::new(alloc);
    for value in list {
        texts.push(text_of(value))?;
    }
    Ok(texts)
}

/// Appends each name of a list that comes again in it.
fn append_names(
    alloc: Global,
    out: &mut Vec<u8>,
    before: &[u8],
    place: &[u8],
    names: &[&str],
) -> Result<(), NoMemory>
    ensures { OnOk result (out.new.items
        ≡ out.old.items ++ names_again before.now place.now (map (λ name. name.now) names.now)) }
{
    for (index, name) in names.iter().enumerate() {
        append_name(alloc, out, before, place, &names[index + 1..], name)?;
    }
    Ok(())
}

/// Appends a name, where it is among these that follow it.
fn append_name(
    alloc: Global,
    out: &mut Vec<u8>,
    before: &[u8],
    place: &[u8],
    others: &[&str],
    name: &str,
) -> Result<(), NoMemory>
    ensures { OnOk result (out.new.items ≡ out.old.items
        ++ name_again before.now place.now (map (λ name. name.now) others.now) name.now) }
{
    if !is_in_names(others, name) {
        return Ok(());
    }
    append_around(alloc, out, before, name, place, b"\n")
}

/// What is said of the keys of the objects of a text that is JSON.
pub(crate) fn key_text(alloc: Global, json: &str) -> Result<&'static str, NoMemory>
    ensures { IfOk result (λ text. IsKeyText json.now text.now) }
{
    let mut scratch = Scratch::new(alloc);
    match json::Value::parse_strict(alloc, json, &mut scratch) {
        Ok(_) => Ok(""),
        Err(Error::DuplicateKey) => Ok(KEY_TWICE),
        Err(_) => Err(NoMemory),
    }
}
