//! Parts of a configuration's JSON.
ghost use Rattle.std.specs.Prelude.{◌≡◌, ◌++◌, IfOk, OnOk, map};
ghost use Rattle.serde_json.specs.View.{items_view, view};
ghost use Rattle.tko_explain.specs.Parts.{list_in, pool_named, pool_names_of};
ghost use Rattle.tko_pools.specs.Json.{texts_of};

use serde_json::Value;
use std::alloc::Global;
use tko_bytes::NoMemory;
use tko_pools::{child_name, text_of};

/// The list that an object has under a key, and the empty one where it has none.
pub(crate) fn list_in<'a>(key: &str, value: &'a Value) -> &'a [Value]
    ensures { texts_of (items_view result.now) ≡ list_in key.now (view value.now) }
{
    match value.get(key).and_then(Value::as_array) {
        Some(list) => list.as_slice(),
        None => &[],
    }
}

/// The pools that the route of a configuration names.
pub(crate) fn names_in(alloc: Global, root: &Value) -> Result<Vec<&str>, NoMemory>
    ensures { IfOk result (λ names.
        map (λ name. name.now) names.items ≡ pool_names_of (view root.now)) }
{
    let mut names = Vec::new(alloc);
    match root.get("route") {
        Some(Value::String(text)) => names.push(pool_named(text.as_str()))?,
        Some(route) => push_names(list_in("children", route), &mut names)?,
        None => {}
    }
    Ok(names)
}

/// Appends the pools that the texts of a list name.
fn push_names<'a>(list: &'a [Value], names: &mut Vec<&'a str>) -> Result<(), NoMemory>
    ensures { OnOk result (map (λ name. name.now) names.new.items
        ≡ map (λ name. name.now) names.old.items
        ++ map pool_named (texts_of (items_view list.now))) }
{
    for value in list {
        names.push(pool_named(text_of(value)))?;
    }
    Ok(())
}

/// The pool that the text of a child names.
fn pool_named(text: &str) -> &str
    ensures { result.now ≡ pool_named text.now }
{
    child_name(text).unwrap_or(text)
}
