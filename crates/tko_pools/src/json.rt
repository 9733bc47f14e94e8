//! What the JSON of a configuration says.
ghost use Rattle.std.specs.Prelude.{◌≡◌, option_map};
ghost use Rattle.serde_json.specs.View.{items_view, view};
ghost use Rattle.tko_pools.specs.Json.{child_name, pools_in, servers_named, servers_of, text_of_value, texts_of};

use serde_json::Value;

/// How the text of a child begins.
const CHILD_PREFIX: &str = "PoolRoute|";

/// The text of a value, and the empty one of anything else.
pub fn text_of(value: &Value) -> &str
    ensures { result.now ≡ text_of_value (view value.now) }
{
    value.as_str().unwrap_or("")
}

/// The servers of a pool: none where it isn't an object with a list of them.
pub(crate) fn servers_of(value: &Value) -> &[Value]
    ensures { texts_of (items_view result.now) ≡ servers_of (view value.now) }
{
    match value.get("servers").and_then(Value::as_array) {
        Some(list) => list.as_slice(),
        None => &[],
    }
}

/// The object of pools, where there is one.
pub fn pools_in(root: &Value) -> Option<&Value>
    ensures { option_map (λ pools. view pools.now) result ≡ pools_in (view root.now) }
{
    let pools = root.get("pools")?;
    if pools.is_object() { Some(pools) } else { None }
}

/// The servers of the pool of a name.
pub(crate) fn servers_named<'a>(pools: &'a Value, name: &str) -> &'a [Value]
    ensures { texts_of (items_view result.now) ≡ servers_named (view pools.now) name.now }
{
    match pools.get(name) {
        Some(pool) => servers_of(pool),
        None => &[],
    }
}

/// The pool that the text of a child names, `PoolRoute|` and its name.
pub fn child_name(text: &str) -> Option<&str>
    ensures { option_map (λ name. name.now) result ≡ child_name text.now }
{
    text.strip_prefix(CHILD_PREFIX)
}
