//! The soft limits of pools.
ghost use Rattle.std.specs.Prelude.{◌≡◌, ◌≤◌, IfSome};
ghost use Rattle.serde_json.specs.View.{view};
ghost use Rattle.tko_pools.specs.SoftLimits.{is_no_limit, limit_value, soft_limit_named, soft_limit_of};

use serde_json::Value;

const MAX_SOFT_LIMIT: u64 = 256;

/// Whether a pool has something as its soft limit that is none.
pub(crate) fn has_no_limit(pool: &Value) -> bool
    ensures { result ≡ is_no_limit (limit_value (view pool.now)) }
{
    match pool.get("soft_limit") {
        Some(value) => soft_limit_of(value).is_none(),
        None => false,
    }
}

/// The soft limit of the pool of a name, where it has one.
pub fn soft_limit_named(pools: &Value, name: &str) -> Option<u32>
    ensures { result ≡ soft_limit_named (view pools.now) name.now }
{
    soft_limit_of(pools.get(name)?.get("soft_limit")?)
}

fn soft_limit_of(value: &Value) -> Option<u32>
    ensures { result ≡ soft_limit_of (view value.now) }
{
    let limit = value.as_u64()?;
    if limit <= MAX_SOFT_LIMIT {
        Some(limit as u32)
    } else {
        None
    }
}
