//! The children of a route.
ghost use Rattle.std.specs.Prelude.{◌≡◌, ◌<◌, [], None, Some, All, IfOk, IsSome, length, map, option_map};
ghost use Rattle.std.specs.Arc.{arc_value};
ghost use Rattle.serde_json.specs.Find.{get};
ghost use Rattle.serde_json.specs.View.{view};
ghost use Rattle.tko_pools.specs.Children.{AreChildren, IsChildOf, IsRingIn};
ghost use Rattle.tko_pools.specs.Configs.{IsSoundName, IsSoundPool};
ghost use Rattle.tko_pools.specs.Placements.{kind_in};
ghost use Rattle.tko_pools.specs.RingServers.{are_fit, named_servers};

use crate::child::Child;
use crate::json::servers_of;
use crate::numbering::NumberedAddresses;
use crate::placement::{hashing_in, kind_in};
use crate::ring_servers::{are_fit, named_servers};
use serde_json::Value;
use std::alloc::Global;
use std::sync::Arc;
use tko_bytes::NoMemory;
use tko_ring::Ring;

/// The children that are the pools of these names.
pub(crate) fn children_of(
    alloc: Global,
    addresses: &NumberedAddresses,
    pools: &Value,
    names: &[&str],
) -> Result<Vec<Child>, NoMemory>
    requires { All (IsSoundName (view pools.now)) (map (λ name. name.now) names.now) }
    ensures { IfOk result (λ children. AreChildren addresses.now (view pools.now)
        (map (λ name. name.now) names.now) children.items) }
{
    let mut children = Vec::with_capacity(alloc, names.len())?;
    for name in names {
        children.push(child_of(alloc, addresses, pool_named(pools, name))?)?;
    }
    Ok(children)
}

/// The pool of a name.
fn pool_named<'a>(pools: &'a Value, name: &str) -> &'a Value
    requires { IsSome (get name.now (view pools.now)) }
    ensures { get name.now (view pools.now) ≡ Some (view result.now) }
{
    &pools[name]
}

/// The child that is a pool.
fn child_of(alloc: Global, addresses: &NumberedAddresses, pool: &Value) -> Result<Child, NoMemory>
    requires { IsSoundPool (view pool.now) }
    ensures { IfOk result (λ child. IsChildOf addresses.now (view pool.now) child) }
{
    let servers = addresses.numbers(alloc, servers_of(pool))?;
    let hashing = hashing_in(alloc, pool)?;
    let ring = ring_of(alloc, pool)?;
    Ok(Child::new(servers, hashing, ring))
}

/// The ring of a pool, if it has one.
fn ring_of(alloc: Global, pool: &Value) -> Result<Option<Arc<Ring>>, NoMemory>
    requires { IsSoundPool (view pool.now) }
    ensures { IfOk result (λ ring. IsRingIn (named_servers (view pool.now))
        (kind_in (view pool.now)) (option_map (λ ring. arc_value ring) ring)) }
{
    let Some(kind) = kind_in(pool) else {
        return Ok(None);
    };
    let servers = named_servers(alloc, pool)?;
    let ring = Ring::of(alloc, kind, &servers)?;
    Ok(Some(Arc::new(alloc, ring)?))
}
