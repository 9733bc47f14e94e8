//! How the pools of a route spread keys over their servers, as lines. Where memory runs out, the
//! buffer may hold a part of a text.
ghost use Rattle.std.specs.Prelude.{◌≡◌, ◌≤◌, ◌++◌, IfOk, OnOk, length, map, option_map, unwrap_or};
ghost use Rattle.std.specs.List.{range_with_len};
ghost use Rattle.serde_json.specs.View.{view};
ghost use Rattle.tko_explain.specs.Placing.{distribution_text, is_placed, one_at, placed_text, placement_text, placement_words, points_at, points_text};
ghost use Rattle.tko_pools.specs.Distributions.{distribution_word};
ghost use Rattle.tko_pools.specs.Json.{servers_of};
ghost use Rattle.tko_pools.specs.Placements.{distribution_in, hash_or_default};
ghost use Rattle.tko_pools.specs.declared.distribution.Distribution.TheVariants.{Modula};
ghost use Rattle.tko_ring.specs.Hashing.{hash_word};

use crate::parts::list_in;
use crate::printing::{append_around, append_named};
use serde_json::Value;
use std::alloc::Global;
use tko_bytes::NoMemory;
use tko_pools::{Distribution, distribution_in, hash_in};
use tko_ring::{KeyHash, Point, Ring};

/// Appends how a pool spreads keys, if it is there and says anything of that.
pub(crate) fn append_placement(
    alloc: Global,
    out: &mut Vec<u8>,
    name: &str,
    pool: Option<&Value>,
    ring: Option<&Ring>,
) -> Result<(), NoMemory>
    ensures { OnOk result (out.new.items ≡ out.old.items
        ++ placed_text name.now (option_map (λ pool. view pool.now) pool.entry)
        (option_map (λ ring. ring.now) ring.entry)) }
{
    match pool {
        Some(pool) => append_placed(alloc, out, name, pool, ring),
        None => Ok(()),
    }
}

#[tactic(auto, unfolding(crate::specs::Placing::placement_text))]
fn append_placed(
    alloc: Global,
    out: &mut Vec<u8>,
    name: &str,
    pool: &Value,
    ring: Option<&Ring>,
) -> Result<(), NoMemory>
    ensures { OnOk result (out.new.items ≡ out.old.items
        ++ placement_text name.now (view pool.now) (option_map (λ ring. ring.now) ring.entry)) }
{
    if !is_placed(pool) {
        return Ok(());
    }
    append_distribution(alloc, out, name, pool)?;
    append_points(alloc, out, name, count_of(pool), ring)?;
    Ok(())
}

/// How many servers a pool lists.
fn count_of(pool: &Value) -> usize
    ensures { result ≡ length (servers_of (view pool.now)) }
{
    list_in("servers", pool).len()
}

/// Whether a pool has a key that says how it spreads keys.
#[tactic(auto, unfolding(crate::specs::Placing::is_placed))]
fn is_placed(pool: &Value) -> bool
    ensures { result ≡ is_placed (view pool.now) }
{
    pool.get("distribution").is_some()
        || pool.get("hash").is_some()
        || pool.get("hash_tag").is_some()
        || pool.get("unhashed_prefix").is_some()
        || pool.get("weights").is_some()
        || pool.get("names").is_some()
}

fn append_distribution(
    alloc: Global,
    out: &mut Vec<u8>,
    name: &str,
    pool: &Value,
) -> Result<(), NoMemory>
    ensures { OnOk result
        (out.new.items ≡ out.old.items ++ distribution_text name.now (view pool.now)) }
{
    let words = placement_words(alloc, pool)?;
    append_around(alloc, out, b"distribution ", name, &words, b"\n")
}

/// The distribution and the hash of a pool, each after a space.
#[tactic(auto, unfolding(crate::specs::Placing::placement_words))]
fn placement_words(alloc: Global, pool: &Value) -> Result<Vec<u8>, NoMemory>
    ensures { IfOk result (λ words. words.items ≡ placement_words (view pool.now)) }
{
    let mut words = Vec::from_slice(alloc, b" ")?;
    words.extend_from_slice(distribution_word(pool).as_bytes())?;
    words.extend_from_slice(b" ")?;
    words.extend_from_slice(hash_word(pool).as_bytes())?;
    Ok(words)
}

fn distribution_word(pool: &Value) -> &'static str
    ensures { result.now
        ≡ distribution_word (unwrap_or (distribution_in (view pool.now)) Modula) }
{
    distribution_in(pool).unwrap_or(Distribution::Modula).word()
}

fn hash_word(pool: &Value) -> &'static str
    ensures { result.now ≡ hash_word (hash_or_default (view pool.now)) }
{
    hash_in(pool).unwrap_or(KeyHash::Fnv1a).word()
}

/// Appends how many points each of so many servers has on a ring.
#[tactic(auto, unfolding(crate::specs::Placing::points_text))]
fn append_points(
    alloc: Global,
    out: &mut Vec<u8>,
    name: &str,
    servers: usize,
    ring: Option<&Ring>,
) -> Result<(), NoMemory>
    ensures { OnOk result (out.new.items ≡ out.old.items
        ++ points_text name.now servers (option_map (λ ring. ring.now) ring.entry)) }
{
    match ring {
        Some(ring) => {
            let counts = points_of_each(alloc, ring.points(), servers)?;
            append_named(alloc, out, "points ", name, &counts)
        }
        None => Ok(()),
    }
}

/// How many points each of so many servers has.
fn points_of_each(alloc: Global, points: &[Point], servers: usize) -> Result<Vec<usize>, NoMemory>
    ensures { IfOk result (λ counts. counts.items
        ≡ map (points_at points.now) (range_with_len 0 servers)) }
{
    let mut counts = Vec::with_capacity(alloc, servers)?;
    for place in 0..servers {
        counts.push(points_at(points, place))?;
    }
    Ok(counts)
}

/// How many points the server at a place has.
pub(crate) fn points_at(points: &[Point], place: usize) -> usize
    ensures { result ≡ points_at points.now place }
{
    let mut count = 0;
    for point in points {
        count += one_at(place, point);
    }
    count
}

/// 1 for a point of the server at a place, and 0 for one of another.
fn one_at(place: usize, point: &Point) -> usize
    ensures value { result ≡ one_at place point.now }
    ensures one { result ≤ 1 }
{
    if point.place as usize == place { 1 } else { 0 }
}
