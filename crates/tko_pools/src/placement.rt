//! What the JSON of a pool says of how it spreads keys over its servers.
ghost use Rattle.std.specs.Prelude.{◌≡◌, IfOk, option_map};
ghost use Rattle.serde_json.specs.View.{view};
ghost use Rattle.tko_pools.specs.Placements.{distribution_in, hash_in, hash_or_default, kind_in, part_from, part_in, tag_of};

use crate::Distribution;
use crate::hashing::Hashing;
use crate::json::text_of;
use serde_json::Value;
use std::alloc::Global;
use tko_bytes::NoMemory;
use tko_ring::{KeyHash, KeyPart, Prefix, RingKind};

/// How a pool spreads keys over its servers, where it says that.
#[tactic(auto, unfolding(crate::specs::Placements::distribution_in))]
pub fn distribution_in(pool: &Value) -> Option<Distribution>
    ensures { result ≡ distribution_in (view pool.now) }
{
    match pool.get("distribution") {
        Some(value) => Distribution::named(text_of(value)),
        None => Some(Distribution::Modula),
    }
}

/// The hash of a pool's keys, where it names one or none.
#[tactic(auto, unfolding(crate::specs::Placements::hash_in))]
pub fn hash_in(pool: &Value) -> Option<KeyHash>
    ensures { result ≡ hash_in (view pool.now) }
{
    match pool.get("hash") {
        Some(value) => KeyHash::named(text_of(value)),
        None => Some(KeyHash::Fnv1a),
    }
}

fn hash_or_default(pool: &Value) -> KeyHash
    ensures { result ≡ hash_or_default (view pool.now) }
{
    hash_in(pool).unwrap_or(KeyHash::Fnv1a)
}

/// The kind of ring of a pool, if it has a ring.
pub(crate) fn kind_in(pool: &Value) -> Option<RingKind>
    ensures { result ≡ kind_in (view pool.now) }
{
    distribution_in(pool)?.ring_kind(hash_or_default(pool))
}

/// How the keys of a pool are hashed.
pub(crate) fn hashing_in(alloc: Global, pool: &Value) -> Result<Hashing, NoMemory>
    ensures hash { IfOk result (λ hashing. hashing.hash ≡ hash_or_default (view pool.now)) }
    ensures part { IfOk result (λ hashing. hashing.part ≡ part_in (view pool.now)) }
{
    let part = part_from(alloc, pool.get("hash_tag"), pool.get("unhashed_prefix"))?;
    Ok(Hashing {
        hash: hash_or_default(pool),
        part,
    })
}

/// The part of a key that is hashed, by the tag and the prefix of a pool.
fn part_from(
    alloc: Global,
    tag: Option<&Value>,
    prefix: Option<&Value>,
) -> Result<KeyPart, NoMemory>
    ensures { IfOk result (λ part. part ≡ part_from (option_map (λ tag. view tag.now) tag.entry)
        (option_map (λ prefix. view prefix.now) prefix.entry)) }
{
    if let Some(tag) = tag {
        return Ok(tag_of(text_of(tag).as_bytes()));
    }
    match prefix {
        Some(prefix) => {
            let prefix = Prefix::of(alloc, text_of(prefix).as_bytes())?;
            Ok(KeyPart::AfterPrefix(prefix))
        }
        None => Ok(KeyPart::Whole),
    }
}

/// What is between the two bytes of a tag.
fn tag_of(text: &[u8]) -> KeyPart
    ensures { result ≡ tag_of text.now }
{
    match *text {
        [opening, closing] => KeyPart::Tagged { opening, closing },
        _ => KeyPart::Whole,
    }
}
