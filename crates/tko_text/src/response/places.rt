//! The places of the values that were read so far.
ghost use Rattle.std.specs.Prelude.{◌≡◌, ◌≤◌, ◌<◌, ◌-◌, ◌++◌, [], ◌∷◌, All, IfOk, OnErr, OnOk, drop, length};
ghost use Rattle.std.specs.List.{list_any};
ghost use Rattle.std.specs.Str.{bytes_eq};
ghost use Rattle.tko_text.specs.KeyHashes.{AreSeen, hashed_bytes, key_hash};

use super::place::ValuePlace;
use super::reader::Head;
use crate::{Key, NoMemory};
use std::alloc::Global;
use std::marker::Model;
use tko_bytes::fnv1a_from;

/// How many flags there are for each key.
const FLAGS: usize = 8;

/// How many places there is room for at first, at most.
const ROOM: usize = 64;

/// How many of its last bytes a key is hashed by.
const HASHED_BYTES: usize = 16;

/// The places of the values that were read so far, and a flag for each hash that one of their keys
/// may have. So a key that is new is seldom compared with the others. Contracts see the places.
#[derive(Drop)]
pub(super) struct Places {
    places: Vec<ValuePlace>,
    seen: Vec<bool>,
}

impl Model for Places {
    ghost use Rattle.std.specs.Prelude.{List};
    ghost use Rattle.tko_text.specs.KeyHashes.{AreSeen};
    ghost use Rattle.tko_text.specs.declared.response.place.ValuePlace.{ValuePlace};

    ghost Value = { List ValuePlace };

    ghost view = { λ p. p.places.items };

    ghost invariant = { λ p. AreSeen p.seen.items p.places.items };
}

impl Places {
    /// None, where so many keys were asked for.
    pub(super) fn new(alloc: Global, keys: usize) -> Result<Places, NoMemory>
        ensures { IfOk result (λ places. places ≡ []) }
    {
        let flags = keys.saturating_mul(FLAGS).max(1);
        let places = Vec::with_capacity(alloc, keys.min(ROOM))?;
        let seen = vec![in alloc; false; flags]?;
        Ok(Places { places, seen })
    }

    /// Whether one of the values has this key.
    pub(super) fn has(&self, key: &[u8]) -> bool
        ensures { result ≡ list_any (λ place. bytes_eq place.key key.now) self.now }
    {
        if !self.seen[key_hash_of(key) % self.seen.len()] {
            return false;
        }
        self.places.iter().any(|place| place.key.as_bytes() == key)
    }

    /// Puts the place of a value of this key behind the others.
    pub(super) fn push(
        &mut self,
        alloc: Global,
        key: &Key,
        head: Head,
        begin: usize,
    ) -> Result<(), NoMemory>
        ensures { OnOk result (self.new
            ≡ self.old ++ (record { key = key.now; head = head; begin = begin }) ∷ []) }
    {
        let flag = key_hash_of(key.as_bytes()) % self.seen.len();
        let key = key.copy(alloc)?;
        self.places.push(ValuePlace { key, head, begin })?;
        self.seen[flag] = true;
        Ok(())
    }

    /// The places of all values.
    pub(super) fn into_vec(self) -> Vec<ValuePlace>
        ensures { result.items ≡ self }
    {
        let Places { places, .. } = self;
        places
    }
}

/// The hash of a key, which is the same for equal keys.
#[tactic(auto, unfolding(crate::specs::KeyHashes::key_hash))]
fn key_hash_of(key: &[u8]) -> usize
    ensures { result ≡ key_hash key.now }
{
    fnv1a_from(0, last_bytes(key)) as usize
}

/// The bytes that a key is hashed by.
fn last_bytes(key: &[u8]) -> &[u8]
    ensures { result.now ≡ drop (length key.now - hashed_bytes) key.now }
{
    key.split_at(key.len().saturating_sub(HASHED_BYTES)).1
}
