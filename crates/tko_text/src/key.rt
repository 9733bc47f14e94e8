//! What a value is stored under.
ghost use Rattle.std.specs.Prelude.{◌≡◌, ◌↔◌, IfOk, IfSome, IsSome, IsTrue, is_some};

use crate::NoMemory;
use smallvec::SmallVec;
use std::alloc::Global;
use std::marker::Model;

/// How many bytes a key has at most that takes no allocation.
const SHORT: usize = 24;

/// 1 to 250 bytes, none of them a control character, a space or 127. Contracts see the list of the
/// bytes.
#[derive(Debug, Drop)]
pub struct Key {
    bytes: SmallVec<u8, SHORT>,
}

impl Model for Key {
    ghost use Rattle.std.specs.Prelude.{List, ℕ};
    ghost use Rattle.tko_text.specs.Keys.{IsKey};

    ghost Value = { List ℕ };

    ghost view = { λ k. k.bytes.items };

    ghost invariant = { λ k. IsKey k.bytes.items };
}

impl Key {
    ghost use Rattle.tko_text.specs.Keys.{IsKey, is_key};

    /// The key that owns these bytes.
    pub fn new(bytes: Vec<u8>) -> Key
        requires { IsKey bytes.items }
        ensures { result ≡ bytes.items }
    {
        let bytes = SmallVec::from_vec(bytes);
        Key { bytes }
    }

    /// Whether these bytes are a key.
    pub fn fits(bytes: &[u8]) -> bool
        ensures key { IsTrue result ↔ IsKey bytes.now }
        ensures test { result ≡ is_key bytes.now }
    {
        is_key(bytes)
    }

    /// The key of these bytes, where they are one.
    pub fn of(alloc: Global, bytes: &[u8]) -> Result<Option<Key>, NoMemory>
        ensures some { IfOk result (λ key. IsSome key ↔ IsKey bytes.now) }
        ensures value { IfOk result (λ key. IfSome key (λ key. key ≡ bytes.now)) }
        ensures test { IfOk result (λ key. is_some key ≡ is_key bytes.now) }
    {
        if !is_key(bytes) {
            return Ok(None);
        }
        Ok(Some(Key::of_fitting(alloc, bytes)?))
    }

    /// The key of these bytes, which are one.
    pub(crate) fn of_fitting(alloc: Global, bytes: &[u8]) -> Result<Key, NoMemory>
        requires { IsKey bytes.now }
        ensures { IfOk result (λ key. key ≡ bytes.now) }
    {
        let bytes = SmallVec::from_slice(alloc, bytes)?;
        Ok(Key { bytes })
    }

    /// The same key once more.
    pub fn copy(&self, alloc: Global) -> Result<Key, NoMemory>
        ensures { IfOk result (λ key. key ≡ self.now) }
    {
        Key::of_fitting(alloc, self.as_bytes())
    }

    pub fn as_bytes(&self) -> &[u8]
        ensures value { result.now ≡ self.now }
        ensures key { IsKey self.now }
    {
        self.bytes.as_slice()
    }
}

mod rule;

use rule::is_key;
