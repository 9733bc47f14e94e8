//! The keys of a request.
ghost use Rattle.std.specs.Prelude.{◌≡◌, ◌<◌, ◌++◌, ◌∷◌, [], IfOk, OnErr, OnOk, length};
ghost use Rattle.std.specs.Vec.Iter.{into_iter_items};

use crate::{Key, NoMemory};
use std::alloc::Global;
use std::marker::Model;
use std::mem::replace;
use std::slice::from_ref;
use std::vec::IntoIter;

/// How many keys there is room for at first where there are several.
const ROOM: usize = 16;

/// One key or more. Contracts see the list of them.
#[derive(Debug, Drop)]
pub struct Keys {
    alloc: Global,
    held: KeyStore,
}

/// Where the keys are: one takes no allocation.
#[derive(Debug, Drop)]
pub(crate) enum KeyStore {
    One(Key),
    Several(Vec<Key>),
}

impl Model for Keys {
    ghost use Rattle.std.specs.Prelude.{List, ℕ, ◌<◌, length};
    ghost use Rattle.tko_text.specs.HeldKeys.{held_keys};

    ghost Value = { List (List ℕ) };

    ghost view = { λ k. held_keys k.held };

    ghost invariant = { λ k. 0 < length (held_keys k.held) };
}

impl Keys {
    pub fn new(keys: Vec<Key>) -> Keys
        requires { 0 < length keys.items }
        ensures { result ≡ keys.items }
    {
        let alloc = *keys.allocator();
        let held = KeyStore::Several(keys);
        Keys { alloc, held }
    }

    /// One key, which takes no memory.
    pub fn one(alloc: Global, key: Key) -> Keys
        ensures { result ≡ key ∷ [] }
    {
        let held = KeyStore::One(key);
        Keys { alloc, held }
    }

    pub fn as_slice(&self) -> &[Key]
        ensures value { result.now ≡ self.now }
        ensures some { 0 < length self.now }
    {
        match &self.held {
            KeyStore::One(key) => from_ref(key),
            KeyStore::Several(keys) => keys.as_slice(),
        }
    }

    /// Puts a key behind the others.
    pub fn push(&mut self, key: Key) -> Result<(), NoMemory>
        ensures ok { OnOk result (self.new ≡ self.old ++ key ∷ []) }
        ensures err { OnErr result (self.new ≡ self.old) }
    {
        self.held.push(self.alloc, key)
    }

    /// Keeps the first key alone, and returns those that follow it.
    pub fn split_first(&mut self, alloc: Global) -> Result<IntoIter<Key>, NoMemory>
        ensures parts { IfOk result (λ others. self.old ≡ self.new ++ into_iter_items others) }
        ensures one { OnOk result (length self.new ≡ 1) }
        ensures err { OnErr result (self.new ≡ self.old) }
    {
        match &mut self.held {
            KeyStore::One(_) => Ok(Vec::new(alloc).into_iter()),
            KeyStore::Several(keys) => {
                let mut others = replace(keys, Vec::new(alloc)).into_iter();
                let Some(first) = others.next() else {
                    unreachable!();
                };
                self.held = KeyStore::One(first);
                Ok(others)
            }
        }
    }

    /// Puts a key in the place of all of them, which takes no memory.
    pub fn set_only(&mut self, key: Key)
        ensures { self.new ≡ key ∷ [] }
    {
        self.held = KeyStore::One(key);
    }
}

impl KeyStore {
    ghost use Rattle.tko_text.specs.HeldKeys.{held_keys};

    /// Puts a key behind the others.
    fn push(&mut self, alloc: Global, key: Key) -> Result<(), NoMemory>
        ensures ok { OnOk result (held_keys self.new ≡ held_keys self.old ++ key ∷ []) }
        ensures err { OnErr result (held_keys self.new ≡ held_keys self.old) }
    {
        if let KeyStore::Several(keys) = self {
            return Ok(keys.push(key)?);
        }
        let mut keys = Vec::with_capacity(alloc, ROOM)?;
        if let KeyStore::One(first) = replace(self, KeyStore::Several(Vec::new(alloc))) {
            keys.push_reserved(first);
        }
        keys.push_reserved(key);
        *self = KeyStore::Several(keys);
        Ok(())
    }
}
