//! The keys of a request that are still to be asked for.
ghost use Rattle.std.specs.Prelude.{◌≡◌, ◌↔◌, ◌∷◌, [], IsTrue, MatchOption, length};
ghost use Rattle.std.specs.Vec.Iter.{into_iter_items};

use std::alloc::Global;
use std::marker::Model;
use std::vec::IntoIter;
use tko_text::Key;

/// Keys in order, each of which is taken once. Contracts see the list of those that are left.
#[derive(Drop)]
pub struct KeysLeft {
    keys: IntoIter<Key>,
}

impl Model for KeysLeft {
    ghost use Rattle.std.specs.Prelude.{List, ℕ};
    ghost use Rattle.std.specs.Vec.Iter.{into_iter_items};

    ghost Value = { List (List ℕ) };

    ghost view = { λ k. into_iter_items k.keys };
}

impl KeysLeft {
    pub(crate) fn of(keys: IntoIter<Key>) -> KeysLeft
        ensures { result ≡ into_iter_items keys }
    {
        KeysLeft { keys }
    }

    pub(crate) fn none(alloc: Global) -> KeysLeft
        ensures { result ≡ [] }
    {
        KeysLeft {
            keys: Vec::new(alloc).into_iter(),
        }
    }

    /// Takes the next one.
    pub fn next(&mut self) -> Option<Key>
        ensures { MatchOption result ((self.old ≡ []) × (self.new ≡ []))
            (λ key. self.old ≡ key ∷ self.new) }
    {
        self.keys.next()
    }

    /// How many are left.
    pub fn len(&self) -> usize
        ensures { result ≡ length self.now }
    {
        self.keys.len()
    }

    /// Whether none is left.
    pub fn is_empty(&self) -> bool
        ensures { IsTrue result ↔ (self.now ≡ []) }
    {
        self.keys.len() == 0
    }
}
