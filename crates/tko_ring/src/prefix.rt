//! A prefix of keys.
ghost use Rattle.std.specs.Prelude.{◌≡◌, IfOk, IsTrue};

use std::alloc::Global;
use std::marker::Model;
use tko_bytes::NoMemory;

/// What some clients put in front of a key and do not hash. In contracts it is the list of its
/// bytes.
#[derive(Debug, Drop)]
pub struct Prefix {
    bytes: Vec<u8>,
}

impl Model for Prefix {
    ghost use Rattle.std.specs.Prelude.{List, ℕ};

    ghost Value = { List ℕ };

    ghost view = { λ p. p.bytes.items };
}

impl Prefix {
    pub fn of(alloc: Global, bytes: &[u8]) -> Result<Prefix, NoMemory>
        ensures { IfOk result (λ prefix. prefix ≡ bytes.now) }
    {
        Ok(Prefix {
            bytes: Vec::from_slice(alloc, bytes)?,
        })
    }

    pub fn bytes(&self) -> &[u8]
        ensures { result.now ≡ self.now }
    {
        self.bytes.as_slice()
    }

    pub(crate) fn copy(&self, alloc: Global) -> Result<Prefix, NoMemory>
        ensures { IfOk result (λ copy. copy ≡ self.now) }
    {
        Prefix::of(alloc, self.bytes.as_slice())
    }

    pub(crate) fn is_same(&self, other: &Prefix) -> bool
        ensures { IsTrue result → self.now ≡ other.now }
    {
        is_same_text(self.bytes(), other.bytes())
    }
}

fn is_same_text(one: &[u8], other: &[u8]) -> bool
    ensures { IsTrue result → one.now ≡ other.now }
{
    one == other
}
