//! How keys are hashed.
ghost use Rattle.std.specs.Prelude.{◌≡◌, IfOk, IsTrue};
ghost use Rattle.tko_ring.specs.Hashing.{hash_of};
ghost use Rattle.tko_ring.specs.KeyParts.{hashed_part};

use std::alloc::Global;
use tko_bytes::NoMemory;
use tko_ring::{KeyHash, KeyPart};

/// The part of a key that is hashed, and by which function.
#[derive(Debug, Drop)]
pub(crate) struct Hashing {
    pub hash: KeyHash,
    pub part: KeyPart,
}

impl Hashing {
    /// The hash of a key.
    pub fn of(&self, key: &[u8]) -> u32
        ensures { result ≡ hash_of self.now.hash (hashed_part self.now.part key.now) }
    {
        self.hash.of(self.part.of(key))
    }

    pub fn copy(&self, alloc: Global) -> Result<Hashing, NoMemory>
        ensures { IfOk result (λ copy. copy ≡ self.now) }
    {
        Ok(Hashing {
            hash: self.hash,
            part: self.part.copy(alloc)?,
        })
    }

    /// Whether another is the same.
    pub fn is_same(&self, other: &Hashing) -> bool
        ensures { IsTrue result → self.now ≡ other.now }
    {
        self.hash == other.hash && self.part.is_same(&other.part)
    }
}
