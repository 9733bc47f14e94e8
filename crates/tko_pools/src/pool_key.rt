//! The keys of a pool that say how it spreads keys over its servers.
ghost use Rattle.std.specs.Prelude.{◌≡◌};
ghost use Rattle.tko_pools.specs.PoolKeys.{pool_key_word};

/// A key of a pool that says how the pool spreads keys over its servers, as `hash_tag`.
#[derive(Clone, Copy, Debug, PartialEq, Eq)]
pub enum PoolKey {
    Distribution,
    Hash,
    HashTag,
    UnhashedPrefix,
    Weights,
    Names,
}

impl PoolKey {
    /// The word that names it in a fault, as `hash-tag`.
    pub fn word(self) -> &'static str
        ensures { result.now ≡ pool_key_word self }
    {
        match self {
            PoolKey::Distribution => "distribution",
            PoolKey::Hash => "hash",
            PoolKey::HashTag => "hash-tag",
            PoolKey::UnhashedPrefix => "unhashed-prefix",
            PoolKey::Weights => "weights",
            PoolKey::Names => "names",
        }
    }
}
