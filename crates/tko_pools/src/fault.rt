//! Why a text is no configuration.

use crate::PoolKey;
use std::alloc::AllocError;
use thiserror::Error;
use tko_bytes::NoMemory;

/// Why a text is no configuration, the first that applies in this order; only `Memory` may come in
/// place of any other.
#[derive(Debug, Drop, Error)]
pub enum ConfigFault {
    /// The text is no JSON, nests more than 127 deep, or is no object.
    #[error("json")]
    Json,
    /// `pools` is missing or no object.
    #[error("no-pools")]
    NoPools,
    /// The pool of this name has no list of one server or more.
    #[error("empty-pool")]
    EmptyPool(String),
    /// This item of a pool's list is no address; one that is no text stands as the empty text.
    #[error("address")]
    Address(String),
    /// The pool of this name has a soft limit that is no whole number from 0 to 256.
    #[error("soft-limit")]
    SoftLimit(String),
    /// This key of the pool of this name does not say how the pool spreads keys over its servers.
    #[error("{}", .0.word())]
    PoolKey(PoolKey, String),
    /// `route` is missing or has another form.
    #[error("route")]
    Route,
    /// A child of the route names this pool, which does not exist.
    #[error("no-such-pool")]
    NoSuchPool(String),
    /// The children have more than 256 different addresses.
    #[error("too-many-servers")]
    TooManyServers,
    #[error("memory")]
    Memory,
}

impl From<AllocError> for ConfigFault {
    ghost use Rattle.std.specs.Prelude.{◌≡◌};
    ghost use Rattle.tko_pools.specs.declared.fault.ConfigFault.TheVariants as fault;

    ghost from_gives = { λ _ e. e ≡ fault.Memory };

    fn from(_: AllocError) -> ConfigFault {
        ConfigFault::Memory
    }
}

impl From<NoMemory> for ConfigFault {
    ghost use Rattle.std.specs.Prelude.{◌≡◌};
    ghost use Rattle.tko_pools.specs.declared.fault.ConfigFault.TheVariants as fault;

    ghost from_gives = { λ _ e. e ≡ fault.Memory };

    fn from(_: NoMemory) -> ConfigFault {
        ConfigFault::Memory
    }
}
