//! Why bytes are no response.
ghost use Rattle.std.specs.Prelude.{◌≡◌};

use crate::NoMemory;
use std::alloc::{AllocError, AllocFailed};
use thiserror::Error;

/// Why bytes are no response to a request.
#[derive(Clone, Copy, Debug, PartialEq, Eq, Error)]
pub enum ReadFault {
    /// They may be the beginning of one.
    #[error("short")]
    Short,
    /// However they go on, they are none.
    #[error("unreadable")]
    Unreadable,
    /// No memory was there to keep what was read.
    #[error("memory")]
    Memory,
}

impl From<AllocError> for ReadFault {
    ghost use Rattle.std.specs.Prelude.{◌≡◌};
    ghost use Rattle.tko_text.specs.declared.response.fault.ReadFault.TheVariants.{Memory};

    ghost from_gives = { λ _ e. e ≡ Memory };

    fn from(_: AllocError) -> ReadFault {
        ReadFault::Memory
    }
}

impl From<NoMemory> for ReadFault {
    ghost use Rattle.std.specs.Prelude.{◌≡◌};
    ghost use Rattle.tko_text.specs.declared.response.fault.ReadFault.TheVariants.{Memory};

    ghost from_gives = { λ _ e. e ≡ Memory };

    fn from(_: NoMemory) -> ReadFault {
        ReadFault::Memory
    }
}
