//! Why a session ends before its input does.

use std::alloc::AllocError;
use thiserror::Error;
use tko_bytes::NoMemory;
use tko_text::FeedFault;

/// Why a session ended.
#[derive(Clone, Copy, Debug, PartialEq, Eq, Error)]
pub enum SessionFault {
    #[error("read")]
    Read,
    /// This number of bytes of the session was written; the greatest number stands for more, too.
    #[error("write after {0} bytes")]
    Write(u64),
    #[error("line too long")]
    LineTooLong,
    #[error("memory")]
    Memory,
}

impl From<AllocError> for SessionFault {
    ghost use Rattle.std.specs.Prelude.{◌≡◌};
    ghost use Rattle.tko_session.specs.declared.fault.SessionFault.TheVariants as fault;

    ghost from_gives = { λ _ e. e ≡ fault.Memory };

    fn from(_: AllocError) -> SessionFault {
        SessionFault::Memory
    }
}

impl From<NoMemory> for SessionFault {
    ghost use Rattle.std.specs.Prelude.{◌≡◌};
    ghost use Rattle.tko_session.specs.declared.fault.SessionFault.TheVariants as fault;

    ghost from_gives = { λ _ e. e ≡ fault.Memory };

    fn from(_: NoMemory) -> SessionFault {
        SessionFault::Memory
    }
}

impl From<FeedFault> for SessionFault {
    ghost use Rattle.std.specs.Prelude.{◌≡◌};
    ghost use Rattle.tko_session.specs.Faults.{session_fault_of};

    ghost from_gives = { λ fault e. e ≡ session_fault_of fault };

    fn from(fault: FeedFault) -> SessionFault {
        match fault {
            FeedFault::Failed => SessionFault::LineTooLong,
            FeedFault::Memory => SessionFault::Memory,
        }
    }
}
