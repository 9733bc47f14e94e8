//! Why a server ends.

use crate::AnnounceFault;
use thiserror::Error;
use tko_bytes::NoMemory;
use tko_model::{OpenFault, SettingsFault};

/// Why a server ended without its totals.
#[derive(Clone, Copy, Debug, PartialEq, Eq, Error)]
pub enum ServerRunFault {
    #[error("settings {0}")]
    Settings(SettingsFault),
    #[error("memory")]
    Memory,
    /// Announcing that clients can connect failed.
    #[error("announce")]
    Announce,
    /// Accepting connections failed.
    #[error("accept")]
    Accept,
}

impl From<NoMemory> for ServerRunFault {
    ghost use Rattle.std.specs.Prelude.{◌≡◌};
    ghost use Rattle.tko_server.specs.declared.run_fault.ServerRunFault.TheVariants.{Memory};

    ghost from_gives = { λ _ fault. fault ≡ Memory };

    fn from(_: NoMemory) -> ServerRunFault {
        ServerRunFault::Memory
    }
}

impl From<AnnounceFault> for ServerRunFault {
    ghost use Rattle.std.specs.Prelude.{◌≡◌};
    ghost use Rattle.tko_server.specs.declared.run_fault.ServerRunFault.TheVariants.{Announce};

    ghost from_gives = { λ _ fault. fault ≡ Announce };

    fn from(_: AnnounceFault) -> ServerRunFault {
        ServerRunFault::Announce
    }
}

impl From<SettingsFault> for ServerRunFault {
    ghost use Rattle.std.specs.Prelude.{◌≡◌};
    ghost use Rattle.tko_server.specs.declared.run_fault.ServerRunFault.TheVariants.{Settings};

    ghost from_gives = { λ cause fault. fault ≡ Settings cause };

    fn from(setting: SettingsFault) -> ServerRunFault {
        ServerRunFault::Settings(setting)
    }
}

impl From<OpenFault> for ServerRunFault {
    ghost use Rattle.std.specs.Prelude.{◌≡◌};
    ghost use Rattle.tko_server.specs.Runs.{run_fault_of_opening};

    ghost from_gives = { λ cause fault. fault ≡ run_fault_of_opening cause };

    fn from(fault: OpenFault) -> ServerRunFault {
        match fault {
            OpenFault::Settings(setting) => ServerRunFault::Settings(setting),
            OpenFault::Memory => ServerRunFault::Memory,
        }
    }
}
