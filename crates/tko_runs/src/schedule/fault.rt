//! Why a text is no schedule.

use thiserror::Error;
use tko_bytes::NoMemory;
use tko_model::SettingsFault;

/// Why a text is no schedule.
#[derive(Clone, Copy, Debug, PartialEq, Eq, Error)]
pub enum ScheduleFault {
    /// The first bad line, counted from 1, or 0 if the text is too long.
    #[error("line {0}")]
    Line(u32),
    #[error("settings {0}")]
    Settings(SettingsFault),
    #[error("memory")]
    Memory,
}

impl From<NoMemory> for ScheduleFault {
    ghost use Rattle.std.specs.Prelude.{◌≡◌};
    ghost use Rattle.tko_runs.specs.declared.schedule.fault.ScheduleFault.TheVariants as fault;

    ghost from_gives = { λ _ e. e ≡ fault.Memory };

    fn from(_: NoMemory) -> ScheduleFault {
        ScheduleFault::Memory
    }
}
