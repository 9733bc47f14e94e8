//! Runs of any events that are claimed.
ghost use Rattle.std.specs.Prelude.{◌≡◌, [], IfOk, IfErr};
ghost use Rattle.tko_runs.specs.States.{IsClaimFault};
ghost use Rattle.tko_runs.specs.Versions.{version_of};

use crate::run::state::RunWords;
use crate::{Event, Run, Version};
use std::alloc::Global;
use thiserror::Error;
use tko_bytes::NoMemory;
use tko_model::{Settings, SettingsFault};

/// Why a claim is no run. The settings are judged first.
#[derive(Clone, Copy, Debug, PartialEq, Eq, Error)]
pub enum ClaimFault {
    #[error("settings {0}")]
    Settings(SettingsFault),
    /// The number, counted from 1, of the first event that can't come next: a number is out of its
    /// range, a call is begun by a thread that isn't enrolled or has one, a thread enrols twice or
    /// not with the number of those before it, or a thread without a call takes a step.
    #[error("event {0}")]
    Event(usize),
    #[error("memory")]
    Memory,
}

impl From<NoMemory> for ClaimFault {
    ghost use Rattle.std.specs.Prelude.{◌≡◌};
    ghost use Rattle.tko_runs.specs.declared.run.claim.ClaimFault.TheVariants as fault;

    ghost from_gives = { λ _ e. e ≡ fault.Memory };

    fn from(_: NoMemory) -> ClaimFault {
        ClaimFault::Memory
    }
}

impl Run {
    /// The run that is claimed, whatever words its steps find and leave; `check` judges these. It
    /// prints as one of version 1 if its servers are all in one group, else as one of version 2.
    pub fn of(alloc: Global, settings: Settings, events: Vec<Event>) -> Result<Run, ClaimFault>
        ensures ok { IfOk result (λ run.
            run ≡ record {
              version = version_of settings;
              settings = settings;
              events = events.items;
              skips = [];
            }) }
        ensures err { IfErr result (IsClaimFault settings events.items) }
    {
        if let Err(outside) = settings.check() {
            return Err(ClaimFault::Settings(outside));
        }
        let mut state = RunWords::open(alloc, &settings)?;
        for (place, event) in events.iter().enumerate() {
            if !state.admits(event) {
                return Err(ClaimFault::Event(place + 1));
            }
            state.record(event);
        }
        let version = Version::of_claim(&settings);
        Ok(Run::new(version, settings, events, Vec::new(alloc)))
    }
}
