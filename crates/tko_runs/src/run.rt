//! Runs: events in order, and what they say of the words and threads.
ghost use Rattle.std.specs.Prelude.{◌≡◌};
ghost use Rattle.tko_runs.specs.States.{IsRunData};
ghost use Rattle.tko_runs.specs.Runs.{one_by_one};

pub(crate) mod claim;
pub(crate) mod event;
pub(crate) mod state;

use crate::{Event, SkippedTurn, Version};
use std::marker::Model;
use tko_model::Settings;

/// Events in order, and between them the turns that were asked for and did nothing. Contracts see
/// a `RunData`.
#[derive(Debug, Drop)]
pub struct Run {
    version: Version,
    settings: Settings,
    events: Vec<Event>,
    skips: Vec<SkippedTurns>,
}

/// A turn that was skipped `times` times in a row, after the first `after` events.
#[derive(Clone, Copy, Debug)]
pub(crate) struct SkippedTurns {
    pub after: usize,
    pub turn: SkippedTurn,
    pub times: u64,
}

impl Model for Run {
    ghost use Rattle.tko_runs.specs.States.{IsRunData};
    ghost use Rattle.tko_runs.specs.Runs.{RunData, one_by_one};

    ghost Value = { RunData };

    ghost view = { λ r. record {
      version = r.version;
      settings = r.settings;
      events = r.events.items;
      skips = one_by_one r.skips.items;
    } };

    ghost invariant = { λ r. IsRunData (record {
      version = r.version;
      settings = r.settings;
      events = r.events.items;
      skips = one_by_one r.skips.items;
    }) };
}

impl Run {
    pub(crate) fn new(
        version: Version,
        settings: Settings,
        events: Vec<Event>,
        skips: Vec<SkippedTurns>,
    ) -> Run
        requires { IsRunData (record {
          version = version;
          settings = settings;
          events = events.items;
          skips = one_by_one skips.items;
        }) }
        ensures { result ≡ record {
          version = version;
          settings = settings;
          events = events.items;
          skips = one_by_one skips.items;
        } }
    {
        Run {
            version,
            settings,
            events,
            skips,
        }
    }

    /// The version of schedules in whose form it is printed.
    pub fn version(&self) -> Version
        ensures { result ≡ self.now.version }
    {
        self.version
    }

    /// The settings that its core was opened with.
    pub fn settings(&self) -> &Settings
        ensures value { result.now ≡ self.now.settings }
        ensures run { IsRunData self.now }
    {
        &self.settings
    }

    /// What happened, in order.
    pub fn events(&self) -> &[Event]
        ensures value { result.now ≡ self.now.events }
        ensures run { IsRunData self.now }
    {
        self.events.as_slice()
    }

    pub(crate) fn skips(&self) -> &[SkippedTurns]
        ensures { one_by_one result.now ≡ self.now.skips }
    {
        self.skips.as_slice()
    }
}
