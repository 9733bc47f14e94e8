//! Schedules, and how they are read.
ghost use Rattle.std.specs.Prelude.{◌≡◌, Ok, IfOk, IfErr};
ghost use Rattle.tko_runs.specs.Schedules.{IsTextFault, reads};

pub(crate) mod command;
mod commands;
pub(crate) mod fault;
mod header;

use crate::schedule::commands::read_commands;
use crate::schedule::header::read_header;
use crate::{Command, ScheduleFault, Version};
use std::alloc::Global;
use std::marker::Model;
use tko_model::Settings;

/// The most bytes of a schedule.
const MAX_BYTES: usize = 1_048_576;

/// The settings of a tracker, and then what its threads do. Contracts see a `Plan`: the version,
/// the settings, which are in the ranges of its layout, and the list of the commands.
#[derive(Debug, Drop)]
pub struct Schedule {
    version: Version,
    settings: Settings,
    commands: Vec<Command>,
}

impl Model for Schedule {
    ghost use Rattle.tko_runs.specs.Schedules.{IsPlan, Plan};

    ghost Value = { Plan };

    ghost view = { λ s. record {
      version = s.version;
      settings = s.settings;
      commands = s.commands.items;
    } };

    ghost invariant = { λ s. IsPlan (record {
      version = s.version;
      settings = s.settings;
      commands = s.commands.items;
    }) };
}

impl Schedule {
    ghost use Rattle.tko_runs.specs.Schedules.{IsPlan};

    /// Reads a schedule. The lines are judged first, and then the settings.
    pub fn read(alloc: Global, bytes: &[u8]) -> Result<Schedule, ScheduleFault>
        ensures ok { IfOk result (λ schedule. reads bytes.now ≡ Ok schedule) }
        ensures err { IfErr result (λ fault. IsTextFault bytes.now fault) }
    {
        if bytes.len() > MAX_BYTES {
            return Err(ScheduleFault::Line(0));
        }
        let (version, settings, rest) = read_header(alloc, bytes)?;
        let commands = read_commands(alloc, version.header_lines(), rest)?;
        if let Err(outside) = settings.check_in(version.layout()) {
            return Err(ScheduleFault::Settings(outside));
        }
        Ok(Schedule {
            version,
            settings,
            commands,
        })
    }

    /// The version of its text, in whose form its run is printed.
    pub fn version(&self) -> Version
        ensures { result ≡ self.now.version }
    {
        self.version
    }

    /// The settings that the tracker is opened with.
    pub fn settings(&self) -> &Settings
        ensures value { result.now ≡ self.now.settings }
        ensures plan { IsPlan self.now }
    {
        &self.settings
    }

    /// What the threads do, in order.
    pub fn commands(&self) -> &[Command]
        ensures value { result.now ≡ self.now.commands }
    {
        self.commands.as_slice()
    }
}
