//! The options of `dry`.
ghost use Rattle.std.specs.Prelude.{◌≡◌, IfOk};
ghost use Rattle.clap.specs.Words.{found_of};
ghost use Rattle.tko_options.specs.Found.{AreDryFound};
ghost use Rattle.tko_options.specs.Trackers.{dry_settings};

use crate::found::{number_of, optional_text, switch_of, text_of};
use clap::ArgMatches;
use std::alloc::{AllocError, Global};
use tko_model::OneGroup;

/// How many threads the tracker has; `dry` uses thread 0.
const THREADS: u32 = 4;

/// The options of `dry`.
#[derive(Debug, Drop)]
pub struct DryOptions {
    pub servers: u32,
    pub failures: u32,
    pub limit: u32,
    pub tries: u32,
    /// The JSON of the configuration.
    pub config: Option<String>,
    /// The path of the configuration's file.
    pub config_file: Option<String>,
    pub outcomes: String,
    pub trail: bool,
}

impl DryOptions {
    pub(crate) fn of(alloc: Global, found: &ArgMatches<'_>) -> Result<DryOptions, AllocError>
        ensures { IfOk result (AreDryFound (found_of found.now)) }
    {
        Ok(DryOptions {
            servers: number_of(found, "servers"),
            failures: number_of(found, "failures"),
            limit: number_of(found, "limit"),
            tries: number_of(found, "tries"),
            config: optional_text(alloc, found, "config")?,
            config_file: optional_text(alloc, found, "config-file")?,
            outcomes: text_of(alloc, found, "outcomes")?,
            trail: switch_of(found, "trail"),
        })
    }

    /// The settings of a tracker of `servers` servers without groups, with the limit of all that
    /// have none of their own.
    pub fn settings(&self, servers: u32) -> OneGroup
        ensures { result ≡ dry_settings self.now servers }
    {
        OneGroup {
            servers,
            threads: THREADS,
            failures: self.failures,
            limit: self.limit,
            tries: self.tries,
            opening_stamp: 0,
        }
    }
}
