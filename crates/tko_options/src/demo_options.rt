//! The options of `demo`.
ghost use Rattle.clap.specs.Words.{found_of};
ghost use Rattle.tko_options.specs.Found.{AreDemoFound};

use crate::found::switch_of;
use clap::ArgMatches;

/// The options of `demo`.
#[derive(Clone, Copy, Debug)]
pub struct DemoOptions {
    /// Whether the proxy and its servers stay once the story has ended.
    pub stay: bool,
}

impl DemoOptions {
    pub(crate) fn of(found: &ArgMatches<'_>) -> DemoOptions
        ensures { AreDemoFound (found_of found.now) result }
    {
        DemoOptions {
            stay: switch_of(found, "stay"),
        }
    }
}
