//! Versions of the text of schedules.
ghost use Rattle.std.specs.Prelude.{◌≡◌};
ghost use Rattle.tko_runs.specs.Versions.{header_lines, layout_of, version_of};

use tko_model::{Layout, Settings};

/// A version of the text of schedules. It says which lines the header has, what ranges the settings
/// have, and how a run names the groups of servers.
#[derive(Clone, Copy, Debug, PartialEq, Eq)]
pub enum Version {
    /// All servers are in one group, which a run does not name.
    One,
    /// Each server has a group, which a run names by its number.
    Two,
    /// The second, with the second layout's ranges.
    Three,
}

impl Version {
    /// The layout whose ranges the settings of a schedule have.
    pub fn layout(self) -> Layout
        ensures { result ≡ layout_of self }
    {
        match self {
            Version::One | Version::Two => Layout::One,
            Version::Three => Layout::Two,
        }
    }

    /// The number of header lines.
    pub(crate) fn header_lines(self) -> u32
        ensures { result ≡ header_lines self }
    {
        match self {
            Version::One => 7,
            Version::Two | Version::Three => 8,
        }
    }

    /// The version in whose form a claimed run is printed: the first with one group, else the
    /// second.
    pub(crate) fn of_claim(settings: &Settings) -> Version
        ensures { result ≡ version_of settings.now }
    {
        if settings.limits.len() == 1 {
            Version::One
        } else {
            Version::Two
        }
    }
}
