//! How the clients of a server are served.
ghost use Rattle.std.specs.Prelude.{◌≡◌};
ghost use Rattle.tko_options.specs.Modes.{default_workers, mode_named};

/// How the clients of a server are served.
#[derive(Clone, Copy, Debug, PartialEq, Eq)]
pub enum Mode {
    /// A worker serves one client at a time, to its end.
    Threads,
    /// A worker serves many clients at once, as events of their connections come.
    Events,
}

impl Mode {
    /// The mode of this name.
    pub(crate) fn named(name: &str) -> Option<Mode>
        ensures { result ≡ mode_named name.now }
    {
        if name == "threads" {
            return Some(Mode::Threads);
        }
        if name == "events" {
            return Some(Mode::Events);
        }
        None
    }

    /// How many workers there are where their number is not given.
    pub(crate) fn workers(self) -> u32
        ensures { result ≡ default_workers self }
    {
        match self {
            Mode::Threads => 4,
            Mode::Events => 2,
        }
    }
}
