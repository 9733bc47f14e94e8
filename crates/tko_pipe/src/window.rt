//! How a connection makes progress.
ghost use Rattle.std.specs.Prelude.{◌≡◌};
ghost use Rattle.tko_pipe.specs.Windows.{begun_window, late_after, read_window, unbegun_window};

/// How many bytes are progress of a connection.
pub const PROGRESS: usize = 65_536;

/// Since when how many bytes came on a connection. It begins anew with each `PROGRESS` bytes, so
/// they are always fewer.
#[derive(Clone, Copy, Debug, PartialEq, Eq)]
pub struct Window {
    /// When it began, if so many bytes ever came.
    pub since: Option<u64>,
    /// How many bytes came after that.
    pub came: usize,
}

impl Window {
    /// That of a connection on which no byte came.
    pub(crate) fn unbegun() -> Window
        ensures { result ≡ unbegun_window }
    {
        Window {
            since: None,
            came: 0,
        }
    }

    /// One that begins at this moment.
    fn begun(now: u64) -> Window
        ensures { result ≡ begun_window now }
    {
        Window {
            since: Some(now),
            came: 0,
        }
    }

    /// The same after a read of so many bytes at this moment.
    pub(crate) fn after_read(self, now: u64, count: usize) -> Window
        ensures { result ≡ read_window now count self }
    {
        if PROGRESS.saturating_sub(self.came) <= count {
            return Window::begun(now);
        }
        Window {
            since: self.since,
            came: self.came + count,
        }
    }

    /// The moment at which a response is late that is due at this one, under this time limit.
    pub(crate) fn late_after(self, limit: u64, due: u64) -> u64
        ensures { result ≡ late_after self limit due }
    {
        match self.since {
            Some(since) => due.max(since.saturating_add(limit)),
            None => due,
        }
    }
}
