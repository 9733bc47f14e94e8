//! The time in which a response has to make progress or to end.
ghost use Rattle.std.specs.Prelude.{◌≡◌, ◌-◌};
ghost use Rattle.tko_tcp.specs.ExchangeTimes.{begun_progress, looked_progress};

/// How many bytes of a response are progress.
const PROGRESS: u64 = 65_536;

/// The time in which a response has to make progress or to end. It begins with its exchange, and
/// anew with each `PROGRESS` bytes of it.
#[derive(Clone, Copy, Debug, PartialEq, Eq)]
pub(crate) struct Progress {
    /// Since when, in milliseconds for which the exchange ran.
    pub(crate) since: u64,
    /// How many bytes are missing until it begins anew.
    missing: u64,
}

impl Progress {
    /// It begins at this moment.
    pub(crate) fn begin(now: u64) -> Progress
        ensures { result ≡ begun_progress now }
    {
        Progress {
            since: now,
            missing: PROGRESS,
        }
    }

    /// So many bytes of the response came.
    pub(crate) fn come(&mut self, count: usize)
        ensures { self.new ≡ record self.old { missing = self.old.missing - count } }
    {
        self.missing = self.missing.saturating_sub(count as u64);
    }

    /// This is the moment at which the last bytes came, if any did since the last look.
    pub(crate) fn look(&mut self, now: u64)
        ensures { self.new ≡ looked_progress now self.old }
    {
        if self.missing == 0 {
            *self = Progress::begin(now);
        }
    }
}
