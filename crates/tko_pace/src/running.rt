//! The time in which a process runs, by a clock that goes on while it does not.
ghost use Rattle.std.specs.Prelude.{◌≡◌, ◌<◌, ◌≤◌, ◌*◌};
ghost use Rattle.tko_pace.specs.Running.{counted_time, stall_share, ran_to};

/// For how long a process ran, in milliseconds, as a clock shows it that is read again and again. A
/// process that is stopped, or whose machine is, reads no clock: where more time than a wait and
/// half the limit passed between two readings, it stalled, and a quarter of the limit counts for
/// that time. So a limit outlasts three stalls, and never four.
#[derive(Clone, Copy, Debug, PartialEq, Eq)]
pub struct RunningTime {
    /// The time limit that is reckoned by it.
    limit: u64,
    /// What the clock showed last.
    shown: u64,
    /// How long the process had run by then.
    ran: u64,
}

impl RunningTime {
    /// The process begins, by a clock that shows 0.
    pub fn new(limit: u64) -> RunningTime
        ensures { result ≡ record { limit = limit; shown = 0; ran = 0 } }
    {
        RunningTime {
            limit,
            shown: 0,
            ran: 0,
        }
    }

    /// The clock shows this now, and since it was read before the process waited at most so long.
    pub fn read(&mut self, shown: u64, wait: u64)
        ensures { self.new ≡ ran_to shown wait self.old }
    {
        let passed = shown.saturating_sub(self.shown);
        self.ran = self
            .ran
            .saturating_add(counted_time(self.limit, wait, passed));
        self.shown = shown;
    }

    /// The time limit that is reckoned by it.
    pub fn limit(&self) -> u64
        ensures { result ≡ self.now.limit }
    {
        self.limit
    }

    /// How long the process had run when the clock was read last.
    pub fn moment(&self) -> u64
        ensures { result ≡ self.now.ran }
    {
        self.ran
    }
}

/// How much counts of the time that passed between two readings, where the process waited at most
/// so long in it.
fn counted_time(limit: u64, wait: u64, passed: u64) -> u64
    ensures { result ≡ counted_time limit wait passed }
{
    if passed.saturating_sub(wait) <= limit / 2 {
        return passed;
    }
    stall_share(limit)
}

/// How much of a limit a stall takes.
fn stall_share(limit: u64) -> u64
    ensures share { result ≡ stall_share limit }
    ensures three { 9 < limit → 3 * result < limit }
    ensures four { limit ≤ 4 * result }
{
    limit / 4 + (limit % 4).min(1)
}
