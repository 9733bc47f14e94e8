//! The time of a client that is looked at now and then.
ghost use Rattle.std.specs.Prelude.{◌≡◌, ◌↔◌, IsFalse, None};
ghost use Rattle.tko_pace.specs.ClientTimes.{IsSilentAt, IsSlowAt, after_time_look, is_in_time, is_quiet};

use crate::{Pace, is_over};

/// How far a client is.
#[derive(Clone, Copy, Debug, PartialEq, Eq)]
pub struct ClientProgress {
    /// How many of its requests were answered.
    pub requests: u64,
    /// How many bytes of its replies it took.
    pub taken: u64,
    /// How many bytes of its replies wait.
    pub waiting: usize,
    /// Whether a request of it is under way.
    pub is_asking: bool,
}

/// Whether a client keeps its limits.
#[derive(Clone, Copy, Debug, PartialEq, Eq)]
pub enum Verdict {
    Stays,
    /// It completed no request for too long.
    Silent,
    /// It took too little of its replies.
    Slow,
}

/// What is known of the time of a client. Moments are milliseconds of one clock.
#[derive(Clone, Copy, Debug)]
pub struct ClientTime {
    /// When it was looked at last, or began.
    looked: u64,
    /// How many of its requests were answered at the last look.
    requests: u64,
    /// Since when it has completed no request, although it was free to send one.
    since: u64,
    /// How many bytes of its replies it had taken at the last look, and how many waited.
    taken: u64,
    waiting: usize,
    pace: Pace,
}

impl ClientTime {
    /// A client begins, which must take 64 KiB of the replies that wait, or all of them, in each
    /// `write` milliseconds.
    pub fn begin(now: u64, write: u32) -> ClientTime
        ensures { result ≡ record {
          looked = now;
          requests = 0;
          since = now;
          taken = 0;
          waiting = 0;
          pace = record { limit = write; span = None };
        } }
    {
        ClientTime {
            looked: now,
            requests: 0,
            since: now,
            taken: 0,
            waiting: 0,
            pace: Pace::new(write),
        }
    }

    /// Whether a client that is so far keeps its limits at this moment, and may complete no request
    /// for `idle` milliseconds. A limit of 0 is none. While a request of it is under way and while
    /// replies wait, no time passes in which it completes none; and while a request of it is under
    /// way, no replies are offered to it, so that it need not take any.
    pub fn look(&mut self, now: u64, progress: ClientProgress, idle: u32) -> Verdict
        ensures silent { (result ≡ Verdict.Silent) ↔ IsSilentAt idle now progress self.old }
        ensures slow { (result ≡ Verdict.Slow) ↔ IsSlowAt now progress self.old }
        ensures time { self.new ≡ after_time_look (is_in_time result) now progress self.old }
    {
        let is_quiet = self.is_quiet(progress);
        let is_silent = is_quiet && is_over(idle, self.since, now);
        if !is_quiet {
            self.since = now;
        }
        if !self.take(now, progress) {
            return Verdict::Slow;
        }
        if is_silent {
            return Verdict::Silent;
        }
        Verdict::Stays
    }

    /// Whether it could have sent a request since the last look, and completed none.
    fn is_quiet(&self, progress: ClientProgress) -> bool
        ensures { result ≡ is_quiet progress self.now }
    {
        self.requests == progress.requests && !progress.is_asking && progress.waiting == 0
    }

    /// Learns how far it is. Returns whether it takes its replies in time.
    fn take(&mut self, now: u64, progress: ClientProgress) -> bool
        ensures slow { IsFalse result ↔ IsSlowAt now progress self.old }
        ensures time { self.new ≡ record (after_time_look result now progress self.old) {
          since = self.old.since;
        } }
    {
        let count = progress.taken.saturating_sub(self.taken);
        let count = count.min(self.waiting as u64) as usize;
        self.pace.take(count, self.waiting);
        if progress.is_asking {
            self.pace.delay(now.saturating_sub(self.looked));
        }
        self.looked = now;
        self.requests = progress.requests;
        self.taken = progress.taken;
        self.waiting = progress.waiting;
        if progress.waiting == 0 || progress.is_asking || !self.pace.is_limited() {
            return true;
        }
        self.pace.begin(now)
    }
}
