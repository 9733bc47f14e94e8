//! How long the turns of late lasted.
ghost use Rattle.std.specs.Prelude.{◌≡◌};
ghost use Rattle.tko_pace.specs.Lags.{longest_of, noted_turn};

/// How long the turns of late lasted, in milliseconds: the longest of the span that goes on, and
/// the longest of the one before. A span goes on for the time limit or a little longer.
#[derive(Clone, Copy, Debug, PartialEq, Eq)]
pub struct Lag {
    limit: u64,
    since: u64,
    longest: u64,
    before: u64,
}

impl Lag {
    /// There was no turn yet.
    pub fn new(limit: u64) -> Lag
        ensures { result ≡ record { limit = limit; since = 0; longest = 0; before = 0 } }
    {
        Lag {
            limit,
            since: 0,
            longest: 0,
            before: 0,
        }
    }

    /// A turn that lasted so long ended now.
    pub fn note(&mut self, lasted: u64, now: u64)
        ensures { self.new ≡ noted_turn lasted now self.old }
    {
        if now.saturating_sub(self.since) < self.limit {
            self.longest = self.longest.max(lasted);
            return;
        }
        self.since = now;
        self.before = self.longest;
        self.longest = lasted;
    }

    /// No turn that ended within the time limit lasted longer.
    pub fn longest(&self) -> u64
        ensures { result ≡ longest_of self.now }
    {
        self.longest.max(self.before)
    }
}
