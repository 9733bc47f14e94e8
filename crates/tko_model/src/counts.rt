//! A number for each kind.
ghost use Rattle.std.specs.Prelude.{◌≡◌, ◌+◌, ◌<◌, ◌↔◌, IfSome, None};
ghost use Rattle.tko_model.specs.Numbers.{most, no_counts, number_of_kind, raised, saturated, with_number};

use crate::Kind;

/// A number for each kind.
#[derive(Clone, Copy, Debug, PartialEq, Eq)]
pub struct Counts {
    request: u64,
    attempt: u64,
    skip: u64,
    reply: u64,
    no_server: u64,
    probe: u64,
}

impl Counts {
    /// Nothing was counted.
    pub fn new() -> Counts
        ensures { result ≡ no_counts }
    {
        Counts {
            request: 0,
            attempt: 0,
            skip: 0,
            reply: 0,
            no_server: 0,
            probe: 0,
        }
    }

    /// The number of a kind.
    pub fn of(&self, kind: Kind) -> u64
        ensures { result ≡ number_of_kind kind self.now }
    {
        match kind {
            Kind::Request => self.request,
            Kind::Attempt => self.attempt,
            Kind::Skip => self.skip,
            Kind::Reply => self.reply,
            Kind::NoServer => self.no_server,
            Kind::Probe => self.probe,
        }
    }

    /// `by` more of a kind, or none where the number would come to more than 2^64 - 1.
    pub fn checked_add(self, kind: Kind, by: u64) -> Option<Counts>
        ensures some { IfSome result (λ counts. counts ≡ raised kind by self) }
        ensures none { (result ≡ None) ↔ (most < number_of_kind kind self + by) }
    {
        let number = self.of(kind).checked_add(by)?;
        Some(self.with(kind, number))
    }

    /// `by` more of a kind. Its number stays at 2^64 - 1.
    pub fn saturating_add(self, kind: Kind, by: u64) -> Counts
        ensures { result ≡ saturated kind by self }
    {
        self.with(kind, self.of(kind).saturating_add(by))
    }

    /// This number of a kind, and as many as before of every other.
    fn with(mut self, kind: Kind, number: u64) -> Counts
        ensures { result ≡ with_number kind number self }
    {
        match kind {
            Kind::Request => self.request = number,
            Kind::Attempt => self.attempt = number,
            Kind::Skip => self.skip = number,
            Kind::Reply => self.reply = number,
            Kind::NoServer => self.no_server = number,
            Kind::Probe => self.probe = number,
        }
        self
    }
}
