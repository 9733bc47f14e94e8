//! How long probes wait.
ghost use Rattle.std.specs.Prelude.{◌≡◌, ◌≤◌, ◌↔◌, IfSome, IsSome};

/// From this number of results on, the first delay has doubled past every greatest delay.
const MOST_DOUBLINGS: u64 = 32;

/// How long the first probe waits, and how long any may wait, in milliseconds.
#[derive(Clone, Copy, Debug, PartialEq, Eq)]
pub struct Delays {
    first: u32,
    greatest: u32,
    ghost in_range: { (1 ≤ first) × (first ≤ greatest) },
}

impl Delays {
    ghost use Rattle.tko_prober.specs.Delay.{IsRange, delay_after};

    /// None where the first delay is 0 or above the greatest.
    pub fn new(first: u32, greatest: u32) -> Option<Delays>
        ensures some { IsSome result ↔ IsRange first greatest }
        ensures first { IfSome result (λ delays. delays.first ≡ first) }
        ensures greatest { IfSome result (λ delays. delays.greatest ≡ greatest) }
    {
        if first == 0 || first > greatest {
            return None;
        }
        Some(Delays { first, greatest })
    }

    /// The delay of the probe that follows `results` results, in milliseconds.
    pub(crate) fn after(&self, results: u64) -> u64
        ensures { result ≡ delay_after self.now results }
    {
        let greatest = u64::from(self.greatest);
        if results >= MOST_DOUBLINGS {
            return greatest;
        }
        (u64::from(self.first) << results).min(greatest)
    }
}
