//! The time that the probes of one worker may take.
//!
//! A worker probes one server after another while a client may wait, so its probes share a budget:
//! the time limit of one exchange. The budget refills while no server is probed. A probe always
//! gets at least a sixteenth of the limit, so that a server that answers is unmarked even while
//! many others do not answer.
ghost use Rattle.std.specs.Prelude.{◌≡◌, ◌-◌, ◌*◌};
ghost use Rattle.std.specs.Duration.{as_nanos};
ghost use Rattle.tko_tcp.specs.ProbeTimes.{IsProbeTimeGiven, IsProbeTimeTaken, nanos_in_milli};
ghost use Rattle.tko_tcp.specs.ProbeTimes.{refilled, shared_limit};

use std::time::{Clock, Duration, Instant};

/// A probe gets at least one part in this many of an exchange's time limit.
const LEAST_PART: u64 = 16;

/// The time limit of an exchange, and how much of it probes may still take, in milliseconds.
#[derive(Drop)]
pub(crate) struct ProbeTime {
    whole: u64,
    left: u64,
    /// When a probe last began or ended; None before the first, or if the clock could not be read.
    last: Option<Instant>,
}

impl ProbeTime {
    pub(crate) fn new(limit: u32) -> ProbeTime
        ensures whole { result.whole ≡ limit }
        ensures left { result.left ≡ limit }
    {
        ProbeTime {
            whole: u64::from(limit),
            left: u64::from(limit),
            last: None,
        }
    }

    /// The time limit of an exchange that is no probe.
    pub(crate) fn whole(&self) -> Duration
        ensures { as_nanos result ≡ self.now.whole * nanos_in_milli }
    {
        Duration::from_millis(self.whole)
    }

    /// Begins a probe, and returns its time limit.
    pub(crate) fn begin<C: Clock>(&mut self, clock: &C) -> Duration
        ensures { IsProbeTimeGiven self.old self.new result }
    {
        let passed = self.passed(clock);
        Duration::from_millis(self.give(passed))
    }

    /// Ends a probe: takes its time off the budget.
    pub(crate) fn end<C: Clock>(&mut self, clock: &C)
        ensures { IsProbeTimeTaken self.old self.new }
    {
        let passed = self.passed(clock);
        self.take(passed);
    }

    /// The time limit of a probe that begins `idle` milliseconds after the last one ended.
    fn give(&mut self, idle: u64) -> u64
        ensures left { self.new.left ≡ refilled self.old.whole self.old.left idle }
        ensures limit { result ≡ shared_limit self.old.whole self.new.left }
        ensures whole { self.new.whole ≡ self.old.whole }
    {
        self.left = self.left.saturating_add(idle).min(self.whole);
        self.left.max(self.whole / LEAST_PART).max(1)
    }

    /// Takes the time of a probe off the budget.
    fn take(&mut self, used: u64)
        ensures left { self.new.left ≡ self.old.left - used }
        ensures whole { self.new.whole ≡ self.old.whole }
    {
        self.left = self.left.saturating_sub(used);
    }

    /// Returns how many milliseconds passed since a probe last began or ended.
    fn passed<C: Clock>(&mut self, clock: &C) -> u64
        ensures left { self.new.left ≡ self.old.left }
        ensures whole { self.new.whole ≡ self.old.whole }
    {
        let now = Instant::now(clock).ok();
        let last = self.last;
        self.last = now;
        match (last, now) {
            (Some(from), Some(to)) => {
                u64::try_from(to.duration_since(from).as_millis()).unwrap_or(u64::MAX)
            }
            _ => 0,
        }
    }
}
