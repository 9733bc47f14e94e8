//! The probes of one marked server.
ghost use Rattle.std.specs.Prelude.{◌≡◌, ◌↔◌, IsTrue};
ghost use Rattle.tko_prober.specs.Delay.{due_after};
ghost use Rattle.tko_prober.specs.Probes.{IsDue, begun_prober, ended, sent, asked_after, next_at, with_result};

use crate::Delays;

/// What a prober is at.
#[derive(Clone, Copy, Debug, PartialEq, Eq)]
pub enum ProberStage {
    /// No probe is out, and the next one is due at this moment, in milliseconds of the caller's
    /// clock.
    Resting(u64),
    /// A probe is out.
    Out,
    /// The server recovered or the prober was stopped: it never probes again.
    Ended,
}

/// Whether to send a probe now.
#[derive(Clone, Copy, Debug, PartialEq, Eq)]
pub enum ProbeTurn {
    Send,
    Rest,
}

/// What came of a probe.
#[derive(Clone, Copy, Debug, PartialEq, Eq)]
pub enum Probed {
    /// The server responded.
    Answered,
    /// It refused the connection.
    Refused,
    /// Anything else.
    Failed,
}

/// What the thread that is responsible for the server records then.
#[derive(Clone, Copy, Debug, PartialEq, Eq)]
pub enum AfterProbe {
    /// A success.
    Recover,
    /// A hard failure.
    Harden,
    /// Nothing: a further probe follows.
    Again,
}

/// The probes of one server, from its mark until it recovers or the prober is stopped. The results
/// that did not recover it are counted, up to 2^64 - 1.
#[derive(Debug, Drop)]
pub struct Prober {
    delays: Delays,
    results: u64,
    stage: ProberStage,
}

impl Prober {
    /// A prober whose first probe is due at `now` plus the first delay. Moments are milliseconds of
    /// one clock of the caller's choice, here and below.
    pub fn begin(delays: Delays, now: u64) -> Prober
        ensures { result ≡ begun_prober delays now }
    {
        Prober {
            delays,
            results: 0,
            stage: ProberStage::Resting(due(delays, 0, now)),
        }
    }

    /// Send exactly where no probe is out, the prober has not ended, and `now` is at or past the
    /// due moment.
    pub fn turn(&mut self, now: u64) -> ProbeTurn
        ensures when { (result ≡ ProbeTurn.Send) ↔ IsDue self.old.stage now }
        ensures send { result ≡ ProbeTurn.Send → self.new ≡ sent self.old }
        ensures rest { result ≡ ProbeTurn.Rest → self.new ≡ self.old }
    {
        match self.stage {
            ProberStage::Resting(moment) if moment <= now => {
                self.stage = ProberStage::Out;
                ProbeTurn::Send
            }
            ProberStage::Resting(_) | ProberStage::Out | ProberStage::Ended => ProbeTurn::Rest,
        }
    }

    /// Takes the result of the probe that is out.
    pub fn result(&mut self, now: u64, probed: Probed) -> AfterProbe
        requires { self.old.stage ≡ ProberStage.Out }
        ensures asked { result ≡ asked_after probed }
        ensures state { self.new ≡ with_result self.old now probed }
    {
        match probed {
            Probed::Answered => {
                self.stage = ProberStage::Ended;
                AfterProbe::Recover
            }
            Probed::Refused => {
                self.wait(now);
                AfterProbe::Harden
            }
            Probed::Failed => {
                self.wait(now);
                AfterProbe::Again
            }
        }
    }

    /// Counts a result, and waits for the next probe.
    fn wait(&mut self, now: u64)
        ensures { self.new ≡ with_result self.old now Probed.Failed }
    {
        self.results = self.results.saturating_add(1);
        self.stage = ProberStage::Resting(due(self.delays, self.results, now));
    }

    /// Ends the prober, for instance where the server is no longer this thread's to probe.
    pub fn stop(&mut self)
        ensures { self.new ≡ ended self.old }
    {
        self.stage = ProberStage::Ended;
    }

    /// When the next probe is due, if none is out and one follows.
    pub fn next_at(&self) -> Option<u64>
        ensures { result ≡ next_at self.now.stage }
    {
        match self.stage {
            ProberStage::Resting(moment) => Some(moment),
            ProberStage::Out | ProberStage::Ended => None,
        }
    }

    /// Whether a probe is out.
    pub fn is_out(&self) -> bool
        ensures { IsTrue result ↔ (self.now.stage ≡ ProberStage.Out) }
    {
        matches!(self.stage, ProberStage::Out)
    }
}

/// When the probe that follows `results` results is due, where the last one came at `now`.
fn due(delays: Delays, results: u64, now: u64) -> u64
    ensures { result ≡ due_after delays results now }
{
    now.saturating_add(delays.after(results))
}
