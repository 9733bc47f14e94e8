//! The moments of a worker's turns, and the one that it judges by.
ghost use Rattle.std.specs.Prelude.{◌≡◌};
ghost use Rattle.tko_pace.specs.TurnTimes.{HasTurnBegun, HasTurnEnded, IsTurnOver, fresh_turns, moments_of, turn_begun};

use crate::{Lag, RunningTime};
use std::marker::Model;

/// The moments of a turn, as the times of its worker give them.
#[derive(Clone, Copy, Debug)]
pub struct TurnMoments {
    began: u64,
    judged: u64,
    due: u64,
}

impl TurnMoments {
    /// When it began: what is read in it counts as read at this moment.
    pub fn began(&self) -> u64
        ensures { result ≡ self.now.began }
    {
        self.began
    }

    /// What was due by this moment is late, once all was read that came by then.
    pub fn judged(&self) -> u64
        ensures { result ≡ self.now.judged }
    {
        self.judged
    }

    /// Until this moment the answer to what is asked in it has time.
    pub fn due(&self) -> u64
        ensures { result ≡ self.now.due }
    {
        self.due
    }
}

/// The time of a worker that waits for events, does what they allow, writes, and waits again. What
/// it asks in a turn is due one time limit after the turn began. It is late once that moment was
/// passed before a wait whose events were all noted, by as much as the turns of late lasted: so
/// the limit counts from a moment not before the writes of its turn, and what came by then was
/// there to be read.
#[derive(Drop)]
pub struct TurnTimes {
    time: RunningTime,
    lag: Lag,
    /// When the turn began.
    began: u64,
    /// What was due by this moment is late.
    judged: u64,
    /// What it will be judged by once all events were noted that had come before the next wait.
    next: u64,
    /// Whether all events were noted that had come before the last wait.
    is_noted: bool,
}

impl Model for TurnTimes {
    ghost use Rattle.std.specs.Prelude.{◌≡◌, ◌≤◌};
    ghost use Rattle.tko_pace.specs.TurnTimes.{TurnState};

    ghost Value = { TurnState };

    ghost view = { λ t. record {
      time = t.time;
      lag = t.lag;
      began = t.began;
      judged = t.judged;
      next = t.next;
      is_noted = t.is_noted;
    } };

    ghost invariant = { λ t. (t.lag.limit ≡ t.time.limit) × (t.lag.since ≤ t.time.ran)
        × (t.began ≤ t.time.ran) × (t.next ≤ t.time.ran) × (t.judged ≤ t.time.ran) };
}

impl TurnTimes {
    /// Nothing was asked yet, and each answer has so long.
    pub fn new(limit: u64) -> TurnTimes
        ensures { result ≡ fresh_turns limit }
    {
        TurnTimes {
            time: RunningTime::new(limit),
            lag: Lag::new(limit),
            began: 0,
            judged: 0,
            next: 0,
            is_noted: true,
        }
    }

    /// A turn begins: the clock shows this after a wait of at most so long, and all events were
    /// noted that had come before the wait, or not.
    pub fn begin(&mut self, shown: u64, wait: u64, is_noted: bool)
        ensures begun { self.new ≡ turn_begun shown wait is_noted self.old }
        ensures wait { HasTurnBegun self.old self.new }
    {
        self.time.read(shown, wait);
        self.began = self.time.moment();
        self.is_noted = is_noted;
        if is_noted {
            self.judged = self.next;
        }
    }

    /// A turn ends: all was written, and the clock shows this.
    pub fn end(&mut self, shown: u64)
        ensures over { IsTurnOver shown self.old self.new }
        ensures ended { HasTurnEnded self.old self.new }
    {
        self.time.read(shown, 0);
        let now = self.time.moment();
        self.lag.note(now.saturating_sub(self.began), now);
        if self.is_noted {
            self.next = now.saturating_sub(self.lag.longest());
        }
    }

    /// The moments of the turn.
    pub fn moments(&self) -> TurnMoments
        ensures { result ≡ moments_of self.now }
    {
        TurnMoments {
            began: self.began,
            judged: self.judged,
            due: self.began.saturating_add(self.time.limit()),
        }
    }

    /// What was due by this moment is late once the events of the next wait were noted.
    pub fn next(&self) -> u64
        ensures { result ≡ self.now.next }
    {
        self.next
    }

    /// Whether all events were noted that had come before the last wait.
    pub fn is_noted(&self) -> bool
        ensures { result ≡ self.now.is_noted }
    {
        self.is_noted
    }
}
