//! Health that one thread keeps.
ghost use Rattle.std.specs.Prelude.{◌≡◌, ◌<◌, IfNone, IfSome, length};
ghost use Rattle.tko_model.specs.Looks.{duty_of};
ghost use Rattle.tko_model.specs.Records.{Called, NoDuty};
ghost use Rattle.tko_model.specs.Tracker.{server_at};
ghost use Rattle.tko_health.specs.Health.{IsGranted, IsTrackerStep};

use crate::health::Health;
use std::marker::Model;
use std::sync::Wait;
use tko_model::{Duty, Look, Op, Plain, Reply};

/// The sequential tracker, used by one thread. Contracts see the tracker and the thread's number.
#[derive(Debug, Drop)]
pub struct PlainHealth {
    plain: Plain,
    thread: u32,
}

impl Model for PlainHealth {
    ghost use Rattle.std.specs.Prelude.{◌<◌};
    ghost use Rattle.tko_health.specs.Health.{OneThread};

    ghost Value = { OneThread };

    ghost view = { λ h. record { tracker = h.plain; thread = h.thread } };

    ghost invariant = { λ h. h.thread < h.plain.settings.threads };
}

impl PlainHealth {
    pub fn new(plain: Plain, thread: u32) -> PlainHealth
        requires { thread < plain.settings.threads }
        ensures { result ≡ record { tracker = plain; thread = thread } }
    {
        PlainHealth { plain, thread }
    }

    /// The tracker, to look at.
    pub fn tracker(&self) -> &Plain
        ensures { result.now ≡ self.now.tracker }
    {
        &self.plain
    }

    fn apply(&mut self, op: Op, server: usize) -> Reply
        requires { server < length self.old.tracker.servers }
        ensures step { IsTrackerStep self.old (Called op server result) self.new }
        ensures servers { length self.new.tracker.servers ≡ length self.old.tracker.servers }
    {
        self.plain.apply(self.thread, op, server)
    }
}

impl Health for PlainHealth {
    ghost servers = { λ h. length h.tracker.servers };

    ghost steps = { λ old it new. IsTrackerStep old it new };

    ghost grants = { λ h server. IsGranted h server };

    fn look_up<R: Wait>(&mut self, _rt: &R, server: usize) -> Look {
        Look::of(server, self.plain.mark(server))
    }

    fn soft_failure<R: Wait>(&mut self, _rt: &R, server: usize) -> Reply {
        self.apply(Op::SoftFailure, server)
    }

    fn hard_failure<R: Wait>(&mut self, _rt: &R, server: usize) -> Reply {
        self.apply(Op::HardFailure, server)
    }

    fn success<R: Wait>(&mut self, _rt: &R, server: usize) -> Reply {
        self.apply(Op::Success, server)
    }

    fn release<R: Wait>(&mut self, _rt: &R, server: usize) -> Reply {
        self.apply(Op::Release, server)
    }

    /// Grants the right exactly where the mark is this thread's own.
    fn duty<R: Wait>(&mut self, _rt: &R, server: usize) -> Option<Duty>
        requires { server < length self.old.tracker.servers }
        ensures exact { result
            ≡ duty_of server (server_at self.old.tracker.servers server).mark self.old.thread }
        ensures some { IfSome result (λ duty. (duty ≡ server) × (self.new ≡ self.old)) }
        ensures right { IfSome result (λ duty. IsGranted self.old server) }
        ensures none { IfNone result (IsTrackerStep self.old (NoDuty server) self.new) }
        ensures servers { length self.new.tracker.servers ≡ length self.old.tracker.servers }
    {
        Duty::of(server, self.plain.mark(server), self.thread)
    }

    fn servers(&self) -> usize {
        self.plain.settings().servers as usize
    }
}
