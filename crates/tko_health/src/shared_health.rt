//! Health that several threads share without a lock.
ghost use Rattle.std.specs.Prelude.{◌≡◌, ◌<◌, IfNone, IfSome, None, Some, if◌then◌else◌};
ghost use Rattle.tko_model.specs.Records.{NoDuty};
ghost use Rattle.tko_table.specs.Passes.{owns};
ghost use Rattle.tko_tracker.specs.Seated.{IsOf, Retired};
ghost use Rattle.tko_health.specs.LockFree.{IsPassStep, IsSeatOwner};

use crate::health::Health;
use crate::lent::LentTracker;
use std::marker::Model;
use std::sync::Wait;
use tko_model::{Duty, Look, Reply};
use tko_tracker::{IdlePass, Named, Pass, wake};

/// A tracker that threads share without a lock, as one of them uses it, with a pass of its own.
/// Contracts see the pass: what the thread knows. No call waits for anything or takes memory.
#[derive(Drop)]
pub struct SharedHealth<'t, N: Named> {
    lent: LentTracker<'t, N>,
    pass: Pass,
}

impl<'t, N: Named> Model for SharedHealth<'t, N> {
    ghost use Rattle.tko_tracker.specs.Seated.{IsOf, Seated};

    ghost Value = { Seated };

    ghost view = { λ h. h.pass };

    ghost invariant = { λ h. IsOf N.tracker h.pass };
}

impl<'t, N: Named> SharedHealth<'t, N> {
    pub(crate) fn new(lent: LentTracker<'t, N>, idle: IdlePass) -> SharedHealth<'t, N>
        requires { IsOf N.tracker idle }
        ensures { result ≡ idle }
    {
        let pass = wake(idle);
        SharedHealth { lent, pass }
    }

    /// Releases every mark of the thread, and gives its place back.
    pub(crate) fn retire(self) -> IdlePass
        ensures { Retired N.tracker self.entry result }
    {
        let SharedHealth { lent, pass } = self;
        lent.tracker.retire(pass)
    }
}

impl<'t, N: Named> Health for SharedHealth<'t, N> {
    ghost servers = { λ h. N.tracker.settings.servers };

    ghost steps = { λ old it new. IsPassStep N.tracker old it new };

    ghost grants = { λ h server. IsSeatOwner h server };

    fn look_up<R: Wait>(&mut self, _rt: &R, server: usize) -> Look {
        self.lent.tracker.look_up(&mut self.pass, server)
    }

    fn soft_failure<R: Wait>(&mut self, _rt: &R, server: usize) -> Reply {
        self.lent.tracker.soft_failure(&mut self.pass, server)
    }

    fn hard_failure<R: Wait>(&mut self, _rt: &R, server: usize) -> Reply {
        self.lent.tracker.hard_failure(&mut self.pass, server)
    }

    fn success<R: Wait>(&mut self, _rt: &R, server: usize) -> Reply {
        self.lent.tracker.success(&mut self.pass, server)
    }

    fn release<R: Wait>(&mut self, _rt: &R, server: usize) -> Reply {
        self.lent.tracker.release(&mut self.pass, server)
    }

    /// Grants the right exactly where the server's mark names this thread.
    fn duty<R: Wait>(&mut self, _rt: &R, server: usize) -> Option<Duty>
        requires { server < N.tracker.settings.servers }
        ensures exact { result ≡ (if owns self.old.pass.owned server then Some server else None) }
        ensures same { self.new ≡ self.old }
        ensures some { IfSome result (λ duty. (duty ≡ server) × (self.new ≡ self.old)) }
        ensures right { IfSome result (λ duty. IsSeatOwner self.old server) }
        ensures none { IfNone result (IsPassStep N.tracker self.old (NoDuty server) self.new) }
    {
        self.lent.tracker.duty(&self.pass, server)
    }

    fn servers(&self) -> usize {
        self.lent.servers
    }
}
