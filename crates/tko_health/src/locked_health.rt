//! Health that several threads share.
ghost use Rattle.std.specs.Prelude.{◌≡◌, ◌<◌, IfNone, IfSome};
ghost use Rattle.tko_model.specs.Records.{Called, NoDuty};
ghost use Rattle.tko_health.specs.Locked.{IsDuty, IsSeat, IsLockedStep, MayGrant};

use crate::health::Health;
use crate::locked_tracker::{LockedSeat, LockedTracker, TrackerSettings};
use std::marker::Model;
use std::sync::{Arc, Mutex, Wait};
use tko_model::{Duty, Look, Op, Reply};

/// The sequential tracker in a lock, as one of the threads that share it uses it. Contracts see the
/// thread's seat: its number, and for each server whether the thread's last call there left the
/// mark its own. The lock is held for one operation of the tracker, which takes no memory.
#[derive(Drop)]
pub struct LockedHealth<S: TrackerSettings> {
    tracker: Arc<Mutex<LockedTracker<S>>>,
    seat: LockedSeat,
}

impl<S: TrackerSettings> Model for LockedHealth<S> {
    ghost use Rattle.tko_health.specs.Locked.{IsSeat, SeatState};

    ghost Value = { SeatState };

    ghost view = { λ h. h.seat };

    ghost invariant = { λ h. IsSeat S.settings h.seat };
}

impl<S: TrackerSettings> LockedHealth<S> {
    pub(crate) fn new(tracker: Arc<Mutex<LockedTracker<S>>>, seat: LockedSeat) -> LockedHealth<S>
        requires { IsSeat S.settings seat }
        ensures { result ≡ seat }
    {
        LockedHealth { tracker, seat }
    }

    /// The number that its marks name.
    pub fn thread(&self) -> u32
        ensures thread { result ≡ self.now.thread }
        ensures seat { IsSeat S.settings self.now }
    {
        self.seat.thread()
    }

    fn apply<R: Wait>(&mut self, rt: &R, op: Op, server: usize) -> Reply
        requires { server < S.settings.servers }
        ensures { IsLockedStep S.settings self.old (Called op server result) self.new }
    {
        self.tracker.lock(rt).apply(&mut self.seat, op, server)
    }
}

impl<S: TrackerSettings> Health for LockedHealth<S> {
    ghost servers = { λ h. S.settings.servers };

    ghost steps = { λ old it new. IsLockedStep S.settings old it new };

    ghost grants = { λ h server. MayGrant S.settings h server };

    fn look_up<R: Wait>(&mut self, rt: &R, server: usize) -> Look {
        self.tracker.lock(rt).look_up(&mut self.seat, server)
    }

    fn soft_failure<R: Wait>(&mut self, rt: &R, server: usize) -> Reply {
        self.apply(rt, Op::SoftFailure, server)
    }

    fn hard_failure<R: Wait>(&mut self, rt: &R, server: usize) -> Reply {
        self.apply(rt, Op::HardFailure, server)
    }

    fn success<R: Wait>(&mut self, rt: &R, server: usize) -> Reply {
        self.apply(rt, Op::Success, server)
    }

    fn release<R: Wait>(&mut self, rt: &R, server: usize) -> Reply {
        self.apply(rt, Op::Release, server)
    }

    /// Grants the right where the mark that it finds is this thread's own. Contracts see that some
    /// tracker with these settings decides so, and not which one it found.
    fn duty<R: Wait>(&mut self, rt: &R, server: usize) -> Option<Duty>
        requires { server < S.settings.servers }
        ensures exact { IsDuty S.settings self.old server result }
        ensures some { IfSome result (λ duty. (duty ≡ server) × (self.new ≡ self.old)) }
        ensures right { IfSome result (λ duty. MayGrant S.settings self.old server) }
        ensures none { IfNone result (IsLockedStep S.settings self.old (NoDuty server) self.new) }
    {
        self.tracker.lock(rt).duty(&self.seat, server)
    }

    fn servers(&self) -> usize {
        self.seat.servers()
    }
}
