//! Seats at one tracker without a lock.
ghost use Rattle.std.specs.Prelude.{◌≡◌};
ghost use Rattle.tko_tracker.specs.Seated.{IsOf, Retired};
ghost use Rattle.tko_health.specs.LockFree.{IsSeated};
ghost use Rattle.tko_health.specs.Seating.{Leaves};

use crate::health::Health;
use crate::lent::LentTracker;
use crate::seating::Seating;
use crate::shared_health::SharedHealth;
use std::sync::Wait;
use tko_tracker::{IdlePass, Named, Tracker};

/// Seats the threads that share one tracker without a lock. A thread's idle seat is its pass, which
/// `tko_tracker::open` made.
#[derive(Drop)]
pub struct SharedSeating<'t, N: Named> {
    lent: LentTracker<'t, N>,
}

impl<'t, N: Named> SharedSeating<'t, N> {
    /// Seats threads at the tracker that `N` names, which has `servers` servers.
    pub fn new(tracker: &'t Tracker, servers: usize) -> SharedSeating<'t, N>
        requires named { tracker.now ≡ N.tracker }
        requires servers { servers ≡ N.tracker.settings.servers }
    {
        SharedSeating {
            lent: LentTracker::new(tracker, servers),
        }
    }
}

impl<'t, N: Named> Seating for SharedSeating<'t, N> {
    type Idle = IdlePass;

    type Worker = SharedHealth<'t, N>;

    ghost servers = { λ s. N.tracker.settings.servers };

    ghost own = { λ s idle. IsOf N.tracker idle };

    ghost begins = { λ s idle worker. IsSeated idle worker };

    ghost gives_back = { λ s worker idle. Retired N.tracker worker idle };

    /// Takes no step: the thread owns no server yet.
    fn seat(&self, idle: IdlePass) -> SharedHealth<'t, N>
        requires { IsOf N.tracker idle }
        ensures begins { IsSeated idle result }
    {
        let _number = idle.number();
        SharedHealth::new(self.lent.again(), idle)
    }

    /// Releases each mark of the thread, which then owns no server.
    fn leave<R: Wait>(&self, _rt: &R, worker: SharedHealth<'t, N>) -> IdlePass
        ensures own { IsOf N.tracker result }
        ensures retired { Retired N.tracker worker.entry result }
        ensures leaves { Leaves ⟦<SharedHealth<'t, N> as Health>⟧.steps
            (λ last idle. Retired N.tracker last idle) worker.entry result }
    {
        worker.retire()
    }
}
