//! A tracker that threads share without a lock, on loan.
ghost use Rattle.std.specs.Prelude.{◌≡◌};

use std::marker::PhantomData;
use tko_tracker::{Named, Tracker};

/// The tracker that `N` names, and how many servers it has.
#[derive(Drop)]
pub(crate) struct LentTracker<'t, N: Named> {
    pub(crate) tracker: &'t Tracker,
    pub(crate) servers: usize,
    of: PhantomData<N>,
    ghost named: { tracker.now ≡ N.tracker },
    ghost count: { servers ≡ N.tracker.settings.servers },
}

impl<'t, N: Named> LentTracker<'t, N> {
    pub(crate) fn new(tracker: &'t Tracker, servers: usize) -> LentTracker<'t, N>
        requires named { tracker.now ≡ N.tracker }
        requires servers { servers ≡ N.tracker.settings.servers }
    {
        LentTracker {
            tracker,
            servers,
            of: PhantomData,
        }
    }

    /// The same tracker, lent once more.
    pub(crate) fn again(&self) -> LentTracker<'t, N> {
        LentTracker::new(self.tracker, self.servers)
    }
}
