//! Where the passes of a tracker lie that no thread uses.
ghost use Rattle.std.specs.Prelude.{◌≡◌, All, IfErr, IfSome};
ghost use Rattle.tko_tracker.specs.Seated.{IsOf};

use crate::held::HeldPasses;
use std::sync::{Mutex, Wait};
use tko_tracker::{IdlePass, Named};

/// Idle passes of the tracker that `N` names, under a lock. Threads take passes and give them back.
#[derive(Drop)]
pub struct Desk<N: Named> {
    held: Mutex<HeldPasses<N>>,
}

impl<N: Named> Desk<N> {
    pub fn open(passes: Vec<IdlePass>) -> Desk<N>
        requires { All (IsOf N.tracker) passes.items }
    {
        Desk {
            held: Mutex::new(HeldPasses::new(passes)),
        }
    }

    /// Takes a pass, if one is left.
    pub fn take<R: Wait>(&self, rt: &R) -> Option<IdlePass>
        ensures { IfSome result (λ pass. IsOf N.tracker pass) }
    {
        self.held.lock(rt).take()
    }

    /// Gives a pass back. A desk that holds as many as it was opened with returns it.
    pub fn give<R: Wait>(&self, rt: &R, pass: IdlePass) -> Result<(), IdlePass>
        requires { IsOf N.tracker pass }
        ensures { IfErr result (λ back. back ≡ pass) }
    {
        self.held.lock(rt).give(pass)
    }

    /// The passes that are left at the desk.
    pub fn end(self) -> Vec<IdlePass>
        ensures { All (IsOf N.tracker) result.items }
    {
        self.held.into_inner().end()
    }
}
