//! The passes that lie at a desk, under its lock.
ghost use Rattle.std.specs.Prelude.{◌≡◌, ◌∷◌, ◌++◌, ◌≢◌, [], All, length, MatchOption, MatchResult};
ghost use Rattle.tko_tracker.specs.Seated.{IsOf};

use std::marker::{Model, PhantomData};
use tko_tracker::{IdlePass, Named};

/// Passes of the tracker that `N` names, and how many there may be. There is room for all of them.
#[derive(Drop)]
pub(crate) struct HeldPasses<N: Named> {
    passes: Vec<IdlePass>,
    most: usize,
    of: PhantomData<N>,
}

impl<N: Named> Model for HeldPasses<N> {
    ghost use Rattle.std.specs.Vec.{vec_capacity};
    ghost use Rattle.tko_desk.specs.Desk.{AreHeld, HeldList};

    ghost Value = { HeldList };

    ghost view = { λ h. record { passes = h.passes.items; most = h.most } };

    ghost invariant = { λ h. AreHeld N.tracker (vec_capacity h.passes)
        (record { passes = h.passes.items; most = h.most }) };
}

impl<N: Named> HeldPasses<N> {
    pub(crate) fn new(passes: Vec<IdlePass>) -> HeldPasses<N>
        requires { All (IsOf N.tracker) passes.items }
        ensures passes { result.passes ≡ passes.items }
        ensures most { result.most ≡ length passes.items }
    {
        let most = passes.len();
        HeldPasses {
            passes,
            most,
            of: PhantomData,
        }
    }

    /// Takes the last pass.
    pub(crate) fn take(&mut self) -> Option<IdlePass>
        ensures most { self.new.most ≡ self.old.most }
        ensures taken { MatchOption result
            ((self.old.passes ≡ []) × (self.new.passes ≡ []))
            (λ pass. (self.old.passes ≡ self.new.passes ++ pass ∷ []) × IsOf N.tracker pass) }
    {
        self.passes.pop()
    }

    /// Gives a pass back, or returns it where there may be no more.
    pub(crate) fn give(&mut self, pass: IdlePass) -> Result<(), IdlePass>
        requires { IsOf N.tracker pass }
        ensures most { self.new.most ≡ self.old.most }
        ensures given { MatchResult result
            (λ done. (length self.old.passes ≢ self.old.most)
            × (self.new.passes ≡ self.old.passes ++ pass ∷ []))
            (λ back. (length self.old.passes ≡ self.old.most) × (back ≡ pass)
            × (self.new.passes ≡ self.old.passes)) }
    {
        if self.passes.len() == self.most {
            return Err(pass);
        }
        self.passes.push_reserved(pass);
        Ok(())
    }

    /// The passes that are left.
    pub(crate) fn end(self) -> Vec<IdlePass>
        ensures passes { result.items ≡ self.passes }
        ensures of { All (IsOf N.tracker) result.items }
    {
        self.passes
    }
}
