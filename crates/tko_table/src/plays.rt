//! What each atomic step tells its caller.

use crate::View;
use atomic_table::{Join, Play, Split};
use std::marker::PhantomData;

/// The operation of a call that begins with a look. A step on the table has no argument that its
/// proof could read, so that the operation is a type.
pub trait Operation {
    ghost use Rattle.tko_model.specs.declared.mark.Op.{Op};

    ghost op: { Op };
}

pub struct LooksUp;

impl Operation for LooksUp {
    ghost use Rattle.tko_model.specs.declared.mark.Op.TheVariants.{LookUp};

    ghost op = { LookUp };
}

pub struct FailsSoftly;

impl Operation for FailsSoftly {
    ghost use Rattle.tko_model.specs.declared.mark.Op.TheVariants.{SoftFailure};

    ghost op = { SoftFailure };
}

pub struct FailsHard;

impl Operation for FailsHard {
    ghost use Rattle.tko_model.specs.declared.mark.Op.TheVariants.{HardFailure};

    ghost op = { HardFailure };
}

pub struct Succeeds;

impl Operation for Succeeds {
    ghost use Rattle.tko_model.specs.declared.mark.Op.TheVariants.{Success};

    ghost op = { Success };
}

pub struct Releases;

impl Operation for Releases {
    ghost use Rattle.tko_model.specs.declared.mark.Op.TheVariants.{Release};

    ghost op = { Release };
}

/// A load of a server's word, which may begin a call of this operation.
pub(crate) struct Looks<O> {
    operation: PhantomData<O>,
}

impl<O: Operation> Play<(), View> for Looks<O> {
    ghost use Rattle.std.specs.Prelude.{◌≡◌};
    ghost use Rattle.tko_table.specs.Steps.{Looked};

    ghost then = { λ step old found new. Looked O.op step.word old found new × (new.1 ≡ old.1) };
}

/// A load of the soft word.
pub(crate) struct LooksAtSlots;

impl Play<(), View> for LooksAtSlots {
    ghost use Rattle.std.specs.Prelude.{◌≡◌};
    ghost use Rattle.tko_table.specs.Steps.{LookedAtSlots};

    ghost then = { λ step old found new. LookedAtSlots old found new × (new.1 ≡ old.1) };
}

/// An exchange of a server's word.
pub(crate) struct Exchanges;

impl Play<(), View> for Exchanges {
    ghost use Rattle.std.specs.Prelude.{◌≡◌};
    ghost use Rattle.tko_table.specs.Steps.{Exchanged};

    ghost then = { λ step old found new. Exchanged step.word old found new × (new.1 ≡ old.1) };
}

/// A change of the soft word.
pub(crate) struct ChangesSlots;

impl Play<(), View> for ChangesSlots {
    ghost use Rattle.std.specs.Prelude.{◌≡◌};
    ghost use Rattle.tko_table.specs.Steps.{Plays};

    ghost then = { λ step old found new. Plays old found new × (new.1 ≡ old.1) };
}

/// An enrolment.
pub(crate) struct Enrols;

impl Play<(), View> for Enrols {
    ghost use Rattle.std.specs.Prelude.{◌≡◌};
    ghost use Rattle.tko_table.specs.Enrolments.{Enrolled};

    ghost then = { λ step old found new. Enrolled old found new × (new.1 ≡ old.1) };
}

/// One pass, and the rest in a seat of its own.
pub(crate) struct FirstPass;

impl Split<View> for FirstPass {
    ghost use Rattle.std.specs.Prelude.{drop, take};

    ghost left = { λ view. take 1 view };

    ghost right = { λ view. drop 1 view };
}

/// The passes of two seats in one, each of which has then seen what any of them had seen.
pub(crate) struct BothPasses;

impl Join<View> for BothPasses {
    ghost use Rattle.std.specs.Prelude.{◌++◌, []};
    ghost use Rattle.tko_table.specs.Passes.{passes_raised};

    ghost both = { λ view other. passes_raised (view ++ other) };

    ghost spent = { [] };
}

/// The passes of two seats in one, as they were.
pub(crate) struct BothAsSeen;

impl Join<View> for BothAsSeen {
    ghost use Rattle.std.specs.Prelude.{◌++◌, []};

    ghost both = { λ view other. view ++ other };

    ghost spent = { [] };
}
