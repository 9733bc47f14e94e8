//! Events of a run, and turns that were skipped.

use tko_model::{Op, Reply};
use tko_steps::{BeginFault, Place, StepKind, Word};

/// What happened at one moment of a run.
#[derive(Clone, Copy, Debug, PartialEq, Eq)]
pub enum Event {
    /// A thread began a call.
    Begin {
        thread: usize,
        op: Op,
        server: usize,
    },
    /// A thread took a step.
    Step {
        thread: usize,
        kind: StepKind,
        place: Place,
        /// The word that the step found.
        found: Word,
        /// The word that it left.
        left: Word,
        /// The reply, where the step ends its call.
        answer: Option<Reply>,
    },
}

/// A turn that a thread was asked to take, and that did nothing.
#[derive(Clone, Copy, Debug, PartialEq, Eq)]
pub enum SkippedTurn {
    /// A begin was refused.
    Refused {
        thread: usize,
        op: Op,
        server: usize,
        fault: BeginFault,
    },
    /// A step of a thread that has no call.
    Idle {
        thread: usize,
    },
    /// A step of a thread that doesn't exist.
    NoThread {
        thread: usize,
    },
}
