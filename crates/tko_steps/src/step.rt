//! What a step does and reports.

use crate::Slots;
use thiserror::Error;
use tko_model::{Reply, ServerState};

/// What a step does.
#[derive(Clone, Copy, Debug, PartialEq, Eq)]
pub enum StepKind {
    /// It loads a word.
    Look,
    /// It exchanges an unmarked health word for an unmarked one.
    Count,
    /// It exchanges an unmarked health word for a marked one.
    Mark,
    /// It exchanges the health word that its own thread marked.
    Own,
    /// It exchanges a soft word for one with one more slot held.
    Reserve,
    /// It turns a held slot into a settled mark, or a settled mark into a held slot.
    Shift,
    /// It gives a held slot back.
    Give,
    /// It draws the thread's number.
    Enrol,
}

impl StepKind {
    ghost use Rattle.std.specs.Prelude.{◌≡◌};
    ghost use Rattle.tko_steps.specs.Core.{is_call_step};

    /// Whether a step of this kind belongs to a call. An enrolment belongs to none.
    pub fn is_call_step(self) -> bool
        ensures { result ≡ is_call_step self }
    {
        !matches!(self, StepKind::Enrol)
    }
}

/// Which word a step is on.
#[derive(Clone, Copy, Debug, PartialEq, Eq)]
pub enum Place {
    Server(usize),
    /// The soft word of this group.
    Soft(usize),
    Enrolment,
}

/// The value of such a word.
#[derive(Clone, Copy, Debug, PartialEq, Eq)]
pub enum Word {
    /// A server's mark and stamp.
    Server(ServerState),
    /// The two counts of soft marks of a group.
    Soft(Slots),
    /// How many threads are enrolled.
    Enrolled(u32),
}

/// What a step of a thread did.
#[derive(Clone, Copy, Debug, PartialEq, Eq)]
pub enum Stepped {
    /// There is no such thread.
    NoThread,
    /// The thread is enrolled and has no call, so nothing changed.
    Idle,
    Did {
        kind: StepKind,
        place: Place,
        /// The word that the step found.
        found: Word,
        /// The word that it left.
        left: Word,
        /// Whether the step did what it tried: an exchange that found another word did not.
        won: bool,
        /// The reply, where the step ends its call.
        answer: Option<Reply>,
    },
}

/// Why a call can't begin. The first that applies, in this order, is returned.
#[derive(Clone, Copy, Debug, PartialEq, Eq, Error)]
pub enum BeginFault {
    /// There is no such thread, or it isn't enrolled.
    #[error("no-thread")]
    NoThread,
    /// The thread has a call.
    #[error("busy")]
    Busy,
    #[error("no-server")]
    NoServer,
}
