//! The phases of a call under way, and the state of a thread.

use tko_model::{Mark, Op, Reply, ServerState};

/// The two counts of the soft word of a group.
#[derive(Clone, Copy, Debug, PartialEq, Eq)]
pub struct Slots {
    /// How many soft marks are settled.
    pub firm: u32,
    /// How many slots for one more are in the hands of calls under way.
    pub held: u32,
}

/// A call of the thread with this number.
#[derive(Clone, Copy)]
pub struct Call {
    pub number: u32,
    pub op: Op,
    pub server: usize,
    /// How many tries it lost to others.
    pub lost: u32,
}

/// The phase of a call under way. `found` is the server as this try's first look found it, `mark`
/// the mark that the call is about to write there, and `reply` its answer once it has.
#[derive(Clone, Copy)]
pub enum Phase {
    /// It is about to look at the server.
    Start,
    /// It is about to exchange the server's mark.
    Read {
        found: ServerState,
        mark: Mark,
        reply: Reply,
    },
    /// One more soft failure marks the server: it is about to look at the soft word of its group.
    AtThreshold {
        found: ServerState,
    },
    /// As many soft marks of the group are settled as may be: it is about to look at the server
    /// again.
    Limit {
        found: ServerState,
    },
    /// It is about to reserve a slot, if the soft word still has these counts.
    Reserving {
        found: ServerState,
        slots: Slots,
    },
    /// It holds a slot, and is about to mark the server.
    Holding {
        found: ServerState,
    },
    /// It marked the server, and is about to settle the slot.
    Firming,
    /// It lost the mark, and is about to give the slot back.
    Losing,
    /// The server is its own soft mark, which it is about to loosen.
    Loosening {
        found: ServerState,
        mark: Mark,
        reply: Reply,
    },
    /// It loosened that mark, and is about to exchange it.
    Loosened {
        found: ServerState,
        mark: Mark,
        reply: Reply,
    },
    /// That mark is no longer soft, and it is about to give the slot back.
    Emptied {
        reply: Reply,
    },
}

/// The state of a thread. An enrolled thread has the number that its enrolment drew.
#[derive(Clone, Copy)]
pub enum ThreadState {
    NotEnrolled,
    Idle { number: u32 },
    InCall { call: Call, phase: Phase },
}
