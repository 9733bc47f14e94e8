//! What a thread knows. No value of these types is made: contracts speak of them.

use std::collections::LinkedList;
use tko_model::{Op, Reply, Settings};
use tko_steps::ThreadState;

/// A change of a server's mark, by an operation of the thread with this number.
pub struct Change {
    pub number: u32,
    pub op: Op,
    pub server: usize,
    pub reply: Reply,
}

/// A call that a thread made, with its answer.
pub struct Made {
    pub op: Op,
    pub server: usize,
    pub reply: Reply,
    /// How many changes the history had where the sequential tracker gives this reply. A call that
    /// lost every try has no such place.
    pub at: Option<usize>,
}

/// What one thread knows.
pub struct PassView {
    pub state: ThreadState,
    /// The servers whose marks name the thread.
    pub owned: LinkedList<usize>,
    /// How many steps the thread took.
    pub steps: u64,
    /// The history as it was at the thread's last step.
    pub seen: LinkedList<Change>,
    /// The calls that the thread made, oldest first.
    pub mine: LinkedList<Made>,
    /// How many changes the history had where the answer of the call under way was decided.
    pub decided_at: usize,
    pub settings: Settings,
}

/// What a seat knows: one pass, or those of several threads.
pub type View = LinkedList<PassView>;

/// A token of no bytes with which a thread steps.
pub type Seat = atomic_table::Seat<(), View>;
