//! The workers of a server, and the way of clients to them.

use crate::Options;
use crate::by_turns::ByTurns;
use tko_accept::{Allotment, OneQueue};

/// Which workers serve clients.
#[derive(Clone, Copy, Debug, PartialEq, Eq)]
pub enum WorkerKind {
    /// Each serves one client after another.
    Blocking,
    /// Each serves many clients at once, from one event to the next.
    Events,
}

impl WorkerKind {
    /// What the process has descriptors for.
    pub(crate) fn allotment(self, options: &Options) -> Allotment {
        match self {
            WorkerKind::Blocking => options.allotment(),
            WorkerKind::Events => options.event_allotment(),
        }
    }
}

/// The members that a server starts, and the way of clients to them. `B` and `E` are the lists of
/// the members.
#[derive(Drop)]
pub(crate) enum Crew<B, E> {
    Blocking(B, OneQueue),
    Events(E, ByTurns),
}
