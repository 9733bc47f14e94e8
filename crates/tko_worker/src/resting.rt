//! What is to be done for the servers of a worker, and when nothing is.
ghost use Rattle.std.specs.Prelude.{◌≡◌, ◌&&◌, ◌||◌, [], None, false, true, option_map};
ghost use Rattle.std.specs.Bool.{OnFalse, OnTrue};
ghost use Rattle.tko_mux.specs.Muxes.{line_at};
ghost use Rattle.tko_worker.specs.Turns.{IsAhead, IsLineIdle, IsWanted, ServerRests, earlier};

use crate::Worker;
use tko_mux::{Asking, Mux};
use tko_port::{
    Peer, Port, Talking, first_due, has_unwritten, is_connected, is_connecting, is_late, is_open,
};

/// What lies ahead of a worker's servers at the end of a turn of events.
#[derive(Clone, Copy, Debug, PartialEq, Eq)]
pub struct Outlook {
    /// Whether each server rests.
    pub rests: bool,
    /// The first moment at which a response is due, if any is awaited.
    pub due: Option<u64>,
    /// Whether a connection to one of them is to be begun.
    pub wants: bool,
}

impl Outlook {
    /// What lies ahead where there is no server.
    pub(crate) fn clear() -> Outlook
        ensures { result ≡ record { rests = true; due = None; wants = false } }
    {
        Outlook {
            rests: true,
            due: None,
            wants: false,
        }
    }

    /// What lies ahead of one server at this moment.
    pub(crate) fn of<P, S: Asking<P> + Drop, L: Port + Drop>(
        mux: &Mux<S, P>,
        peer: &Peer<L>,
        server: usize,
        now: u64,
    ) -> Outlook
        ensures { IsAhead now (line_at mux.now server) (option_map L.port peer.now.socket) result }
    {
        Outlook {
            rests: rests(mux, peer, server, now),
            due: first_due(mux, server),
            wants: is_wanted(mux, peer, server),
        }
    }

    /// What lies ahead of these servers and the others together.
    pub(crate) fn and(self, other: Outlook) -> Outlook
        ensures rests { result.rests ≡ (self.rests && other.rests) }
        ensures due { result.due ≡ earlier self.due other.due }
        ensures wants { result.wants ≡ (self.wants || other.wants) }
    {
        Outlook {
            rests: self.rests && other.rests,
            due: earlier(self.due, other.due),
            wants: self.wants || other.wants,
        }
    }

    /// Whether there is nothing to do before the next event, also as time passes.
    pub(crate) fn is_quiet(&self) -> bool {
        self.rests && !self.wants && self.due.is_none()
    }
}

/// Whether a connection to a server is to be begun.
pub(crate) fn is_wanted<P, S: Asking<P> + Drop, L: Port + Drop>(
    mux: &Mux<S, P>,
    peer: &Peer<L>,
    server: usize,
) -> bool
    ensures wanted { OnTrue result
        (IsWanted (line_at mux.now server) (option_map L.port peer.now.socket)) }
    ensures not { OnFalse result
        (IsWanted (line_at mux.now server) (option_map L.port peer.now.socket) → ⊥) }
{
    if !peer.is_closed() {
        return false;
    }
    if !is_open(mux, server) {
        return false;
    }
    is_connecting(mux, server)
}

/// The first of two moments, if there is one.
pub fn earlier(one: Option<u64>, other: Option<u64>) -> Option<u64>
    ensures { result ≡ earlier one other }
{
    let Some(first) = one else {
        return other;
    };
    match other {
        Some(second) if second < first => Some(second),
        _ => one,
    }
}

/// Whether no client was put off.
pub(crate) fn none_is_left<P, L: Port + Drop, T: Talking<P> + Drop>(
    clients: &Worker<L, T, P>,
) -> bool
    ensures { OnTrue result (clients.now.spent ≡ []) }
{
    clients.put_off() == 0
}

/// Whether nobody waits for a server whose connection was made, and nothing can be read from it. So
/// it is with most servers at the end of most turns.
pub(crate) fn is_quiet<P, S: Asking<P> + Drop, L: Port>(
    mux: &Mux<S, P>,
    peer: &Peer<L>,
    server: usize,
) -> bool
    ensures { OnTrue result (IsLineIdle (line_at mux.now server)
        (option_map L.port peer.now.socket)) }
{
    if !is_connected(mux, server) {
        return false;
    }
    if has_unwritten(mux, server) {
        return false;
    }
    if !is_open(mux, server) {
        return false;
    }
    let Some(port) = &peer.socket else {
        return false;
    };
    !port.is_readable() && first_due(mux, server).is_none()
}

/// Whether a server rests.
fn rests<P, S: Asking<P> + Drop, L: Port>(
    mux: &Mux<S, P>,
    peer: &Peer<L>,
    server: usize,
    now: u64,
) -> bool
    ensures { OnTrue result
        (ServerRests now (line_at mux.now server) (option_map L.port peer.now.socket)) }
{
    if !is_open(mux, server) {
        return false;
    }
    if is_late(mux, server, now) {
        return false;
    }
    if !is_connected(mux, server) {
        return true;
    }
    let Some(port) = &peer.socket else {
        return false;
    };
    if port.is_readable() {
        return false;
    }
    !port.is_writable() || !has_unwritten(mux, server)
}
