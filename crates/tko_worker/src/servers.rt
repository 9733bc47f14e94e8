//! The servers of a worker, from one event to the next.
ghost use Rattle.std.specs.Prelude.{◌≡◌, ◌<◌, None, length, option_map};
ghost use Rattle.std.specs.Bool.{OnFalse, OnTrue};
ghost use Rattle.tko_mux.specs.Giving.{AllWaitOn};
ghost use Rattle.tko_mux.specs.Muxes.{MayShut, line_at};
ghost use Rattle.tko_pipe.specs.Pipes.{IsCause, PipeState};
ghost use Rattle.tko_worker.specs.Acts.{ActsInOrder, HasActed};
ghost use Rattle.tko_worker.specs.Changes.{OnlyLinesChange};
ghost use Rattle.tko_worker.specs.Servers.{HasNoResponse, IsDrained, IsReadOnce, IsServerDone, IsShutIfLate};
ghost use Rattle.tko_port.specs.Wires.{CannotWriteTo, HasConnected, HasFailed, IsHeld, IsOpen, OtherLines};
ghost use Rattle.tko_worker.specs.Workers.{IsInOrder};

use crate::Worker;
use std::alloc::Global;
use tko_mux::Asking;
use tko_pace::TurnMoments;
use tko_pipe::ShutCause;
use tko_port::{
    ClientEvent, Guest, Peer, Port, SharedParts, Talking, has_unwritten, is_connecting, is_late,
    is_open, read_wire, write_wire,
};

/// How often a server is read from in one turn. What is left is read in the next turn.
const READS: u32 = 16;

/// How many of its responses are taken between two reads.
const RESPONSES: u32 = 1_024;

/// How many of those that waited on a connection that was shut leave in one turn.
const LEAVES: u32 = 4_096;

impl<P, L: Port + Drop, T: Talking<P> + Drop> Worker<L, T, P> {
    /// The connection to a server was made, if one was begun. Its port is writable.
    pub(crate) fn connect(&mut self, peer: &mut Peer<L>, server: usize)
        requires server { server < length self.old.mux.lines }
        requires order { IsInOrder (T.awaited, T.talk, L.port) T.ready self.old }
        ensures done { HasConnected server self.old.mux.lines (option_map L.port peer.old.socket)
            self.new.mux.lines (option_map L.port peer.new.socket) }
        ensures clients { OnlyLinesChange self.old self.new }
        ensures order { IsInOrder (T.awaited, T.talk, L.port) T.ready self.new }
    {
        if peer.is_closed() {
            return;
        }
        if !is_connecting(&self.mux, server) {
            return;
        }
        peer.note(ClientEvent::Writable);
        self.mux.connected(server);
    }

    /// The connection to a server could not be made, for this cause, if one was begun.
    pub(crate) fn fail(&mut self, peer: &mut Peer<L>, server: usize, why: ShutCause)
        requires cause { (pipe : PipeState) → IsCause pipe why }
        requires order { IsInOrder (T.awaited, T.talk, L.port) T.ready self.old }
        ensures done { HasFailed server why self.old.mux.lines self.new.mux.lines }
        ensures held { IsHeld (option_map L.port peer.new.socket) (line_at self.new.mux server) }
        ensures clients { OnlyLinesChange self.old self.new }
        ensures order { IsInOrder (T.awaited, T.talk, L.port) T.ready self.new }
    {
        peer.hold(is_open(&self.mux, server));
        if !is_open(&self.mux, server) {
            return;
        }
        if !is_connecting(&self.mux, server) {
            return;
        }
        self.mux.shut(server, why);
        peer.hold(is_open(&self.mux, server));
    }

    /// Does for a server what can be done before the clients are served: those that waited on a
    /// connection that was shut leave; what its port has is read, and the responses reach their
    /// clients; then a connection whose first response is late is shut, or those that wait too
    /// long behind others go on to their next targets. Returns whether that was all.
    pub(crate) fn serve_server(
        &mut self,
        alloc: Global,
        peer: &mut Peer<L>,
        server: usize,
        moments: TurnMoments,
        buffer: &mut [u8],
    ) -> bool
        requires room { 0 < length buffer.old }
        requires order { IsInOrder (T.awaited, T.talk, L.port) T.ready self.old }
        ensures done { OnTrue result
            (IsServerDone ⟦<Guest<L, T> as Asking<SharedParts<P>>>⟧.waits_for self.new.mux server
            (option_map L.port peer.new.socket) moments.judged) }
        ensures wait { OnTrue result (AllWaitOn
            ⟦<Guest<L, T> as Asking<SharedParts<P>>>⟧.has_next self.new.mux server
            moments.judged) }
        ensures held { IsHeld (option_map L.port peer.new.socket) (line_at self.new.mux server) }
        ensures acts { ActsInOrder (T.awaited, T.talk, L.port) T.ready self.old self.new }
    {
        if !self.leave_all(alloc, peer, server, moments.due()) {
            return false;
        }
        if !self.pull(alloc, peer, server, moments, buffer) {
            return false;
        }
        if self.expire(peer, server, moments.judged()) {
            return false;
        }
        self.give_up_late(alloc, peer, server, moments)
    }

    /// All that waited on a connection that was shut leave. Returns whether none is left.
    fn leave_all(&mut self, alloc: Global, peer: &mut Peer<L>, server: usize, due: u64) -> bool
        requires order { IsInOrder (T.awaited, T.talk, L.port) T.ready self.old }
        ensures open { OnTrue result (IsOpen (line_at self.new.mux server)) }
        ensures held { IsHeld (option_map L.port peer.new.socket) (line_at self.new.mux server) }
        ensures acted { HasActed (T.awaited, T.talk, L.port) self.old self.new }
        ensures order { IsInOrder (T.awaited, T.talk, L.port) T.ready self.new }
    {
        if is_open(&self.mux, server) {
            return true;
        }
        peer.socket = None;
        for _ in 0..LEAVES {
            if !self.leave_one(alloc, peer, server, due) {
                return is_open(&self.mux, server);
            }
        }
        false
    }

    /// The next of them leaves. Returns whether there was one.
    fn leave_one(&mut self, alloc: Global, peer: &mut Peer<L>, server: usize, due: u64) -> bool
        requires gone { peer.old.socket ≡ None }
        requires order { IsInOrder (T.awaited, T.talk, L.port) T.ready self.old }
        ensures gone { peer.new.socket ≡ None }
        ensures acted { HasActed (T.awaited, T.talk, L.port) self.old self.new }
        ensures order { IsInOrder (T.awaited, T.talk, L.port) T.ready self.new }
    {
        if server >= self.mux.servers() {
            return false;
        }
        match self.leave(alloc, server, due) {
            Some(delivery) => {
                peer.keep(delivery);
                true
            }
            None => false,
        }
    }

    /// Reads what a server's port has, and takes the responses. Returns whether that was all.
    fn pull(
        &mut self,
        alloc: Global,
        peer: &mut Peer<L>,
        server: usize,
        moments: TurnMoments,
        buffer: &mut [u8],
    ) -> bool
        requires room { 0 < length buffer.old }
        requires held { IsHeld (option_map L.port peer.old.socket) (line_at self.old.mux server) }
        requires order { IsInOrder (T.awaited, T.talk, L.port) T.ready self.old }
        ensures drained { OnTrue result
            (IsDrained ⟦<Guest<L, T> as Asking<SharedParts<P>>>⟧.waits_for self.new.mux server
            (option_map L.port peer.new.socket)) }
        ensures held { IsHeld (option_map L.port peer.new.socket) (line_at self.new.mux server) }
        ensures acts { ActsInOrder (T.awaited, T.talk, L.port) T.ready self.old self.new }
    {
        for _ in 0..READS {
            if !self.take_all(alloc, peer, server, moments.due()) {
                return false;
            }
            if !self.read(peer, server, moments.began(), buffer) {
                return true;
            }
        }
        false
    }

    /// Takes the responses of a server that came. Returns whether there are no more.
    fn take_all(&mut self, alloc: Global, peer: &mut Peer<L>, server: usize, due: u64) -> bool
        requires held { IsHeld (option_map L.port peer.old.socket) (line_at self.old.mux server) }
        requires order { IsInOrder (T.awaited, T.talk, L.port) T.ready self.old }
        ensures taken { OnTrue result
            (HasNoResponse ⟦<Guest<L, T> as Asking<SharedParts<P>>>⟧.waits_for
            self.new.mux server) }
        ensures open { OnTrue result (IsOpen (line_at self.new.mux server)) }
        ensures held { IsHeld (option_map L.port peer.new.socket) (line_at self.new.mux server) }
        ensures acts { ActsInOrder (T.awaited, T.talk, L.port) T.ready self.old self.new }
    {
        for _ in 0..RESPONSES {
            if !is_open(&self.mux, server) {
                return false;
            }
            if !self.take_one(alloc, peer, server, due) {
                return is_open(&self.mux, server);
            }
        }
        false
    }

    /// Takes the next response of a server. Returns whether one came, or the connection was shut.
    fn take_one(&mut self, alloc: Global, peer: &mut Peer<L>, server: usize, due: u64) -> bool
        requires may_shut { MayShut self.old.mux server }
        requires order { IsInOrder (T.awaited, T.talk, L.port) T.ready self.old }
        ensures taken { OnFalse result
            (HasNoResponse ⟦<Guest<L, T> as Asking<SharedParts<P>>>⟧.waits_for
            self.new.mux server) }
        ensures held { IsHeld (option_map L.port peer.new.socket) (line_at self.new.mux server) }
        ensures acted { HasActed (T.awaited, T.talk, L.port) self.old self.new }
        ensures order { IsInOrder (T.awaited, T.talk, L.port) T.ready self.new }
    {
        let taken = self.take(alloc, server, due);
        peer.hold(is_open(&self.mux, server));
        peer.keep_taken(taken)
    }

    /// Reads from a server once. Returns whether bytes came, or the connection was shut.
    fn read(&mut self, peer: &mut Peer<L>, server: usize, now: u64, buffer: &mut [u8]) -> bool
        requires open { IsOpen (line_at self.old.mux server) }
        requires room { 0 < length buffer.old }
        requires order { IsInOrder (T.awaited, T.talk, L.port) T.ready self.old }
        ensures read { IsReadOnce server now self.old (option_map L.port peer.old.socket)
            (option_map L.port peer.new.socket) result self.new }
        ensures held { IsHeld (option_map L.port peer.new.socket) (line_at self.new.mux server) }
        ensures order { IsInOrder (T.awaited, T.talk, L.port) T.ready self.new }
    {
        if !read_wire(&mut self.mux, &mut peer.socket, server, now, buffer) {
            return false;
        }
        peer.hold(is_open(&self.mux, server));
        true
    }

    /// Shuts the connection to a server if its first response is late at this moment, and returns
    /// whether it is. Before, all that came from the server has to be read and taken.
    fn expire(&mut self, peer: &mut Peer<L>, server: usize, now: u64) -> bool
        requires open { IsOpen (line_at self.old.mux server) }
        requires drained { IsDrained ⟦<Guest<L, T> as Asking<SharedParts<P>>>⟧.waits_for
            self.old.mux server (option_map L.port peer.old.socket) }
        requires order { IsInOrder (T.awaited, T.talk, L.port) T.ready self.old }
        ensures late { IsShutIfLate server now self.old peer.old peer.new result self.new }
        ensures held { IsHeld (option_map L.port peer.new.socket) (line_at self.new.mux server) }
        ensures order { IsInOrder (T.awaited, T.talk, L.port) T.ready self.new }
    {
        if !is_late(&self.mux, server, now) {
            return false;
        }
        self.mux.expire(server, now);
        peer.hold(is_open(&self.mux, server));
        true
    }

    /// Writes to a server what is to be written, once.
    pub(crate) fn write(&mut self, peer: &mut Peer<L>, server: usize)
        requires order { IsInOrder (T.awaited, T.talk, L.port) T.ready self.old }
        ensures wrote { IsOpen (line_at self.new.mux server)
            → CannotWriteTo (line_at self.new.mux server) (option_map L.port peer.new.socket) }
        ensures others { OtherLines server self.old.mux.lines self.new.mux.lines }
        ensures clients { OnlyLinesChange self.old self.new }
        ensures held { IsHeld (option_map L.port peer.new.socket) (line_at self.new.mux server) }
        ensures order { IsInOrder (T.awaited, T.talk, L.port) T.ready self.new }
    {
        if has_unwritten(&self.mux, server) && is_open(&self.mux, server) {
            write_wire(&mut self.mux, &mut peer.socket, server);
        }
        peer.hold(is_open(&self.mux, server));
    }
}
