//! Clients whose requests wait too long behind others go on to their next targets.
ghost use Rattle.std.specs.Prelude.{◌≡◌, IfOk, OnErr, option_map};
ghost use Rattle.std.specs.Bool.{OnFalse, OnTrue};
ghost use Rattle.tko_mux.specs.Muxes.{MayShut, line_at};
ghost use Rattle.tko_port.specs.Wires.{IsHeld, IsOpen};
ghost use Rattle.tko_worker.specs.Acts.{ActsInOrder, HasActed};
ghost use Rattle.tko_worker.specs.GivingUp.{HasGivenUpNext, NobodyGivesUp};
ghost use Rattle.tko_worker.specs.Workers.{IsInOrder};

use crate::Worker;
use crate::serving::list_reached;
use std::alloc::Global;
use tko_bytes::NoMemory;
use tko_mux::{Asking, Delivery};
use tko_pace::TurnMoments;
use tko_port::{Guest, Peer, Port, SharedParts, Talking, Turned, is_open};

/// How many of those that wait for a server give up in one turn. Each is looked for from the front
/// of the queue on, so the number bounds what a long queue costs; the others give up in the turns
/// that follow at once.
const GIVE_UPS: u32 = 64;

impl<P, L: Port + Drop, T: Talking<P> + Drop> Worker<L, T, P> {
    /// Lets those go on to their next targets whose time limit passed while the responses before
    /// theirs were received. Returns whether nobody was to: then nothing changed.
    pub(crate) fn give_up_late(
        &mut self,
        alloc: Global,
        peer: &mut Peer<L>,
        server: usize,
        moments: TurnMoments,
    ) -> bool
        requires open { IsOpen (line_at self.old.mux server) }
        requires held { IsHeld (option_map L.port peer.old.socket) (line_at self.old.mux server) }
        requires order { IsInOrder (T.awaited, T.talk, L.port) T.ready self.old }
        ensures none { OnTrue result (NobodyGivesUp
            ⟦<Guest<L, T> as Asking<SharedParts<P>>>⟧.has_next server moments.judged self.old
            self.new peer.old peer.new) }
        ensures held { IsHeld (option_map L.port peer.new.socket) (line_at self.new.mux server) }
        ensures acts { ActsInOrder (T.awaited, T.talk, L.port) T.ready self.old self.new }
    {
        if !self.give_up_one(alloc, peer, server, moments) {
            return true;
        }
        self.give_up_more(alloc, peer, server, moments);
        false
    }

    /// The others of this turn go on, once the first one did.
    fn give_up_more(
        &mut self,
        alloc: Global,
        peer: &mut Peer<L>,
        server: usize,
        moments: TurnMoments,
    )
        requires held { IsHeld (option_map L.port peer.old.socket) (line_at self.old.mux server) }
        requires order { IsInOrder (T.awaited, T.talk, L.port) T.ready self.old }
        ensures held { IsHeld (option_map L.port peer.new.socket) (line_at self.new.mux server) }
        ensures acts { ActsInOrder (T.awaited, T.talk, L.port) T.ready self.old self.new }
    {
        for _ in 1..GIVE_UPS {
            if !is_open(&self.mux, server) {
                return;
            }
            if !self.give_up_one(alloc, peer, server, moments) {
                return;
            }
        }
    }

    /// The next one goes on. Returns whether there was one; where memory ran out for it, it is
    /// tried again.
    fn give_up_one(
        &mut self,
        alloc: Global,
        peer: &mut Peer<L>,
        server: usize,
        moments: TurnMoments,
    ) -> bool
        requires open { IsOpen (line_at self.old.mux server) }
        requires held { IsHeld (option_map L.port peer.old.socket) (line_at self.old.mux server) }
        requires order { IsInOrder (T.awaited, T.talk, L.port) T.ready self.old }
        ensures none { OnFalse result (NobodyGivesUp
            ⟦<Guest<L, T> as Asking<SharedParts<P>>>⟧.has_next server moments.judged self.old
            self.new peer.old peer.new) }
        ensures held { IsHeld (option_map L.port peer.new.socket) (line_at self.new.mux server) }
        ensures acted { HasActed (T.awaited, T.talk, L.port) self.old self.new }
        ensures order { IsInOrder (T.awaited, T.talk, L.port) T.ready self.new }
    {
        match self.give_up(alloc, server, moments.judged(), moments.due()) {
            Ok(Some(_)) => {
                peer.hold(is_open(&self.mux, server));
                true
            }
            Ok(None) => false,
            Err(_) => true,
        }
    }

    /// The next of those that wait for a server gives up at `now`, if it is to. Its session takes
    /// that as a request that was aborted, and is served in this turn; what it asks is due at
    /// `due`.
    fn give_up(
        &mut self,
        alloc: Global,
        server: usize,
        now: u64,
        due: u64,
    ) -> Result<Option<Delivery<Turned>>, NoMemory>
        requires may_shut { MayShut self.old.mux server }
        requires order { IsInOrder (T.awaited, T.talk, L.port) T.ready self.old }
        ensures given { IfOk result (λ it. HasGivenUpNext (T.awaited, T.talk, L.port)
            ⟦<Guest<L, T> as Asking<SharedParts<P>>>⟧.asks_for
            ⟦<Guest<L, T> as Asking<SharedParts<P>>>⟧.waits_for
            ⟦<Guest<L, T> as Asking<SharedParts<P>>>⟧.has_next self.old server now due it
            self.new) }
        ensures err { OnErr result (self.new ≡ self.old) }
        ensures acted { HasActed (T.awaited, T.talk, L.port) self.old self.new }
        ensures order { IsInOrder (T.awaited, T.talk, L.port) T.ready self.new }
    {
        match self.mux.give_up(alloc, server, now, due) {
            Ok(Some(delivery)) => {
                list_reached(
                    &mut self.mux,
                    &self.spent,
                    &mut self.touched,
                    &mut self.ends,
                    alloc,
                    &delivery,
                );
                Ok(Some(delivery))
            }
            Ok(None) => Ok(None),
            Err(_) => Err(NoMemory),
        }
    }
}
