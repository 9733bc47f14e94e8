//! A turn of events of a worker's clients: what came is noted, and those that are to be served are.
ghost use Rattle.std.specs.Prelude.{◌≡◌, ◌<◌, ◌≤◌, [], IfNone, length};
ghost use Rattle.tko_mux.specs.Muxes.{HasNoneLeaving, MayShut, line_at};
ghost use Rattle.tko_port.specs.Guests.{IsNotice};
ghost use Rattle.tko_worker.specs.Acts.{HasActed};
ghost use Rattle.tko_worker.specs.Numbers.{IsTurnTaken, put_off_served};
ghost use Rattle.tko_worker.specs.Servers.{HasLeftNext, HasResponseTaken};
ghost use Rattle.tko_worker.specs.Workers.{IsInOrder, IsNoted};

use crate::Worker;
use crate::serving::{list, list_reached, serve};
use std::alloc::Global;
use tko_mux::{Asking, Delivery};
use tko_pipe::ShutCause;
use tko_port::{ClientEvent, End, Guest, Port, SharedParts, Talking, Turned};

/// How many of those that were put off are served in one turn. It is small, so that a turn is short
/// however many clients always have more to do.
const PUT_OFF_SERVED: usize = 4;

impl<P, L: Port + Drop, T: Talking<P> + Drop> Worker<L, T, P> {
    /// An event said that a client's port is readable.
    pub fn readable(&mut self, alloc: Global, number: usize)
        requires order { IsInOrder (T.awaited, T.talk, L.port) T.ready self.old }
        ensures noted { IsNoted (T.awaited, T.talk, L.port) ClientEvent.Readable self.old number
            self.new }
        ensures acted { HasActed (T.awaited, T.talk, L.port) self.old self.new }
        ensures order { IsInOrder (T.awaited, T.talk, L.port) T.ready self.new }
    {
        self.note(alloc, number, ClientEvent::Readable);
    }

    /// An event said that a client's port is writable.
    pub fn writable(&mut self, alloc: Global, number: usize)
        requires order { IsInOrder (T.awaited, T.talk, L.port) T.ready self.old }
        ensures noted { IsNoted (T.awaited, T.talk, L.port) ClientEvent.Writable self.old number
            self.new }
        ensures acted { HasActed (T.awaited, T.talk, L.port) self.old self.new }
        ensures order { IsInOrder (T.awaited, T.talk, L.port) T.ready self.new }
    {
        self.note(alloc, number, ClientEvent::Writable);
    }

    /// An event said that a client sends no more.
    pub fn ended(&mut self, alloc: Global, number: usize)
        requires order { IsInOrder (T.awaited, T.talk, L.port) T.ready self.old }
        ensures noted { IsNoted (T.awaited, T.talk, L.port) ClientEvent.Ended self.old number
            self.new }
        ensures acted { HasActed (T.awaited, T.talk, L.port) self.old self.new }
        ensures order { IsInOrder (T.awaited, T.talk, L.port) T.ready self.new }
    {
        self.note(alloc, number, ClientEvent::Ended);
    }

    /// A client is to leave: nothing is read from it or written to it any more, and it ends so. If
    /// a request of it is under way, it keeps its number until it took what came of that.
    pub fn gone(&mut self, alloc: Global, number: usize, why: End)
        requires order { IsInOrder (T.awaited, T.talk, L.port) T.ready self.old }
        ensures noted { IsNoted (T.awaited, T.talk, L.port) (ClientEvent.Leave why) self.old number
            self.new }
        ensures acted { HasActed (T.awaited, T.talk, L.port) self.old self.new }
        ensures order { IsInOrder (T.awaited, T.talk, L.port) T.ready self.new }
    {
        self.note(alloc, number, ClientEvent::Leave(why));
    }

    /// Notes an event at a client's port, and that this client is to be served.
    fn note(&mut self, alloc: Global, number: usize, event: ClientEvent)
        requires event { IsNotice event }
        requires order { IsInOrder (T.awaited, T.talk, L.port) T.ready self.old }
        ensures noted { IsNoted (T.awaited, T.talk, L.port) event self.old number
            self.new }
        ensures acted { HasActed (T.awaited, T.talk, L.port) self.old self.new }
        ensures order { IsInOrder (T.awaited, T.talk, L.port) T.ready self.new }
    {
        let _ = self.mux.act(alloc, number, event, 0);
        list(
            &mut self.mux,
            &self.spent,
            &mut self.touched,
            &mut self.ends,
            alloc,
            number,
        );
    }

    /// Reads the next response of a server, as soon as all of it came. The client that awaits it
    /// takes it, and is served in this turn. What came for a probe is returned alike. An `Err` says
    /// why this shut the connection.
    pub fn take(
        &mut self,
        alloc: Global,
        server: usize,
        due: u64,
    ) -> Result<Option<Delivery<Turned>>, ShutCause>
        requires may_shut { MayShut self.old.mux server }
        requires order { IsInOrder (T.awaited, T.talk, L.port) T.ready self.old }
        ensures taken { HasResponseTaken (T.awaited, T.talk, L.port)
            ⟦<Guest<L, T> as Asking<SharedParts<P>>>⟧.asks_for
            ⟦<Guest<L, T> as Asking<SharedParts<P>>>⟧.waits_for self.old server due
            result self.new }
        ensures acted { HasActed (T.awaited, T.talk, L.port) self.old self.new }
        ensures order { IsInOrder (T.awaited, T.talk, L.port) T.ready self.new }
    {
        match self.mux.take(alloc, server, due) {
            Ok(Some(delivery)) => {
                list_reached(
                    &mut self.mux,
                    &self.spent,
                    &mut self.touched,
                    &mut self.ends,
                    alloc,
                    &delivery,
                );
                Ok(Some(delivery))
            }
            Ok(None) => Ok(None),
            Err(cause) => Err(cause),
        }
    }

    /// The next of those that waited on a connection to this server that was shut takes what became
    /// of its request, and is served in this turn. What came for a probe is returned alike.
    pub fn leave(&mut self, alloc: Global, server: usize, due: u64) -> Option<Delivery<Turned>>
        requires server { server < length self.old.mux.lines }
        requires order { IsInOrder (T.awaited, T.talk, L.port) T.ready self.old }
        ensures told { HasLeftNext (T.awaited, T.talk, L.port)
            ⟦<Guest<L, T> as Asking<SharedParts<P>>>⟧.asks_for self.old server due result self.new }
        ensures none { IfNone result (HasNoneLeaving (line_at self.new.mux server)) }
        ensures acted { HasActed (T.awaited, T.talk, L.port) self.old self.new }
        ensures order { IsInOrder (T.awaited, T.talk, L.port) T.ready self.new }
    {
        match self.mux.leave(alloc, server, due) {
            Some(delivery) => {
                list_reached(
                    &mut self.mux,
                    &self.spent,
                    &mut self.touched,
                    &mut self.ends,
                    alloc,
                    &delivery,
                );
                Some(delivery)
            }
            None => None,
        }
    }

    /// Serves all clients that are to be served in this turn, and then the first of those that were
    /// put off in earlier ones, in their order. After it each client rests, or was put off. A
    /// request that a client sends is due at this moment.
    pub fn end_turn(&mut self, alloc: Global, due: u64)
        requires order { IsInOrder (T.awaited, T.talk, L.port) T.ready self.old }
        ensures served { self.new.touched ≡ [] }
        ensures taken { IsTurnTaken put_off_served self.old.spent self.new.spent }
        ensures acted { HasActed (T.awaited, T.talk, L.port) self.old self.new }
        ensures order { IsInOrder (T.awaited, T.talk, L.port) T.ready self.new }
    {
        let count = self.spent.len().min(PUT_OFF_SERVED);
        self.serve_touched(alloc, due);
        self.serve_put_off(alloc, due, count);
    }

    /// Serves all clients that are to be served in this turn.
    fn serve_touched(&mut self, alloc: Global, due: u64)
        requires order { IsInOrder (T.awaited, T.talk, L.port) T.ready self.old }
        ensures served { self.new.touched ≡ [] }
        ensures later { IsTurnTaken 0 self.old.spent self.new.spent }
        ensures acted { HasActed (T.awaited, T.talk, L.port) self.old self.new }
        ensures order { IsInOrder (T.awaited, T.talk, L.port) T.ready self.new }
    {
        for _ in 0..self.touched.len() {
            let Some(number) = self.touched.pop() else {
                return;
            };
            serve(
                &mut self.mux,
                &mut self.spent,
                &mut self.ends,
                alloc,
                number,
                due,
            );
        }
    }

    /// Serves so many of those that were put off.
    fn serve_put_off(&mut self, alloc: Global, due: u64, count: usize)
        requires few { count ≤ length self.old.spent }
        requires order { IsInOrder (T.awaited, T.talk, L.port) T.ready self.old }
        ensures touched { self.new.touched ≡ self.old.touched }
        ensures taken { IsTurnTaken count self.old.spent self.new.spent }
        ensures acted { HasActed (T.awaited, T.talk, L.port) self.old self.new }
        ensures order { IsInOrder (T.awaited, T.talk, L.port) T.ready self.new }
    {
        for _ in 0..count {
            let Some(number) = self.spent.pop() else {
                unreachable!();
            };
            serve(
                &mut self.mux,
                &mut self.spent,
                &mut self.ends,
                alloc,
                number,
                due,
            );
        }
    }
}
