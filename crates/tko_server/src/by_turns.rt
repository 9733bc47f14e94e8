//! The way of clients to event-driven workers.
ghost use Rattle.std.specs.Prelude.{◌≡◌, ◌<◌, ◌+◌, IfSome, length};
ghost use Rattle.tko_server.specs.Turns.{turn_of};

use std::alloc::{AllocError, Global};
use std::net::{SocketAddr, TcpStream};
use std::sync::Wait;
use tko_accept::{ClientPlace, Way};
use tko_loop::{Arrival, Handover};
use tko_threads::Patience;

/// Event-driven workers, to which clients are handed by turns.
#[derive(Drop)]
pub(crate) struct ByTurns {
    workers: Vec<Handover<ClientPlace>>,
    /// The place of the worker whose turn it is; at the end of the list it is the first one's.
    next: usize,
}

impl ByTurns {
    /// The way to these workers.
    pub(crate) fn new(workers: Vec<Handover<ClientPlace>>) -> ByTurns
        ensures workers { result.workers ≡ workers }
        ensures first { result.next ≡ 0 }
    {
        ByTurns { workers, next: 0 }
    }

    /// The place of the worker whose turn it is, and then it is the next one's.
    fn take_turn(&mut self) -> Option<usize>
        ensures turn { result ≡ turn_of self.old.next (length self.old.workers.items) }
        ensures next { IfSome result (λ place. self.new.next ≡ place + 1) }
        ensures kept { self.new.workers ≡ self.old.workers }
    {
        let count = self.workers.len();
        if count <= self.next {
            self.next = 0;
        }
        if count == 0 {
            return None;
        }
        let turn = self.next;
        self.next = turn + 1;
        Some(turn)
    }

    /// Takes a worker that is gone out of the turns. The one after it is next.
    fn take_out(&mut self, place: usize)
        requires { place < length self.old.workers.items }
        ensures fewer { length self.new.workers.items + 1 ≡ length self.old.workers.items }
        ensures next { self.new.next ≡ place }
    {
        let gone = self.workers.remove(place);
        drop(gone);
        self.next = place;
    }
}

impl Way for ByTurns {
    ghost use Rattle.std.specs.Prelude.{◌≡◌, length};

    type Client = Arrival<ClientPlace>;

    ghost is_closed = { λ it. length it.workers.items ≡ 0 };

    fn client(
        _alloc: Global,
        stream: TcpStream,
        address: SocketAddr,
        place: ClientPlace,
        _patience: Patience,
    ) -> Result<Arrival<ClientPlace>, AllocError> {
        Ok(Arrival {
            stream,
            client: address,
            ticket: place,
        })
    }

    /// A worker that is gone gives the client back, which the next one gets.
    fn send<R: Wait>(&mut self, rt: &R, client: Arrival<ClientPlace>) -> bool {
        let mut client = client;
        while let Some(place) = self.take_turn() {
            match self.workers[place].send(rt, client) {
                Ok(()) => return true,
                Err(back) => {
                    client = back;
                    self.take_out(place);
                }
            }
        }
        false
    }
}
