//! What a loop is for: whose clients it serves.
ghost use Rattle.std.specs.Prelude.{◌≡◌, length};

use crate::{Load, ServerLack, TurnClock};
use std::alloc::Global;
use std::net::SocketAddr;
use tko_bytes::NoMemory;
use tko_port::{Port, Talking};
use tko_worker::EventWorker;

/// What a loop calls, whose sessions are over parts of type `P`.
pub trait Host<P, T: Talking<P> + Drop> {
    ghost use Rattle.std.specs.Prelude.{◌≡◌, ℕ, [], IfOk, length};
    ghost use Rattle.tko_mux.specs.Muxes.{LinesStay};
    ghost use Rattle.tko_worker.specs.Changes.{KeepsClients};
    ghost use Rattle.tko_worker.specs.Workers.{IsInOrder};

    /// What a round at this moment does to the parts.
    ghost rounds: { P → ℕ → P → Type 0 };

    /// The session of a client that came from this address, to which no bytes came and from which
    /// none went.
    fn greet(&mut self, parts: &P, client: SocketAddr) -> Result<T, NoMemory>
        ensures ready { IfOk result (λ talk. T.ready parts.now [] [] talk) }
        ensures idle { IfOk result (λ talk. T.awaited talk ≡ []) };

    /// A turn began, at the moment that this clock shows: what is done in it counts as done at this
    /// moment. The parts may be told.
    fn began<L: Port + Drop>(&mut self, worker: &mut EventWorker<L, T, P>, clock: &TurnClock)
        requires order { IsInOrder (T.awaited, T.talk, L.port) T.ready worker.old.clients }
        ensures clients { KeepsClients worker.old.clients worker.new.clients }
        ensures lines { LinesStay worker.old.clients.mux worker.new.clients.mux }
        ensures peers { worker.new.peers ≡ worker.old.peers }
        ensures order { IsInOrder (T.awaited, T.talk, L.port) T.ready worker.new.clients }
    {}

    /// The round at the end of a turn of events of this moment, once its clients were served. A
    /// request that is sent is due at the second moment.
    fn round<L: Port + Drop>(
        &mut self,
        alloc: Global,
        worker: &mut EventWorker<L, T, P>,
        moment: u64,
        due: u64,
    )
        requires order { IsInOrder (T.awaited, T.talk, L.port) T.ready worker.old.clients }
        ensures round { rounds worker.old.clients.mux.roster.parts.parts moment
            worker.new.clients.mux.roster.parts.parts }
        ensures touched { worker.new.clients.touched ≡ worker.old.clients.touched }
        ensures spent { worker.new.clients.spent ≡ worker.old.clients.spent }
        ensures count { length worker.new.peers.items ≡ length worker.old.peers.items }
        ensures order { IsInOrder (T.awaited, T.talk, L.port) T.ready worker.new.clients };

    /// Tells how much the worker serves, after each walk over its clients: one each 100 ms.
    fn looked(&mut self, load: &Load);

    /// Tells what the proxy itself lacked last in a turn for a connection to a server, where those
    /// that waited for it left for that.
    fn lacked(&mut self, lacked: ServerLack);

    /// A client that came could not be taken in, and was closed: memory ran out, or its socket
    /// could not be registered.
    fn refused(&mut self);
}
