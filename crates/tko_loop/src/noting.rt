//! What an event says.
ghost use Rattle.std.specs.Prelude.{◌≡◌};
ghost use Rattle.mio.specs.Event.{is_readable, is_writable};
ghost use Rattle.tko_worker.specs.Workers.{IsInOrder};
ghost use Rattle.tko_worker.specs.Turns.{OtherPeers, socket_at};
ghost use Rattle.tko_loop.specs.Held.{held_port};
ghost use Rattle.tko_loop.specs.Tellings.{IsNotedIf, IsToldAt, port_after, says_ended, told_of_reading, told_of_writing};

use crate::connecting::{advance, note_lack};
use crate::seats::Seats;
use crate::targets::{Target, target_of};
use crate::{Addresses, Held, ServerLack};
use mio::Events;
use mio::event::Event;
use std::alloc::Global;
use tko_io::IoRuntime;
use tko_port::Talking;
use tko_tcp::Lack;
use tko_worker::{EventWorker, Worker};

/// Notes all events of a turn, each at the socket that it is for, and what was lacking for a
/// connection. Returns how many events there are.
pub(crate) fn note_all<R: IoRuntime, P, T: Talking<P> + Drop, K: Drop>(
    rt: &R,
    worker: &mut EventWorker<Held<K>, T, P>,
    servers: &mut Vec<Addresses>,
    seats: &Seats,
    alloc: Global,
    events: &Events,
    lacked: &mut Option<ServerLack>,
) -> usize
    requires order { IsInOrder (T.awaited, T.talk, held_port) T.ready worker.old.clients }
    ensures order { IsInOrder (T.awaited, T.talk, held_port) T.ready worker.new.clients }
{
    let mut count: usize = 0;
    for event in events {
        count = count.saturating_add(1);
        match target_of(servers.len(), event.token()) {
            Target::Waker => {}
            Target::Server(server) => {
                let lack = note_server(rt, worker, servers, server, event);
                note_lack(lacked, server, lack);
            }
            Target::Seat(seat) => note_client(worker, alloc, seats.number(seat), event),
        }
    }
    count
}

/// Notes an event at a client's socket, if a client is there.
fn note_client<P, T: Talking<P> + Drop, K: Drop>(
    worker: &mut EventWorker<Held<K>, T, P>,
    alloc: Global,
    number: Option<usize>,
    event: &Event,
)
    requires order { IsInOrder (T.awaited, T.talk, held_port) T.ready worker.old.clients }
    ensures told { IsToldAt (T.awaited, T.talk, held_port) event.now worker.old.clients number
        worker.new.clients }
    ensures peers { worker.new.peers ≡ worker.old.peers }
    ensures order { IsInOrder (T.awaited, T.talk, held_port) T.ready worker.new.clients }
{
    let Some(number) = number else {
        return;
    };
    let clients = &mut worker.clients;
    note_writable(clients, alloc, number, event);
    note_readable(clients, alloc, number, event);
}

/// Notes that a client's socket is writable, if an event says so.
fn note_writable<P, T: Talking<P> + Drop, K: Drop>(
    clients: &mut Worker<Held<K>, T, P>,
    alloc: Global,
    number: usize,
    event: &Event,
)
    requires order { IsInOrder (T.awaited, T.talk, held_port) T.ready clients.old }
    ensures told { IsNotedIf (T.awaited, T.talk, held_port)
        (told_of_writing (is_writable event.now)) clients.old number clients.new }
    ensures order { IsInOrder (T.awaited, T.talk, held_port) T.ready clients.new }
{
    if event.is_writable() {
        clients.writable(alloc, number);
    }
}

/// Notes that a client's socket can be read, if an event says so.
fn note_readable<P, T: Talking<P> + Drop, K: Drop>(
    clients: &mut Worker<Held<K>, T, P>,
    alloc: Global,
    number: usize,
    event: &Event,
)
    requires order { IsInOrder (T.awaited, T.talk, held_port) T.ready clients.old }
    ensures told { IsNotedIf (T.awaited, T.talk, held_port)
        (told_of_reading (says_ended event.now) (is_readable event.now))
        clients.old number clients.new }
    ensures order { IsInOrder (T.awaited, T.talk, held_port) T.ready clients.new }
{
    if has_ended(event) {
        clients.ended(alloc, number);
        return;
    }
    if event.is_readable() {
        clients.readable(alloc, number);
    }
}

/// Notes an event at the socket of a server. Returns what the proxy itself lacked for a connection
/// to it, if those that wait leave for that.
fn note_server<R: IoRuntime, P, T: Talking<P> + Drop, K: Drop>(
    rt: &R,
    worker: &mut EventWorker<Held<K>, T, P>,
    servers: &mut Vec<Addresses>,
    server: usize,
    event: &Event,
) -> Option<Lack>
    requires order { IsInOrder (T.awaited, T.talk, held_port) T.ready worker.old.clients }
    ensures order { IsInOrder (T.awaited, T.talk, held_port) T.ready worker.new.clients }
{
    if server >= servers.len() {
        return None;
    }
    let mut lack = None;
    if worker.is_connecting(server) {
        lack = advance(rt, worker, &mut servers[server], server);
    }
    note_ready(worker, server, event);
    lack
}

/// Notes what may be done on the socket of a server.
fn note_ready<P, T: Talking<P> + Drop, K: Drop>(
    worker: &mut EventWorker<Held<K>, T, P>,
    server: usize,
    event: &Event,
)
    ensures told { socket_at held_port worker.new.peers.items server
        ≡ port_after event.now (socket_at held_port worker.old.peers.items server) }
    ensures others { OtherPeers server worker.old.peers.items worker.new.peers.items }
    ensures clients { worker.new.clients ≡ worker.old.clients }
{
    if event.is_writable() {
        worker.note_server(server, tko_port::ClientEvent::Writable);
    }
    if has_ended(event) {
        worker.note_server(server, tko_port::ClientEvent::Ended);
        return;
    }
    if event.is_readable() {
        worker.note_server(server, tko_port::ClientEvent::Readable);
    }
}

/// Whether an event says that the other side sends no more, or that the connection failed, which
/// the next read tells.
fn has_ended(event: &Event) -> bool
    ensures { result ≡ says_ended event.now }
{
    event.is_read_closed() || event.is_error()
}
