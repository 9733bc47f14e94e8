//! How connections to servers are begun.
ghost use Rattle.std.specs.Prelude.{◌≡◌, ◌<◌, None, Some, false, length, true};
ghost use Rattle.tko_mux.specs.Muxes.{line_at};
ghost use Rattle.tko_port.specs.Wires.{link_at};
ghost use Rattle.tko_worker.specs.Turns.{socket_at};
ghost use Rattle.tko_worker.specs.Workers.{IsInOrder};
ghost use Rattle.tko_loop.specs.Connects.{IsConnectGivenUp, IsToldUnmade, has_passed, lack_noted};
ghost use Rattle.tko_loop.specs.Held.{held_port};

use crate::addresses::{Reach, Unmade};
use crate::targets::server_token;
use crate::{Addresses, Held};
use mio::{Registry, Token};
use tko_io::IoRuntime;
use tko_pipe::Link;
use tko_port::Talking;
use tko_socket::{Connecting, Socket};
use tko_tcp::{Lack, lack_of};
use tko_worker::{EventWorker, earlier};

/// What the proxy itself lacked for a connection to a server.
#[derive(Clone, Copy, Debug, PartialEq, Eq)]
pub struct ServerLack {
    pub server: usize,
    pub lack: Lack,
}

/// Begins a connection to each server to which one is wanted, and notes what was lacking. Returns
/// the first moment at which another address is to be tried than one of those at which connections
/// are being made.
pub(crate) fn connect_all<R: IoRuntime, P, T: Talking<P> + Drop, K: Drop>(
    rt: &R,
    worker: &mut EventWorker<Held<K>, T, P>,
    servers: &mut Vec<Addresses>,
    registry: &Registry,
    now: u64,
    lacked: &mut Option<ServerLack>,
) -> Option<u64>
    requires order { IsInOrder (T.awaited, T.talk, held_port) T.ready worker.old.clients }
    ensures order { IsInOrder (T.awaited, T.talk, held_port) T.ready worker.new.clients }
{
    let mut next = None;
    for server in 0..servers.len() {
        if !worker.is_awake(server) {
            continue;
        }
        pass_over(worker, &mut servers[server], server, now);
        if worker.wants(server) {
            let token = server_token(servers.len(), server);
            let lack = connect(
                rt,
                worker,
                &mut servers[server],
                server,
                registry,
                token,
                now,
            );
            note_lack(lacked, server, lack);
        } else {
            servers[server].rest();
        }
        next = earlier(next, pending(worker, &servers[server], server));
    }
    next
}

/// Closes a connection that is being made at an address whose time is over: the next one is to be
/// tried.
fn pass_over<P, T: Talking<P> + Drop, K: Drop>(
    worker: &mut EventWorker<Held<K>, T, P>,
    addresses: &mut Addresses,
    server: usize,
    now: u64,
)
    ensures early { has_passed addresses.old.until now ≡ false
        → worker.new.peers ≡ worker.old.peers }
    ensures over { has_passed addresses.old.until now ≡ true
        → link_at (line_at worker.old.clients.mux server) ≡ Some Link.Connecting
        → socket_at held_port worker.new.peers.items server ≡ None }
    ensures clients { worker.new.clients ≡ worker.old.clients }
{
    if has_passed(addresses.until(), now) && worker.is_connecting(server) {
        addresses.pass();
        worker.again(server);
    }
}

/// Whether a moment, if there is one, has come.
fn has_passed(until: Option<u64>, now: u64) -> bool
    ensures { result ≡ has_passed until now }
{
    match until {
        Some(until) => until <= now,
        None => false,
    }
}

/// Until when the connection to a server is tried that is being made, if another address is left.
fn pending<P, T: Talking<P> + Drop, K: Drop>(
    worker: &EventWorker<Held<K>, T, P>,
    addresses: &Addresses,
    server: usize,
) -> Option<u64>
    ensures { link_at (line_at worker.now.clients.mux server) ≡ Some Link.Connecting
        → result ≡ addresses.now.until }
{
    if worker.is_connecting(server) {
        return addresses.until();
    }
    None
}

/// Begins a connection to a server at its next address. A server without one fails at once. Returns
/// what the proxy itself lacked, if those that wait leave for that.
fn connect<R: IoRuntime, P, T: Talking<P> + Drop, K: Drop>(
    rt: &R,
    worker: &mut EventWorker<Held<K>, T, P>,
    addresses: &mut Addresses,
    server: usize,
    registry: &Registry,
    token: Token,
    now: u64,
) -> Option<Lack>
    requires order { IsInOrder (T.awaited, T.talk, held_port) T.ready worker.old.clients }
    ensures order { IsInOrder (T.awaited, T.talk, held_port) T.ready worker.new.clients }
{
    let address = match addresses.begin(rt) {
        Reach::At(address) => address,
        Reach::Later => return None,
        Reach::Nowhere => {
            worker.failed(server);
            return None;
        }
    };
    match Socket::connect(rt, registry, token, address) {
        Ok(socket) => {
            addresses.begun(now, worker.due(server));
            worker.connecting(server, Held::server(socket));
            None
        }
        Err(error) => give_up(rt, worker, addresses, server, lack_of(&error)),
    }
}

/// An event came for a connection that is being made. Returns what the proxy itself lacked at
/// another address before, if those that wait leave for that.
pub(crate) fn advance<R: IoRuntime, P, T: Talking<P> + Drop, K: Drop>(
    rt: &R,
    worker: &mut EventWorker<Held<K>, T, P>,
    addresses: &mut Addresses,
    server: usize,
) -> Option<Lack>
    requires order { IsInOrder (T.awaited, T.talk, held_port) T.ready worker.old.clients }
    ensures order { IsInOrder (T.awaited, T.talk, held_port) T.ready worker.new.clients }
{
    match how_far(worker, server) {
        Connecting::Pending => None,
        Connecting::Made => {
            addresses.made();
            worker.connected(server);
            None
        }
        Connecting::Failed => give_up(rt, worker, addresses, server, None),
    }
}

/// How far the connection to a server is.
fn how_far<P, T: Talking<P> + Drop, K: Drop>(
    worker: &EventWorker<Held<K>, T, P>,
    server: usize,
) -> Connecting {
    match worker.socket(server) {
        Some(held) => held.connecting(),
        None => Connecting::Pending,
    }
}

/// A connection to a server could not be made, perhaps for this which the proxy itself lacked.
/// Returns what it lacked, if those that wait leave for that.
fn give_up<R: IoRuntime, P, T: Talking<P> + Drop, K: Drop>(
    rt: &R,
    worker: &mut EventWorker<Held<K>, T, P>,
    addresses: &mut Addresses,
    server: usize,
    lack: Option<Lack>,
) -> Option<Lack>
    requires order { IsInOrder (T.awaited, T.talk, held_port) T.ready worker.old.clients }
    ensures given_up { server < length worker.old.peers.items → IsConnectGivenUp server lack
        addresses.old addresses.new worker.old.clients.mux.lines worker.new.clients.mux.lines
        result }
    ensures order { IsInOrder (T.awaited, T.talk, held_port) T.ready worker.new.clients }
{
    let unmade = addresses.failed(rt, lack);
    settle(worker, server, unmade);
    unmade.lack()
}

/// Notes what was lacking for a connection to a server, if anything was.
pub(crate) fn note_lack(lacked: &mut Option<ServerLack>, server: usize, lack: Option<Lack>)
    ensures { lacked.new ≡ lack_noted server lack lacked.old }
{
    if let Some(lack) = lack {
        *lacked = Some(ServerLack { server, lack });
    }
}

/// Has a connection tried again at the next address, if one is left. Else those that wait for it
/// learn why none was made.
fn settle<P, T: Talking<P> + Drop, K: Drop>(
    worker: &mut EventWorker<Held<K>, T, P>,
    server: usize,
    unmade: Unmade,
)
    requires order { IsInOrder (T.awaited, T.talk, held_port) T.ready worker.old.clients }
    ensures settled { server < length worker.old.peers.items → IsToldUnmade unmade server
        worker.old.clients.mux.lines worker.new.clients.mux.lines }
    ensures order { IsInOrder (T.awaited, T.talk, held_port) T.ready worker.new.clients }
{
    match unmade {
        Unmade::Next => worker.again(server),
        Unmade::Refused => worker.failed(server),
        Unmade::Lacking(_) => worker.lacked(server),
    }
}
