//! A worker as a whole, from one turn of events to the next.
ghost use Rattle.std.specs.Prelude.{◌≡◌, ◌≢◌, ◌<◌, [], None, Some, IfErr, IfOk, length, option_copied, option_map};
ghost use Rattle.std.specs.Bool.{OnFalse, OnTrue};
ghost use Rattle.std.specs.List.{count_by};
ghost use Rattle.tko_mux.specs.Muxes.{line_at};
ghost use Rattle.tko_port.specs.Guests.{noting};
ghost use Rattle.tko_worker.specs.Acts.{ActsInOrder, HasActed};
ghost use Rattle.tko_worker.specs.Changes.{OnlyLinesChange};
ghost use Rattle.tko_worker.specs.Connections.{has_socket};
ghost use Rattle.tko_worker.specs.Taking.{AreTaken, IsTurnServed, is_flag_set};
ghost use Rattle.tko_worker.specs.Turns.{AreFinished, IsAhead, IsNothingLeft, IsWanted, OtherPeers, probed_at, socket_at};
ghost use Rattle.tko_port.specs.Wires.{CannotWriteTo, HasConnected, HasFailed, IsOpen, OtherLines, due_at, in_flight_at, link_at};
ghost use Rattle.tko_worker.specs.Workers.{IsInOrder};

use crate::resting::{is_quiet, is_wanted, none_is_left};
use crate::{Outlook, Worker};
use std::alloc::Global;
use tko_bytes::NoMemory;
use tko_mux::{Asking, Came};
use tko_pace::TurnMoments;
use tko_pipe::{Link, ShutCause};
use tko_port::{
    ClientEvent, Guest, Peer, Port, SharedParts, Talking, first_due, in_flight, is_connecting,
};

/// The clients of a worker, and the sockets to its servers. In a turn of events what came is noted,
/// `serve` does what can be done for the clients, and `finish` writes to the servers.
#[derive(Drop)]
pub struct EventWorker<L, T, P> {
    pub clients: Worker<L, T, P>,
    peers: Vec<Peer<L>>,
    /// Whether there may be something to do for a server: at the end of the last turn it was not at
    /// rest or a response was awaited, or something came for it since.
    awake: Vec<bool>,
    /// Whether some of what came from a server may be left for the next turn.
    is_behind: bool,
}

impl<P: Drop, L: Port + Drop, T: Talking<P> + Drop> EventWorker<L, T, P> {
    /// No client, and no connection to any of so many servers, each of which has this long for a
    /// response. If memory runs out, what is shared comes back.
    pub fn new(
        alloc: Global,
        shared: SharedParts<P>,
        servers: usize,
        limit: u64,
    ) -> Result<EventWorker<L, T, P>, SharedParts<P>>
        ensures order { IfOk result (λ it.
            IsInOrder (T.awaited, T.talk, L.port) T.ready it.clients) }
        ensures peers { IfOk result (λ it. length it.peers.items ≡ servers) }
        ensures parts { IfOk result (λ it. it.clients.mux.roster.parts ≡ shared) }
        ensures err { IfErr result (λ back. back ≡ shared) }
    {
        let (Ok(peers), Ok(awake)) = (new_peers(alloc, servers), vec![in alloc; true; servers])
        else {
            return Err(shared);
        };
        match Worker::new(alloc, shared, servers, limit) {
            Ok(clients) => Ok(EventWorker {
                clients,
                peers,
                awake,
                is_behind: false,
            }),
            Err(back) => Err(back),
        }
    }
}

impl<P, L: Port + Drop, T: Talking<P> + Drop> EventWorker<L, T, P> {
    /// Whether there may be something to do for a server in this turn. Where there is not, no
    /// connection to it is to be begun.
    pub fn is_awake(&self, server: usize) -> bool {
        is_set(self.awake.as_slice(), server)
    }

    /// Whether a connection to a server is to be begun.
    pub fn wants(&self, server: usize) -> bool
        ensures wanted { OnTrue result (IsWanted (line_at self.now.clients.mux server)
            (socket_at L.port self.now.peers.items server)) }
        ensures within { OnTrue result (server < length self.now.peers.items) }
        ensures not { OnFalse result (server < length self.now.peers.items
            → IsWanted (line_at self.now.clients.mux server)
            (socket_at L.port self.now.peers.items server) → ⊥) }
    {
        if server >= self.peers.len() {
            return false;
        }
        is_wanted(&self.clients.mux, &self.peers[server], server)
    }

    /// A connection to a server was begun, on this socket. If none is wanted, that is closed.
    pub fn connecting(&mut self, server: usize, port: L)
        ensures begun { IsWanted (line_at self.old.clients.mux server)
            (socket_at L.port self.old.peers.items server) → server < length self.old.peers.items
            → socket_at L.port self.new.peers.items server ≡ Some (L.port port) }
        ensures clients { self.new.clients ≡ self.old.clients }
        ensures others { OtherPeers server self.old.peers.items self.new.peers.items }
        ensures count { length self.new.peers.items ≡ length self.old.peers.items }
    {
        if self.wants(server) {
            self.peers[server].begin(port);
            set(&mut self.awake, server, true);
        }
    }

    /// The connection to a server was made. Its port is writable.
    pub fn connected(&mut self, server: usize)
        requires order { IsInOrder (T.awaited, T.talk, L.port) T.ready self.old.clients }
        ensures done { server < length self.old.peers.items
            → server < length self.old.clients.mux.lines
            → HasConnected server self.old.clients.mux.lines
            (socket_at L.port self.old.peers.items server) self.new.clients.mux.lines
            (socket_at L.port self.new.peers.items server) }
        ensures others { OtherPeers server self.old.peers.items self.new.peers.items }
        ensures count { length self.new.peers.items ≡ length self.old.peers.items }
        ensures clients { OnlyLinesChange self.old.clients self.new.clients }
        ensures order { IsInOrder (T.awaited, T.talk, L.port) T.ready self.new.clients }
    {
        if server < self.peers.len() && server < self.clients.mux.servers() {
            self.clients.connect(&mut self.peers[server], server);
            set(&mut self.awake, server, true);
        }
    }

    /// No connection to a server could be made, which is the server's failure.
    pub fn failed(&mut self, server: usize)
        requires order { IsInOrder (T.awaited, T.talk, L.port) T.ready self.old.clients }
        ensures done { server < length self.old.peers.items
            → HasFailed server ShutCause.Fault self.old.clients.mux.lines
            self.new.clients.mux.lines }
        ensures others { OtherPeers server self.old.peers.items self.new.peers.items }
        ensures count { length self.new.peers.items ≡ length self.old.peers.items }
        ensures clients { OnlyLinesChange self.old.clients self.new.clients }
        ensures order { IsInOrder (T.awaited, T.talk, L.port) T.ready self.new.clients }
    {
        if server < self.peers.len() {
            self.clients
                .fail(&mut self.peers[server], server, ShutCause::Fault);
            set(&mut self.awake, server, true);
        }
    }

    /// No connection to a server could be made, since the proxy itself lacked what it takes of the
    /// system. It is no failure of the server.
    pub fn lacked(&mut self, server: usize)
        requires order { IsInOrder (T.awaited, T.talk, L.port) T.ready self.old.clients }
        ensures done { server < length self.old.peers.items
            → HasFailed server ShutCause.Lacking self.old.clients.mux.lines
            self.new.clients.mux.lines }
        ensures others { OtherPeers server self.old.peers.items self.new.peers.items }
        ensures count { length self.new.peers.items ≡ length self.old.peers.items }
        ensures clients { OnlyLinesChange self.old.clients self.new.clients }
        ensures order { IsInOrder (T.awaited, T.talk, L.port) T.ready self.new.clients }
    {
        if server < self.peers.len() {
            self.clients
                .fail(&mut self.peers[server], server, ShutCause::Lacking);
            set(&mut self.awake, server, true);
        }
    }

    /// The socket of the connection to a server, if there is one.
    pub fn socket(&self, server: usize) -> Option<&L>
        ensures { option_map L.port (option_copied result)
            ≡ socket_at L.port self.now.peers.items server }
    {
        match self.peers.get(server) {
            Some(peer) => peer.socket(),
            None => None,
        }
    }

    /// How many connections to servers there are, made or being made.
    pub fn connections(&self) -> usize
        ensures { result ≡ count_by has_socket self.now.peers.items }
    {
        self.peers
            .iter()
            .filter(|peer| peer.socket.is_some())
            .count()
    }

    /// Whether the connection to a server is being made, or is to be begun.
    pub fn is_connecting(&self, server: usize) -> bool
        ensures yes { OnTrue result
            (link_at (line_at self.now.clients.mux server) ≡ Some Link.Connecting) }
        ensures not { OnFalse result
            (link_at (line_at self.now.clients.mux server) ≢ Some Link.Connecting) }
    {
        is_connecting(&self.clients.mux, server)
    }

    /// When the first response of a server is due, if one is awaited.
    pub fn due(&self, server: usize) -> Option<u64>
        ensures { result ≡ due_at self.now.clients.mux.lines server }
    {
        first_due(&self.clients.mux, server)
    }

    /// How many requests wait for a response of a server, or to be sent to it.
    pub fn in_flight(&self, server: usize) -> usize
        ensures { result ≡ in_flight_at self.now.clients.mux.lines server }
    {
        in_flight(&self.clients.mux, server)
    }

    /// The connection to a server could not be made on this socket, which is closed. Those that
    /// wait for it go on waiting, so another is to be begun.
    pub fn again(&mut self, server: usize)
        ensures closed { socket_at L.port self.new.peers.items server ≡ None }
        ensures clients { self.new.clients ≡ self.old.clients }
        ensures others { OtherPeers server self.old.peers.items self.new.peers.items }
        ensures count { length self.new.peers.items ≡ length self.old.peers.items }
    {
        if server < self.peers.len() {
            self.peers[server].hold(false);
            set(&mut self.awake, server, true);
        }
    }

    /// An event came for the socket to a server.
    pub fn note_server(&mut self, server: usize, event: ClientEvent)
        ensures noted { socket_at L.port self.new.peers.items server
            ≡ option_map (noting event) (socket_at L.port self.old.peers.items server) }
        ensures clients { self.new.clients ≡ self.old.clients }
        ensures others { OtherPeers server self.old.peers.items self.new.peers.items }
        ensures count { length self.new.peers.items ≡ length self.old.peers.items }
    {
        if server < self.peers.len() {
            self.peers[server].note(event);
            set(&mut self.awake, server, true);
        }
    }

    /// What came for the probe of a server, if that came.
    pub fn probed(&mut self, server: usize) -> Option<Came>
        ensures came { result ≡ probed_at self.old.peers.items server }
        ensures gone { probed_at self.new.peers.items server ≡ None }
        ensures socket { socket_at L.port self.new.peers.items server
            ≡ socket_at L.port self.old.peers.items server }
        ensures others { OtherPeers server self.old.peers.items self.new.peers.items }
        ensures clients { self.new.clients ≡ self.old.clients }
        ensures count { length self.new.peers.items ≡ length self.old.peers.items }
    {
        if server >= self.peers.len() {
            return None;
        }
        self.peers[server].take_probed()
    }

    /// The parts that all sessions shared, at the end. The clients and all sockets are dropped.
    pub fn into_parts(self) -> P
        ensures { result ≡ self.clients.mux.roster.parts.parts }
    {
        let EventWorker {
            clients,
            peers,
            awake,
            is_behind: _,
        } = self;
        drop((peers, awake));
        clients.into_parts()
    }

    /// Does what can be done in this turn for the clients: what came from the servers is read and
    /// reaches them, late connections are shut, and the clients are served. `finish` writes what
    /// they ask.
    pub fn serve(&mut self, alloc: Global, buffer: &mut [u8], moments: TurnMoments)
        requires room { 0 < length buffer.old }
        requires order { IsInOrder (T.awaited, T.talk, L.port) T.ready self.old.clients }
        ensures served { IsTurnServed (T.awaited, T.talk, L.port)
            ⟦<Guest<L, T> as Asking<SharedParts<P>>>⟧.waits_for self.old.awake.items
            (length self.old.peers.items) self.new.is_behind self.old.clients self.new.clients }
        ensures count { length self.new.peers.items ≡ length self.old.peers.items }
        ensures room { length buffer.new ≡ length buffer.old }
        ensures acts { ActsInOrder (T.awaited, T.talk, L.port) T.ready self.old.clients
            self.new.clients }
    {
        let awake = self.awake.as_slice();
        self.is_behind = !serve_all(
            &mut self.clients,
            &mut self.peers,
            awake,
            alloc,
            buffer,
            moments,
        );
        self.clients.end_turn(alloc, moments.due());
    }

    /// Writes to the servers what is asked of them, once, at the end of a turn. Returns what lies
    /// ahead of them then. Where each rests, nothing that came is left, and no client is left for
    /// the next turn, that is to wait for events, until the first response is due.
    pub fn finish(&mut self, now: u64) -> Outlook
        requires { IsInOrder (T.awaited, T.talk, L.port) T.ready self.old.clients }
        ensures finished { AreFinished L.port now self.new.clients.mux.lines self.new.peers.items
            (length self.new.peers.items) result }
        ensures none { OnTrue result.rests
            (IsNothingLeft self.old.is_behind self.new.clients.spent) }
        ensures clients { OnlyLinesChange self.old.clients self.new.clients }
        ensures count { length self.new.peers.items ≡ length self.old.peers.items }
        ensures order { IsInOrder (T.awaited, T.talk, L.port) T.ready self.new.clients }
    {
        let ahead = finish_all(&mut self.clients, &mut self.peers, &mut self.awake, now);
        if none_is_left(&self.clients) && !self.is_behind {
            return ahead;
        }
        Outlook {
            rests: false,
            ..ahead
        }
    }
}

/// Serves each server for which there may be something to do. Returns whether nothing that came
/// from them is left.
fn serve_all<P, L: Port + Drop, T: Talking<P> + Drop>(
    clients: &mut Worker<L, T, P>,
    peers: &mut Vec<Peer<L>>,
    awake: &[bool],
    alloc: Global,
    buffer: &mut [u8],
    moments: TurnMoments,
) -> bool
    requires room { 0 < length buffer.old }
    requires order { IsInOrder (T.awaited, T.talk, L.port) T.ready clients.old }
    ensures taken { OnTrue result (AreTaken (T.awaited, T.talk, L.port)
        ⟦<Guest<L, T> as Asking<SharedParts<P>>>⟧.waits_for awake.now (length peers.old.items)
        clients.old clients.new) }
    ensures count { length peers.new.items ≡ length peers.old.items }
    ensures acted { HasActed (T.awaited, T.talk, L.port) clients.old clients.new }
    ensures order { IsInOrder (T.awaited, T.talk, L.port) T.ready clients.new }
{
    let mut all = true;
    for server in 0..peers.len() {
        if !is_set(awake, server) {
            continue;
        }
        let its = clients.serve_server(alloc, &mut peers[server], server, moments, buffer);
        all = all && its;
    }
    all
}

/// Writes to each server what is to be written, and finds what lies ahead of them then, and for
/// which of them there may be something to do in the next turn.
fn finish_all<P, L: Port + Drop, T: Talking<P> + Drop>(
    clients: &mut Worker<L, T, P>,
    peers: &mut Vec<Peer<L>>,
    awake: &mut [bool],
    now: u64,
) -> Outlook
    requires order { IsInOrder (T.awaited, T.talk, L.port) T.ready clients.old }
    ensures finished { AreFinished L.port now clients.new.mux.lines peers.new.items
        (length peers.new.items) result }
    ensures clients { OnlyLinesChange clients.old clients.new }
    ensures count { length peers.new.items ≡ length peers.old.items }
    ensures order { IsInOrder (T.awaited, T.talk, L.port) T.ready clients.new }
{
    let mut ahead = Outlook::clear();
    for server in 0..peers.len() {
        let its = finish_one(clients, &mut peers[server], server, now);
        set(awake, server, !its.is_quiet());
        ahead = ahead.and(its);
    }
    ahead
}

/// Writes to a server what is to be written, and returns what lies ahead of it then.
fn finish_one<P, L: Port + Drop, T: Talking<P> + Drop>(
    clients: &mut Worker<L, T, P>,
    peer: &mut Peer<L>,
    server: usize,
    now: u64,
) -> Outlook
    requires order { IsInOrder (T.awaited, T.talk, L.port) T.ready clients.old }
    ensures wrote { IsOpen (line_at clients.new.mux server)
        → CannotWriteTo (line_at clients.new.mux server) (option_map L.port peer.new.socket) }
    ensures ahead { IsAhead now (line_at clients.new.mux server)
        (option_map L.port peer.new.socket) result }
    ensures others { OtherLines server clients.old.mux.lines clients.new.mux.lines }
    ensures clients { OnlyLinesChange clients.old clients.new }
    ensures order { IsInOrder (T.awaited, T.talk, L.port) T.ready clients.new }
{
    if is_quiet(&clients.mux, peer, server) {
        return Outlook::clear();
    }
    clients.write(peer, server);
    Outlook::of(&clients.mux, peer, server, now)
}

/// Whether the flag of a server is set. One that has none counts as set.
fn is_set(flags: &[bool], server: usize) -> bool
    ensures { result ≡ is_flag_set flags.now server }
{
    match flags.get(server) {
        Some(flag) => *flag,
        None => true,
    }
}

/// Sets the flag of a server, or clears it.
fn set(flags: &mut [bool], server: usize, flag: bool) {
    if server < flags.len() {
        flags[server] = flag;
    }
}

/// So many servers without a connection.
fn new_peers<L: Drop>(alloc: Global, servers: usize) -> Result<Vec<Peer<L>>, NoMemory>
    ensures { IfOk result (λ peers. length peers.items ≡ servers) }
{
    let mut peers = Vec::new(alloc);
    for _ in 0..servers {
        peers.push(Peer::new())?;
    }
    Ok(peers)
}
