//! The thread that accepts connections.
ghost use Rattle.std.specs.Prelude.{◌≡◌, ◌&&◌, false, true};
ghost use Rattle.std.specs.Bool.{OnFalse};
ghost use Rattle.tko_accept.specs.Accepting.{HasAccepted};

use crate::Way;
use crate::listening::{AcceptStop, Listening};
use crate::room::{ClientPlace, Room};
use std::alloc::{AllocError, Global};
use std::net::{SocketAddr, TcpStream};
use std::sync::{Arc, Wait};
use tko_events::Log;
use tko_threads::Patience;

/// Why accepting ended.
#[derive(Clone, Copy, Debug, PartialEq, Eq)]
pub enum AcceptEnd {
    /// As many connections were accepted as were asked for.
    Enough,
    /// No worker takes connections any more.
    NoWorker,
    /// The listener is broken.
    Broken,
}

/// Gives each accepted connection a place in the room, and hands it to the workers by `way`.
#[derive(Drop)]
pub struct Entrance<W> {
    room: Arc<Room, Global>,
    way: W,
    patience: Patience,
    pub log: Log,
    /// Whether there was a worker for each connection so far.
    has_worker: bool,
}

/// Accepts connections while there is room for them, and hands each to the workers. It ends after
/// `connections` of them, where 0 is no limit, when no worker is left, or when the listener is
/// broken. Any other accept that fails is tried again, after a lack of descriptors or memory once a
/// client has left or a tenth of a second has passed.
pub fn accept_all<R: Wait, W: Way>(
    rt: &R,
    alloc: Global,
    listening: &mut Listening<'_>,
    entrance: &mut Entrance<W>,
    connections: u64,
) -> AcceptEnd
    requires none { listening.old.accepted ≡ 0 }
    requires whole { listening.old.is_broken ≡ false }
    requires taken { entrance.old.has_worker ≡ true }
    ensures accepted { HasAccepted connections listening.new entrance.new result }
    ensures closed { result ≡ AcceptEnd.NoWorker → W.is_closed entrance.new.way }
{
    let mut left = connections;
    for _ in rt.forever() {
        if !entrance.room.has_place(rt) {
            continue;
        }
        match listening.accept() {
            Ok((stream, address)) => {
                if !entrance.admit(rt, alloc, stream, address) {
                    return AcceptEnd::NoWorker;
                }
                if left == 1 {
                    return AcceptEnd::Enough;
                }
                left = left.saturating_sub(1);
            }
            Err(AcceptStop::Nobody) => {}
            Err(AcceptStop::Aborted) => {}
            Err(AcceptStop::Failed) => entrance.room.wait(rt),
            Err(AcceptStop::Broken) => return AcceptEnd::Broken,
        }
    }
    unreachable!()
}

impl<W: Way> Entrance<W> {
    /// An entrance to this room, which hands clients to the workers by `way`.
    pub fn new(room: Arc<Room, Global>, way: W, patience: Patience, log: Log) -> Entrance<W>
        ensures worker { result.has_worker ≡ true }
        ensures patience { result.patience ≡ patience }
    {
        Entrance {
            room,
            way,
            patience,
            log,
            has_worker: true,
        }
    }

    /// Hands a connection to the workers, and returns whether a worker is left. A connection whose
    /// socket cannot be set up, or for which there is no memory, is closed at once. It is counted
    /// as a session that ended by a fault.
    fn admit<R: Wait>(
        &mut self,
        rt: &R,
        alloc: Global,
        stream: TcpStream,
        address: SocketAddr,
    ) -> bool
        ensures worker { self.new.has_worker ≡ (self.old.has_worker && result) }
        ensures closed { OnFalse result (W.is_closed self.new.way) }
    {
        match self.client(alloc, stream, address) {
            Ok(Some(client)) => {
                self.log.meter().accept_client();
                self.send(rt, client)
            }
            Ok(None) | Err(_) => {
                self.log.count_session(true);
                self.log.meter().drop_client();
                true
            }
        }
    }

    /// Hands a client to the workers, and returns whether a worker takes it.
    fn send<R: Wait>(&mut self, rt: &R, client: W::Client) -> bool
        ensures worker { self.new.has_worker ≡ (self.old.has_worker && result) }
        ensures closed { OnFalse result (W.is_closed self.new.way) }
    {
        let is_sent = self.way.send(rt, client);
        self.has_worker = self.has_worker && is_sent;
        is_sent
    }

    /// Makes the client of a connection, with a place in the room; `None` if its socket cannot be
    /// set up.
    fn client(
        &self,
        alloc: Global,
        stream: TcpStream,
        address: SocketAddr,
    ) -> Result<Option<W::Client>, AllocError> {
        if self.patience.set(&stream).is_err() {
            return Ok(None);
        }
        let place = ClientPlace::take(&self.room)?;
        let client = W::client(alloc, stream, address, place, self.patience)?;
        Ok(Some(client))
    }
}
