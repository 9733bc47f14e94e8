//! The bytes of one response, as a connection gives them.
ghost use Rattle.std.specs.Prelude.{◌≡◌, ◌<◌, ◌≤◌, ◌^◌, [], IfOk, OnErr, OnOk, length, take, true, vec_len};
ghost use Rattle.tko_text.specs.ResponseReads.{ReadsResponse};
ghost use Rattle.tko_links.specs.ExchangeParts.{ReadsPiece};

use crate::fault::LinkFault;
use crate::wire::Wire;
use std::alloc::{AllocError, Global};
use std::marker::Model;
use tko_bytes::{KEPT_CAPACITY, clear};
use tko_io::IoRuntime;
use tko_text::{ReadFault, Request, Response};

/// The room of the first read. It doubles when it is used up, unless it is known how long the
/// response is at least.
const FIRST_ROOM: usize = 16_384;

/// The room for what comes after the least length: the rest of the line `END`, and some bytes that
/// nobody asked for.
const END_ROOM: usize = 64;

/// Bytes that came, and free room, which the next response reuses. Contracts see the bytes.
#[derive(Debug, Drop)]
pub(crate) struct ReadBuffer {
    /// The bytes that have come, and free room.
    room: Vec<u8>,
    filled: usize,
}

impl Model for ReadBuffer {
    ghost use Rattle.std.specs.Prelude.{◌≤◌, List, ℕ, take, vec_len};

    ghost Value = { List ℕ };

    ghost view = { λ buffer. take buffer.filled buffer.room.items };

    ghost invariant = { λ buffer. buffer.filled ≤ vec_len buffer.room };
}

impl ReadBuffer {
    pub(crate) fn new(alloc: Global) -> ReadBuffer
        ensures { result ≡ [] }
    {
        ReadBuffer {
            room: Vec::new(alloc),
            filled: 0,
        }
    }

    pub(crate) fn as_bytes(&self) -> &[u8]
        ensures { result.now ≡ self.now }
    {
        &self.room[..self.filled]
    }

    pub(crate) fn clear(&mut self)
        ensures { self.new ≡ [] }
    {
        self.filled = 0;
    }

    /// Clears it, and gives up room above `KEPT_CAPACITY`.
    pub(crate) fn release(&mut self)
        ensures { self.new ≡ [] }
    {
        self.clear();
        if self.room.len() > KEPT_CAPACITY {
            clear(&mut self.room, 0);
        }
    }

    /// The response at the front of the bytes, and how many of them it takes. A value that is
    /// longer than the room which would be kept takes the bytes with it, and is not copied.
    pub(crate) fn response(
        &mut self,
        alloc: Global,
        request: &Request,
    ) -> Result<(Response, usize), ReadFault>
        ensures reads { ReadsResponse request.now self.old result }
        ensures within { IfOk result (λ found. found.1 ≤ length self.old) }
        ensures err { OnErr result (self.new ≡ self.old) }
    {
        if self.filled <= KEPT_CAPACITY {
            return Response::read(alloc, request, self.as_bytes());
        }
        self.room.truncate(self.filled);
        let read = Response::take(alloc, request, &mut self.room);
        self.filled = self.room.len();
        read
    }

    /// Reads once from the wire, straight into the free room, and returns how many bytes came. 0 is
    /// the end of input. The response is as long as `least` says, or longer.
    pub(crate) fn read<R: IoRuntime, W: Wire>(
        &mut self,
        rt: &R,
        wire: &mut W,
        server: usize,
        least: usize,
    ) -> Result<usize, LinkFault>
        requires within { server < W.servers wire.old }
        requires connected { W.is_connected wire.old server ≡ true }
        ensures { ReadsPiece W.servers W.is_connected W.failures W.steps server wire.old
            self.old result wire.new self.new }
    {
        if make_room(&mut self.room, self.filled, least).is_err() {
            return Err(LinkFault::Memory);
        }
        match wire.read(rt, server, &mut self.room[self.filled..]) {
            Ok(count) => {
                self.filled += count;
                Ok(count)
            }
            Err(fault) => Err(LinkFault::of(fault)),
        }
    }
}

/// Makes room after the filled part, if there is none: at once for all of a response whose least
/// length is known, so that a long one is moved once.
fn make_room(room: &mut Vec<u8>, filled: usize, least: usize) -> Result<(), AllocError>
    requires { filled ≤ vec_len room.old }
    ensures ok { OnOk result (filled < vec_len room.new) }
    ensures within { filled ≤ vec_len room.new }
    ensures kept { take filled room.new.items ≡ take filled room.old.items }
{
    if filled < room.len() {
        return Ok(());
    }
    room.resize(room_for(filled, least), 0)
}

/// How much room there is to be.
fn room_for(filled: usize, least: usize) -> usize
    requires { filled < 2 ^ 63 }
    ensures { filled < result }
{
    if filled < least {
        return least.saturating_add(END_ROOM);
    }
    filled + FIRST_ROOM.max(filled)
}
