//! A response that comes in pieces.
ghost use Rattle.std.specs.Prelude.{◌≡◌, ◌<◌, ◌≤◌, ◌⊎◌, ◌-◌, [], None, Ok, drop, length};
ghost use Rattle.std.specs.Bool.{OnFalse};
ghost use Rattle.tko_bytes.specs.Lines.{HasNoEnd};
ghost use Rattle.tko_links.specs.Incoming.{HasPieceCome, JudgesBytes, arrival, nothing_yet};

use crate::fault::LinkFault;
use crate::read_buffer::ReadBuffer;
use memchr::memchr;
use std::alloc::Global;
use tko_text::{ReadFault, Request, Response};

/// How many bytes without LF may come until they are looked at.
const UNSEEN_LIMIT: usize = 65_536;

/// Reads one response after another, each from the bytes that have come for it, which it owns. They
/// are looked at only where that can show something: not before as many have come as the response
/// announced, and not where the last piece has no LF, except once every 65,536 bytes. So the time
/// is linear, however small the pieces are.
#[derive(Debug, Drop)]
pub(crate) struct IncomingResponse {
    /// What has come.
    pub(crate) buffer: ReadBuffer,
    /// How many bytes there were at the last look.
    looked: usize,
    /// No response that they begin is shorter.
    pub(crate) least: usize,
}

impl IncomingResponse {
    pub(crate) fn new(alloc: Global) -> IncomingResponse {
        IncomingResponse {
            buffer: ReadBuffer::new(alloc),
            looked: 0,
            least: 0,
        }
    }

    /// Nothing has come of the next response yet. What comes is put into the same room.
    pub(crate) fn begin(&mut self)
        ensures arrival { arrival self.new ≡ nothing_yet }
        ensures looked { self.new.looked ≡ 0 }
    {
        self.buffer.clear();
        self.looked = 0;
        self.least = 0;
    }

    /// Gives up room above 64 KiB.
    pub(crate) fn release(&mut self) {
        self.buffer.release();
    }

    /// The response that begins the bytes, and whether it ends with the last of them; nothing as
    /// long as it is not whole. The last `count` of them have come since the call before. A
    /// response may keep the bytes.
    pub(crate) fn look(
        &mut self,
        alloc: Global,
        request: &Request,
        count: usize,
    ) -> Result<Option<(Response, bool)>, LinkFault>
        requires come { HasPieceCome request.now (arrival self.old) count }
        requires looked { self.old.looked ≤ length self.old.buffer }
        ensures judges { JudgesBytes request.now self.old.buffer count (arrival self.new) result }
        ensures kept { result ≡ Ok None → self.new.buffer ≡ self.old.buffer }
        ensures looked { result ≡ Ok None → self.new.looked ≤ length self.new.buffer }
    {
        if count == 0 {
            return Err(LinkFault::Broken);
        }
        let bytes = self.buffer.as_bytes();
        let len = bytes.len();
        if !is_look_due(bytes, count, self.looked, self.least) {
            return Ok(None);
        }
        self.looked = len;
        match self.buffer.response(alloc, request) {
            Ok((response, end)) => Ok(Some((response, end == len))),
            Err(ReadFault::Short) => {
                self.least = Response::least_len(request, self.buffer.as_bytes());
                Ok(None)
            }
            Err(ReadFault::Unreadable) => Err(LinkFault::Broken),
            Err(ReadFault::Memory) => Err(LinkFault::Memory),
        }
    }
}

/// Whether a look at the bytes can show something, where the last read brought the last `count` of
/// them.
fn is_look_due(bytes: &[u8], count: usize, looked: usize, least: usize) -> bool
    requires count { count ≤ length bytes.now }
    requires looked { looked ≤ length bytes.now }
    ensures { OnFalse result ((length bytes.now < least)
        ⊎ HasNoEnd (drop (length bytes.now - count) bytes.now)) }
{
    if bytes.len() < least {
        return false;
    }
    if bytes.len() - looked > UNSEEN_LIMIT {
        return true;
    }
    bytes.ends_with(b"\n") || memchr(b'\n', &bytes[bytes.len() - count..]).is_some()
}
