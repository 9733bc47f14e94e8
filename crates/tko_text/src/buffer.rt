//! Bytes that have come and belong to no item yet.
ghost use Rattle.std.specs.Prelude.{◌≡◌, ◌<◌, ◌≤◌, ◌^◌, ◌++◌, [], length, take, drop, OnOk, OnErr};
ghost use Rattle.memchr.specs.Find.{IsFirstByte, is_byte};
ghost use Rattle.tko_bytes.specs.Lines.{line_feed};

use memchr::memchr;
use std::alloc::{AllocError, Global};
use std::marker::Model;
use tko_bytes::{KEPT_CAPACITY, clear};

/// A queue of bytes that is searched for LF, each byte once. Contracts see the bytes in the queue.
#[derive(Debug, Drop)]
pub(crate) struct Buffer {
    /// Bytes that were consumed since the last compaction, and the queue.
    bytes: Vec<u8>,
    /// Where the queue begins.
    start: usize,
    /// Up to here no LF is in it.
    searched: usize,
}

impl Model for Buffer {
    ghost use Rattle.std.specs.Prelude.{List, ℕ, drop};
    ghost use Rattle.tko_text.specs.Buffers.{IsSearched};

    ghost Value = { List ℕ };

    ghost view = { λ b. drop b.start b.bytes.items };

    ghost invariant = { λ b. IsSearched b.bytes.items b.start b.searched };
}

impl Buffer {
    pub(crate) fn new(alloc: Global) -> Buffer
        ensures { result ≡ [] }
    {
        Buffer {
            bytes: Vec::new(alloc),
            start: 0,
            searched: 0,
        }
    }

    pub(crate) fn len(&self) -> usize
        ensures len { result ≡ length self.now }
        ensures small { result < 2 ^ 63 }
    {
        self.bytes.len() - self.start
    }

    /// Puts a piece at the end.
    pub(crate) fn push(&mut self, piece: &[u8]) -> Result<(), AllocError>
        ensures ok { OnOk result (self.new ≡ self.old ++ piece.now) }
        ensures err { OnErr result (self.new ≡ self.old) }
    {
        self.bytes.extend_from_slice(piece)
    }

    /// Where the first LF is.
    pub(crate) fn line_end(&mut self) -> Option<usize>
        ensures found { IsFirstByte (is_byte line_feed) self.old result }
        ensures kept { self.new ≡ self.old }
        ensures small { length self.old < 2 ^ 63 }
    {
        match memchr(b'\n', &self.bytes[self.searched..]) {
            Some(at) => {
                self.searched += at;
                Some(self.searched - self.start)
            }
            None => {
                self.searched = self.bytes.len();
                None
            }
        }
    }

    /// The first `len` bytes.
    pub(crate) fn front(&self, len: usize) -> &[u8]
        requires { len ≤ length self.now }
        ensures { result.now ≡ take len self.now }
    {
        &self.bytes[self.start..self.start + len]
    }

    /// What follows the first `len` bytes.
    pub(crate) fn after(&self, len: usize) -> &[u8]
        requires { len ≤ length self.now }
        ensures { result.now ≡ drop len self.now }
    {
        &self.bytes[self.start + len..]
    }

    /// Removes the first `len` bytes.
    pub(crate) fn consume(&mut self, len: usize)
        requires { len ≤ length self.old }
        ensures { self.new ≡ drop len self.old }
    {
        self.start += len;
        self.searched = self.searched.max(self.start);
    }

    /// Gives up the room of the consumed bytes. Where no others are left, a capacity above
    /// `KEPT_CAPACITY` is released.
    pub(crate) fn compact(&mut self)
        ensures { self.new ≡ self.old }
    {
        if self.start == self.bytes.len() {
            clear(&mut self.bytes, KEPT_CAPACITY);
        } else if self.start > 0 {
            self.bytes.drain(..self.start);
        }
        self.searched -= self.start;
        self.start = 0;
    }
}
