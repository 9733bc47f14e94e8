//! Data: bytes of their own, or a part of the text in which they came.
ghost use Rattle.std.specs.Prelude.{◌≡◌, ◌+◌, ◌≤◌, ◌↔◌, ◌++◌, drop, length, take, IfSome, IsTrue};
ghost use Rattle.tko_text.specs.ResponseLines.{IsData};

use bytes::Bytes;
use std::marker::Model;

/// The most bytes that are stored under one key.
pub(crate) const DATA_LIMIT: usize = 1_048_576;

/// At most 1,048,576 bytes. Contracts see their list.
#[derive(Debug, Drop)]
pub struct Data {
    held: HeldData,
}

/// Where the bytes are.
#[derive(Debug, Drop)]
enum HeldData {
    Own(Vec<u8>),
    Part(Part),
}

/// A part of a text, which is kept whole and may have other owners.
#[derive(Debug, Drop)]
pub(crate) struct Part {
    text: Bytes,
    begin: usize,
    size: usize,
    ghost within: { begin + size ≤ length text },
}

impl Model for Data {
    ghost use Rattle.std.specs.Prelude.{List, ℕ};
    ghost use Rattle.tko_text.specs.Data.{held_bytes};
    ghost use Rattle.tko_text.specs.ResponseLines.{IsData};

    ghost Value = { List ℕ };

    ghost view = { λ d. held_bytes d.held };

    ghost invariant = { λ d. IsData (held_bytes d.held) };
}

impl Data {
    ghost use Rattle.tko_text.specs.Data.{part_bytes};

    pub fn new(bytes: Vec<u8>) -> Data
        requires { IsData bytes.items }
        ensures { result ≡ bytes.items }
    {
        let held = HeldData::Own(bytes);
        Data { held }
    }

    /// `size` bytes of a text, from `begin` on. They are not copied.
    pub(crate) fn part_of(text: Bytes, begin: usize, size: usize) -> Data
        requires within { begin + size ≤ length text }
        requires few { IsData (take size (drop begin text)) }
        ensures { result ≡ take size (drop begin text) }
    {
        let held = HeldData::Part(Part { text, begin, size });
        Data { held }
    }

    /// Whether there are few enough.
    pub fn fits(bytes: &[u8]) -> bool
        ensures { IsTrue result ↔ IsData bytes.now }
    {
        bytes.len() <= DATA_LIMIT
    }

    pub fn as_bytes(&self) -> &[u8]
        ensures value { result.now ≡ self.now }
        ensures data { IsData self.now }
    {
        match &self.held {
            HeldData::Own(bytes) => bytes.as_slice(),
            HeldData::Part(part) => &part.text.as_slice()[part.begin..part.begin + part.size],
        }
    }

    /// The part of a text that it is, if it is one.
    pub(crate) fn part(&self) -> Option<&Part>
        ensures { IfSome result (λ part. part_bytes part.now ≡ self.now) }
    {
        match &self.held {
            HeldData::Own(_) => None,
            HeldData::Part(part) => Some(part),
        }
    }
}

impl Part {
    ghost use Rattle.tko_text.specs.Data.{part_bytes};

    /// The bytes of the text before the part.
    pub(crate) fn before(&self) -> &[u8]
        ensures { result.now ≡ take self.now.begin self.now.text }
    {
        self.text.as_slice().split_at(self.begin).0
    }

    /// The piece of the text from a place before the part up to these bytes right after it, if they
    /// are there. The text is shared and not copied.
    pub(crate) fn text_from(&self, from: usize, back: &[u8]) -> Option<Bytes>
        requires { from ≤ self.now.begin }
        ensures { IfSome result (λ text. text
            ≡ drop from (take self.now.begin self.now.text) ++ part_bytes self.now ++ back.now) }
    {
        let (_, after) = self.text.as_slice().split_at(self.begin + self.size);
        if after.strip_prefix(back).is_none() {
            return None;
        }
        let end = self.begin + self.size + back.len();
        let text = self.text.slice(from..end).ok()?;
        Some(text)
    }
}
