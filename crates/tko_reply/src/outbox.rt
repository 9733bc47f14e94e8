//! Replies that wait to be written.
ghost use Rattle.std.specs.Prelude.{◌≡◌, ◌≤◌, ◌↔◌, ◌++◌, ℕ, [], IfOk, IsTrue, List, OnOk, OnErr};
ghost use Rattle.std.specs.Prelude.{drop, length, take, unwrap_or};
ghost use Rattle.tko_text.specs.Responses.{response_text, value_text};
ghost use Rattle.tko_reply.specs.Answering.{Extends};
ghost use Rattle.tko_reply.specs.Replies.{reply_bound};

use bytes::Bytes;
use std::alloc::Global;
use std::marker::Model;
use tko_bytes::{NoMemory, append, clear};
use tko_text::{Response, Value};

mod replies;

/// This number of bytes of replies is enough to be written. A single reply may be longer.
const REPLY_BOUND: usize = 65_536;

/// A shorter text is copied behind the others, since a piece of its own costs one more write.
const LONG_TEXT: usize = 16_384;

/// The greatest capacity that an empty outbox keeps.
const KEPT_OUTBOX_CAPACITY: usize = 4_096;

/// The most bytes that memory can hold.
const MAX_BYTES_IN_MEMORY: usize = isize::MAX as usize;

/// Replies in order. Contracts see their bytes. The written form of a long response is shared with
/// the response and not copied, as long as no other one follows it.
#[derive(Drop)]
pub struct Outbox {
    /// What comes before the long text.
    before: Vec<u8>,
    long: Option<Bytes>,
    /// What follows it.
    bytes: Vec<u8>,
}

impl Model for Outbox {
    ghost use Rattle.std.specs.Prelude.{◌+◌, ◌^◌, ◌<◌, ◌++◌, [], List, ℕ, length, unwrap_or};

    ghost Value = { List ℕ };

    ghost view = { λ o. o.before.items ++ unwrap_or o.long [] ++ o.bytes.items };

    ghost invariant = { λ o. length o.before.items + length (unwrap_or o.long []) < 2 ^ 63 };
}

impl Outbox {
    pub fn new(alloc: Global) -> Outbox
        ensures { result ≡ [] }
    {
        Outbox {
            before: Vec::new(alloc),
            long: None,
            bytes: Vec::new(alloc),
        }
    }

    /// The first of the replies in one piece; it is empty only if no reply waits.
    pub fn front(&self) -> &[u8]
        ensures front { Extends result.now self.now }
        ensures some { result.now ≡ [] → self.now ≡ [] }
    {
        if !self.before.is_empty() {
            return self.before.as_slice();
        }
        let long = text_in(&self.long);
        if !long.is_empty() {
            return long;
        }
        self.bytes.as_slice()
    }

    pub fn len(&self) -> usize
        ensures { result ≡ length self.now }
    {
        self.before.len() + text_in(&self.long).len() + self.bytes.len()
    }

    /// Whether the replies reached the bound.
    pub fn is_full(&self) -> bool
        ensures { IsTrue result ↔ (reply_bound ≤ length self.now) }
    {
        self.len() >= REPLY_BOUND
    }

    pub fn append(&mut self, text: &[u8]) -> Result<(), NoMemory>
        ensures ok { OnOk result (self.new ≡ self.old ++ text.now) }
        ensures err { OnErr result (self.new ≡ self.old) }
    {
        if text.is_empty() {
            return Ok(());
        }
        Ok(self.bytes.extend_from_slice(text)?)
    }

    /// Appends the written form of a response.
    fn append_response(&mut self, response: &Response) -> Result<(), NoMemory>
        ensures ok { OnOk result (self.new ≡ self.old ++ response_text response.now) }
        ensures err { OnErr result (self.new ≡ self.old) }
    {
        match response.shared_text() {
            Some(text) => self.append_long(text),
            None => response.append_to(&mut self.bytes),
        }
    }

    /// Appends the written form of a value.
    fn append_value(&mut self, value: &Value) -> Result<(), NoMemory>
        ensures ok { OnOk result (self.new ≡ self.old ++ value_text value.now) }
        ensures err { OnErr result (self.new ≡ self.old) }
    {
        match value.shared_text() {
            Some(text) => self.append_long(text),
            None => value.append_to(&mut self.bytes),
        }
    }

    /// Appends a text that is not copied. An earlier one is.
    fn append_long(&mut self, text: Bytes) -> Result<(), NoMemory>
        ensures ok { OnOk result (self.new ≡ self.old ++ text) }
        ensures err { OnErr result (self.new ≡ self.old) }
    {
        if self.len() > MAX_BYTES_IN_MEMORY - text.len() {
            return Err(NoMemory);
        }
        append_both(&mut self.before, text_in(&self.long), &self.bytes)?;
        self.bytes.clear();
        self.long = Some(text);
        Ok(())
    }

    /// Appends a text that is not copied where it is long.
    fn append_shared(&mut self, text: Bytes) -> Result<(), NoMemory>
        ensures ok { OnOk result (self.new ≡ self.old ++ text) }
        ensures err { OnErr result (self.new ≡ self.old) }
    {
        if text.len() < LONG_TEXT {
            return self.append(&text);
        }
        self.append_long(text)
    }

    /// Appends all of another outbox. Its long text is not copied, unless another one follows or it
    /// is not that long.
    pub fn append_all(&mut self, other: Outbox) -> Result<(), NoMemory>
        ensures ok { OnOk result (self.new ≡ self.old ++ other) }
        ensures err { OnErr result (Extends self.old self.new) }
    {
        self.append_from(&other)
    }

    /// Appends what another outbox has, which keeps it: they share its long text where that is not
    /// copied.
    pub fn append_from(&mut self, other: &Outbox) -> Result<(), NoMemory>
        ensures ok { OnOk result (self.new ≡ self.old ++ other.now) }
        ensures err { OnErr result (Extends self.old self.new) }
    {
        self.append(&other.before)?;
        if let Some(text) = &other.long {
            self.append_shared(text.clone()?)?;
        }
        self.append(&other.bytes)
    }

    /// Drops all but the first `len` bytes.
    pub fn truncate(&mut self, len: usize)
        ensures { self.new ≡ take len self.old }
    {
        let of_long = len.saturating_sub(self.before.len());
        let of_bytes = of_long.saturating_sub(text_in(&self.long).len());
        self.before.truncate(len);
        cut_long(&mut self.long, of_long);
        self.bytes.truncate(of_bytes);
    }

    /// Drops the first `count` bytes, which were written.
    pub fn drop_front(&mut self, count: usize)
        ensures { self.new ≡ drop count self.old }
    {
        let of_long = count.saturating_sub(self.before.len());
        let of_bytes = of_long.saturating_sub(text_in(&self.long).len());
        drop_bytes(&mut self.before, count, 0);
        drop_long(&mut self.long, of_long);
        drop_bytes(&mut self.bytes, of_bytes, KEPT_OUTBOX_CAPACITY);
    }
}

/// The bytes of a long text, if there is one.
fn text_in(long: &Option<Bytes>) -> &[u8]
    ensures { result.now ≡ unwrap_or long.now [] }
{
    match long {
        Some(text) => text.as_slice(),
        None => &[],
    }
}

/// Appends two texts, of which there may be none.
fn append_both(out: &mut Vec<u8>, first: &[u8], second: &[u8]) -> Result<(), NoMemory>
    ensures ok { OnOk result (out.new.items ≡ out.old.items ++ first.now ++ second.now) }
    ensures err { OnErr result (out.new.items ≡ out.old.items) }
{
    if first.is_empty() && second.is_empty() {
        return Ok(());
    }
    append(out, &[first, second])
}

/// Drops the first `count` bytes, and where none is left the room above what is kept.
fn drop_bytes(bytes: &mut Vec<u8>, count: usize, kept: usize)
    ensures { bytes.new.items ≡ drop count bytes.old.items }
{
    if bytes.len() <= count {
        clear(bytes, kept);
    } else {
        bytes.drain(..count);
    }
}

/// Drops all but the first `len` bytes of a long text.
fn cut_long(long: &mut Option<Bytes>, len: usize)
    ensures { unwrap_or long.new [] ≡ take len (unwrap_or long.old []) }
{
    if let Some(text) = long {
        text.truncate(len);
    }
}

/// Drops the first `count` bytes of a long text, and where none is left the text.
fn drop_long(long: &mut Option<Bytes>, count: usize)
    ensures { unwrap_or long.new [] ≡ drop count (unwrap_or long.old []) }
{
    match long {
        Some(text) if count < text.len() => text.advance(count),
        _ => *long = None,
    }
}
