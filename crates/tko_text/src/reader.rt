//! Reads items from bytes that come in any pieces.
ghost use Rattle.std.specs.Prelude.{◌≡◌, ◌≢◌, ◌↔◌, length, IfOk, IfNone, IfSome, IsErrOf, OnOk, OnErr};
ghost use Rattle.tko_text.specs.declared.fault.TextFault.{TextFault};

use crate::buffer::Buffer;
use crate::state::{ReaderState, feed_skipped, feed_skipped_line};
use crate::step::{next_data, next_line};
use crate::{Item, NoMemory};
use std::alloc::{AllocError, Global};
use std::marker::Model;
use thiserror::Error;

/// Why a piece was not taken.
#[derive(Clone, Copy, Debug, PartialEq, Eq, Error)]
pub enum FeedFault {
    #[error("memory")]
    Memory,
    /// A line went on past its limit.
    #[error("failed")]
    Failed,
}

impl From<AllocError> for FeedFault {
    ghost use Rattle.std.specs.Prelude.{◌≡◌};
    ghost use Rattle.tko_text.specs.declared.reader.FeedFault.TheVariants as fault;

    ghost from_gives = { λ _ e. e ≡ fault.Memory };

    fn from(_: AllocError) -> FeedFault {
        FeedFault::Memory
    }
}

/// Reads requests and faults from the pieces of an input. Contracts see the state of reading.
#[derive(Debug, Drop)]
pub struct Reader {
    alloc: Global,
    buffer: Buffer,
    state: ReaderState,
}

impl Model for Reader {
    ghost use Rattle.tko_text.specs.Reading.{Reading};
    ghost use Rattle.tko_text.specs.States.{reading_of, IsState};

    ghost Value = { Reading };

    ghost view = { λ r. reading_of r.state r.buffer };

    ghost invariant = { λ r. IsState r.state r.buffer };
}

impl Reader {
    ghost use Rattle.tko_text.specs.Reading.{reading_start, fed, Emits, NeedsMore, Never};

    /// A reader that has read nothing.
    pub fn new(alloc: Global) -> Reader
        ensures { result ≡ reading_start }
    {
        Reader {
            alloc,
            buffer: Buffer::new(alloc),
            state: ReaderState::Line,
        }
    }

    /// Takes the next piece of the input.
    pub fn feed(&mut self, piece: &[u8]) -> Result<(), FeedFault>
        ensures ok { OnOk result (self.new ≡ fed self.old piece.now) }
        ensures failed { IsErrOf result FeedFault.Failed ↔ (self.old.after ≡ Never) }
        ensures err { OnErr result (self.new ≡ self.old) }
    {
        match &mut self.state {
            ReaderState::Line => self.buffer.push(piece)?,
            ReaderState::Data(pending) => pending.data.extend_from_slice(piece)?,
            ReaderState::Skip(count) => {
                let count = *count;
                self.state = feed_skipped(&mut self.buffer, count, piece)?;
            }
            ReaderState::SkipLine => self.state = feed_skipped_line(&mut self.buffer, piece)?,
            ReaderState::Never => return Err(FeedFault::Failed),
        }
        Ok(())
    }

    /// The next item of the bytes so far, or `None` where it needs more. After `LineTooLong` it is
    /// always `Ok(None)`, and `feed` fails with `Failed`.
    pub fn next(&mut self) -> Result<Option<Item>, NoMemory>
        ensures item { IfOk result (λ found. IfSome found (λ item. Emits self.old item self.new)) }
        ensures too_long { IfOk result (λ found. IfSome found (λ item.
            item ≡ Item.Fault TextFault.LineTooLong → self.new.after ≡ Never)) }
        ensures none { IfOk result (λ found. IfNone found
            (NeedsMore self.old × (self.new ≡ self.old))) }
        ensures err { OnErr result (self.new ≡ self.old) }
        ensures never { OnErr result (self.old.after ≢ Never) }
    {
        match &self.state {
            ReaderState::Line => next_line(self.alloc, &mut self.state, &mut self.buffer),
            ReaderState::Data(_) => next_data(&mut self.state, &mut self.buffer),
            ReaderState::Skip(_) => Ok(None),
            ReaderState::SkipLine => Ok(None),
            ReaderState::Never => Ok(None),
        }
    }

    /// How many bytes have come of an item that isn't whole.
    pub fn unfinished(&self) -> usize
        ensures { result ≡ length self.now.unread }
    {
        match &self.state {
            ReaderState::Data(pending) => pending.line.len() + pending.data.len(),
            _ => self.buffer.len(),
        }
    }
}
