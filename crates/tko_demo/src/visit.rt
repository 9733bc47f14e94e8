//! One client of a server: the requests in its bytes, and what they are answered.
ghost use Rattle.std.specs.Prelude.{◌≡◌, ◌⊎◌, false, true, IfOk, OnOk};
ghost use Rattle.tko_demo.specs.Visits.{OneOrNone, Serves, is_last, visit_state};
ghost use Rattle.tko_text.specs.Reading.{NeedsMore, fed};

use crate::store::Store;
use std::alloc::Global;
use tko_bytes::NoMemory;
use tko_text::{Item, Reader, Request, TextFault};

/// A client from its first byte to its `quit`.
#[derive(Drop)]
pub(crate) struct Visit {
    reader: Reader,
    /// Whether it has asked to be left.
    is_over: bool,
}

impl Visit {
    pub(crate) fn new(alloc: Global) -> Visit {
        Visit {
            reader: Reader::new(alloc),
            is_over: false,
        }
    }

    pub(crate) fn is_over(&self) -> bool
        ensures { result ≡ self.now.is_over }
    {
        self.is_over
    }

    /// Answers each request that the next bytes complete, up to a `quit`: what they are answered
    /// goes to the end of a buffer.
    pub(crate) fn take(
        &mut self,
        alloc: Global,
        store: &mut Store,
        piece: &[u8],
        out: &mut Vec<u8>,
    ) -> Result<(), NoMemory>
        ensures serves { OnOk result (Serves
            (visit_state (fed self.old.reader piece.now) self.old.is_over store.old out.old.items)
            (visit_state self.new.reader self.new.is_over store.new out.new.items)) }
        ensures all { OnOk result ((self.new.is_over ≡ true) ⊎ NeedsMore self.new.reader) }
    {
        let Ok(()) = self.reader.feed(piece) else {
            return Err(NoMemory);
        };
        for _ in 0..u64::MAX {
            if self.is_over {
                return Ok(());
            }
            if !self.answer_next(alloc, store, out)? {
                return Ok(());
            }
        }
        Err(NoMemory)
    }

    /// Answers the next request of the bytes so far, and returns whether there was one.
    fn answer_next(
        &mut self,
        alloc: Global,
        store: &mut Store,
        out: &mut Vec<u8>,
    ) -> Result<bool, NoMemory>
        requires { self.old.is_over ≡ false }
        ensures { IfOk result (λ is_one. OneOrNone is_one
            (visit_state self.old.reader self.old.is_over store.old out.old.items)
            (visit_state self.new.reader self.new.is_over store.new out.new.items)) }
    {
        let Some(item) = self.reader.next()? else {
            return Ok(false);
        };
        self.is_over = is_last(&item);
        store.answer(alloc, item, out)?;
        Ok(true)
    }
}

/// Whether nothing more is read after this item.
fn is_last(item: &Item) -> bool
    ensures { result ≡ is_last item.now }
{
    matches!(
        item,
        Item::Request(Request::Quit) | Item::Fault(TextFault::LineTooLong)
    )
}
