//! What happens often, and is said at most once in ten seconds, with how often it did since.
ghost use Rattle.std.specs.Prelude.{◌≡◌, IfOk, length};

use crate::lacks::say_again;
use std::alloc::{AllocError, Global};
use std::sync::atomic::{AtomicU64, Ordering};

/// How often each of several things happened since that was last said, for all threads.
#[derive(Drop)]
pub(crate) struct SaidCounts {
    each: Vec<SaidCount>,
}

/// The same of one, and from which moment on it may be said, in milliseconds since 1970.
#[derive(Drop)]
struct SaidCount {
    count: AtomicU64,
    due: AtomicU64,
}

impl SaidCounts {
    /// None of so many things happened yet.
    pub(crate) fn new(alloc: Global, things: usize) -> Result<SaidCounts, AllocError>
        ensures { IfOk result (λ said. length said.each.items ≡ things) }
    {
        let mut each = Vec::with_capacity(alloc, things)?;
        for _ in 0..things {
            each.push(SaidCount {
                count: AtomicU64::new(0),
                due: AtomicU64::new(0),
            })?;
        }
        Ok(SaidCounts { each })
    }

    /// The thing at this place happened at this moment. Returns how often it did since that was
    /// last said, if it is to be said now. Of several threads that ask at once one is told so.
    pub(crate) fn count(&self, place: usize, now: u64) -> Option<u64> {
        let said = self.each.get(place)?;
        said.count.fetch_add(1, Ordering::SeqCst);
        let due = said.due.load(Ordering::SeqCst);
        let next = say_again(due, now)?;
        said.due
            .compare_exchange(due, next, Ordering::SeqCst, Ordering::SeqCst)
            .ok()?;
        Some(said.count.swap(0, Ordering::SeqCst))
    }
}
