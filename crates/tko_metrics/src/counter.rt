//! A number that one thread adds to and others read.

use std::sync::atomic::{AtomicU64, Ordering};

/// A number that any thread may read.
#[derive(Drop)]
pub(crate) struct Counter {
    number: AtomicU64,
}

impl Counter {
    pub(crate) fn new() -> Counter {
        Counter {
            number: AtomicU64::new(0),
        }
    }

    pub(crate) fn add(&self, more: u64) {
        if 0 < more {
            self.number.fetch_add(more, Ordering::SeqCst);
        }
    }

    pub(crate) fn take(&self, less: u64) {
        self.number.fetch_sub(less, Ordering::SeqCst);
    }

    pub(crate) fn set(&self, number: u64) {
        self.number.store(number, Ordering::SeqCst);
    }

    pub(crate) fn get(&self) -> u64 {
        self.number.load(Ordering::SeqCst)
    }
}
