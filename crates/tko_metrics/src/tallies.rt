//! Numbers of several kinds, by the place of the kind.
ghost use Rattle.std.specs.Prelude.{◌≡◌, IfOk, length};

use crate::counter::Counter;
use std::alloc::{AllocError, Global};

/// A number of each of so many kinds.
#[derive(Drop)]
pub(crate) struct Tallies {
    numbers: Vec<Counter>,
}

impl Tallies {
    pub(crate) fn new(alloc: Global, kinds: usize) -> Result<Tallies, AllocError>
        ensures { IfOk result (λ tallies. length tallies.numbers.items ≡ kinds) }
    {
        let mut numbers = Vec::with_capacity(alloc, kinds)?;
        for _ in 0..kinds {
            numbers.push(Counter::new())?;
        }
        Ok(Tallies { numbers })
    }

    /// Adds one to the number of the kind at this place.
    pub(crate) fn count(&self, place: usize) {
        if let Some(number) = self.numbers.get(place) {
            number.add(1);
        }
    }

    /// The number of the kind at this place.
    pub(crate) fn get(&self, place: usize) -> u64 {
        match self.numbers.get(place) {
            Some(number) => number.get(),
            None => 0,
        }
    }
}
