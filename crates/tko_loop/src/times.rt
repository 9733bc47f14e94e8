//! What is known of the time of each client.
ghost use Rattle.std.specs.Prelude.{◌≡◌, ◌≢◌, ◌<◌, ◌≤◌, Some, OnErr, OnOk, length, slice_get};

use std::alloc::Global;
use tko_bytes::NoMemory;
use tko_pace::ClientTime;

/// The times of clients by number. There is room for a client before it gets its number.
#[derive(Drop)]
pub(crate) struct Times {
    pub(crate) all: Vec<ClientTime>,
}

impl Times {
    /// No client has a number.
    pub(crate) fn new(alloc: Global) -> Times {
        Times {
            all: Vec::new(alloc),
        }
    }

    /// Makes room for a client of this number, where there is room for all below it.
    pub(crate) fn make_room(&mut self, number: usize) -> Result<(), NoMemory>
        ensures room { number ≤ length self.old.all.items
            → OnOk result (number < length self.new.all.items) }
        ensures others { (other : _) → other < length self.old.all.items
            → slice_get self.new.all.items other ≡ slice_get self.old.all.items other }
        ensures err { OnErr result (self.new.all.items ≡ self.old.all.items) }
    {
        if self.all.len() <= number {
            self.all.push(ClientTime::begin(0, 0))?;
        }
        Ok(())
    }

    /// A client has this number.
    pub(crate) fn begin(&mut self, number: usize, time: ClientTime)
        ensures begun { number < length self.old.all.items
            → slice_get self.new.all.items number ≡ Some time }
        ensures others { (other : _) → other ≢ number
            → slice_get self.new.all.items other ≡ slice_get self.old.all.items other }
        ensures count { length self.new.all.items ≡ length self.old.all.items }
    {
        if number < self.all.len() {
            self.all[number] = time;
        }
    }
}
