//! Which client's socket is registered under which token.
ghost use Rattle.std.specs.Prelude.{◌≡◌, ◌≢◌, ◌<◌, ◌⊎◌, Some, IfOk, length};
ghost use Rattle.tko_loop.specs.Seats.{number_at};

use std::alloc::Global;
use tko_bytes::NoMemory;

/// The seats of clients. A socket is registered at a seat before the worker gives its client a
/// number; so there is always one seat to spare.
#[derive(Drop)]
pub(crate) struct Seats {
    /// The number of the client at each seat.
    numbers: Vec<Option<usize>>,
    /// The seat that each number had last.
    seats: Vec<usize>,
    /// The seat of the next client.
    spare: usize,
}

impl Seats {
    /// Nobody has a seat.
    pub(crate) fn new(alloc: Global) -> Seats {
        Seats {
            numbers: Vec::new(alloc),
            seats: Vec::new(alloc),
            spare: 0,
        }
    }

    /// The number of the client at a seat, if one is there.
    pub(crate) fn number(&self, seat: usize) -> Option<usize>
        ensures { result ≡ number_at self.now.numbers.items seat }
    {
        *self.numbers.get(seat)?
    }

    /// The seat of the next client, which nobody has.
    pub(crate) fn next(&mut self) -> Result<usize, NoMemory>
        ensures spare { IfOk result (λ seat. seat ≡ self.new.spare) }
        ensures within { IfOk result (λ seat. seat < length self.new.numbers.items) }
        ensures others { (other : _) → other ≢ self.new.spare
            → number_at self.new.numbers.items other ≡ number_at self.old.numbers.items other }
    {
        if self.spare >= self.numbers.len() {
            self.spare = self.numbers.len();
            self.seats.push(self.spare)?;
            self.numbers.push(None)?;
        }
        Ok(self.spare)
    }

    /// The next client has this number. The seat that this number had before is to spare, since its
    /// client left.
    pub(crate) fn take(&mut self, number: usize)
        requires { self.old.spare < length self.old.numbers.items }
        ensures leads { number_at self.new.numbers.items self.old.spare ≡ Some number }
        ensures others { (other : _) → other ≢ self.old.spare
            → number_at self.new.numbers.items other ≡ number_at self.old.numbers.items other }
        ensures spare { (number_at self.old.numbers.items self.new.spare ≡ Some number)
            ⊎ (self.new.spare ≡ length self.new.numbers.items) }
    {
        let seat = self.spare;
        self.spare = self.seat_of(number);
        self.numbers[seat] = Some(number);
        if number < self.seats.len() {
            self.seats[number] = seat;
        }
    }

    /// The seat that this number had last, or one that is not there yet.
    fn seat_of(&self, number: usize) -> usize
        ensures { (number_at self.now.numbers.items result ≡ Some number)
            ⊎ (result ≡ length self.now.numbers.items) }
    {
        let none = self.numbers.len();
        let Some(seat) = self.seats.get(number) else {
            return none;
        };
        match self.number(*seat) {
            Some(its) if its == number => *seat,
            _ => none,
        }
    }
}
