//! The words, and how they open.
ghost use Rattle.std.specs.Prelude.{◌≡◌, ◌↔◌, ◌+◌, Some, IfOk, [], length};
ghost use Rattle.tko_model.specs.Ranges.{IsWithinRanges, first_fault};
ghost use Rattle.tko_model.specs.Groups.{groups};
ghost use Rattle.tko_table.specs.Opening.{AreSeats, HasPassesFrom};
ghost use Rattle.tko_table.specs.Passes.{new_passes};
ghost use Rattle.tko_table.specs.Rule.{IsOpened};
ghost use Rattle.tko_table.specs.Steps.{IsSameSeat, view_of};

use crate::rule::WordsRule;
use crate::values::count_words;
use crate::{Seat, View};
use atomic_table::Table;
use std::alloc::{AllocError, Global};
use tko_model::{Mark, OpenFault, Settings, SettingsFault};
use tko_word::{pack, pack_soft};

/// The enrolment word, the health word of each server and the soft word of each group, in this
/// order.
#[derive(Drop)]
pub struct Words {
    pub table: Table<(), View, Settings, WordsRule, Global>,
    pub settings: Settings,
    ghost key: { table.shared.key ≡ settings },
    ghost ranges: { IsWithinRanges settings },
    ghost count: { table.shared.table_id.words ≡ settings.servers + 1 + groups settings },
    ghost no_slot: { table.shared.table_id.slots ≡ 0 },
}

impl Words {
    /// The opened words, and for each thread a seat with its pass. The threads are enrolled in
    /// order, so that the seat at each place has the pass of that number.
    pub fn open(alloc: Global, settings: Settings) -> Result<(Words, Vec<Seat>), OpenFault>
        ensures ok { IfOk result (λ made. made.0.settings ≡ settings) }
        ensures count { IfOk result (λ made. length made.1.items ≡ settings.threads) }
        ensures seats { IfOk result
            (λ made. AreSeats settings made.0.table.shared.table_id made.1.items) }
        ensures settings { (fault : SettingsFault) →
            (result ≡ Err (OpenFault.Settings fault)) ↔ (first_fault settings ≡ Some fault) }
    {
        let (words, mut seat) = Words::whole(alloc, settings)?;
        words.enrol_all(&mut seat);
        let seats = words.split_all(alloc, seat)?;
        Ok((words, seats))
    }

    /// The opened words, and one seat with the passes of all threads, none of which is enrolled.
    fn whole(alloc: Global, settings: Settings) -> Result<(Words, Seat), OpenFault>
        ensures ok { IfOk result (λ made. (made.0.settings ≡ settings)
            × (made.1.table_id ≡ made.0.table.shared.table_id)
            × (made.1.me ≡ (new_passes settings, []))) }
        ensures settings { (fault : SettingsFault) →
            (result ≡ Err (OpenFault.Settings fault)) ↔ (first_fault settings ≡ Some fault) }
    {
        if let Err(fault) = settings.check() {
            return Err(OpenFault::Settings(fault));
        }
        let words = opened(alloc, &settings)?;
        let (table, seat) = Table::of_words(alloc, words.as_slice(), &settings)?;
        Ok((Words { table, settings }, seat))
    }

    /// Enrols each pass of the seat that has them all, in order.
    fn enrol_all(&self, seat: &mut Seat)
        requires seat { seat.old.table_id ≡ self.now.table.shared.table_id }
        requires new { HasPassesFrom self.now.settings 0 0 (view_of seat.old) }
        ensures seat { IsSameSeat seat.old seat.new }
        ensures all { HasPassesFrom
            self.now.settings self.now.settings.threads 0 (view_of seat.new) }
    {
        for _ in 0..self.settings.threads {
            self.enrol(seat);
        }
    }

    /// Splits the seat that has all passes into one for each.
    fn split_all(&self, alloc: Global, whole: Seat) -> Result<Vec<Seat>, AllocError>
        requires seat { whole.table_id ≡ self.now.table.shared.table_id }
        requires slots { whole.me.1 ≡ [] }
        requires all { HasPassesFrom
            self.now.settings self.now.settings.threads 0 (view_of whole) }
        ensures count { IfOk result (λ seats. length seats.items ≡ self.now.settings.threads) }
        ensures seats { IfOk result
            (λ seats. AreSeats self.now.settings self.now.table.shared.table_id seats.items) }
    {
        let mut seats = Vec::with_capacity(alloc, self.settings.threads as usize)?;
        let mut seat = whole;
        for _ in 1..self.settings.threads {
            let others = self.split(&mut seat);
            seats.push(seat)?;
            seat = others;
        }
        seats.push(seat)?;
        Ok(seats)
    }
}

/// The words as they open.
fn opened(alloc: Global, settings: &Settings) -> Result<Vec<u64>, AllocError>
    requires { IsWithinRanges settings.now }
    ensures opened { IfOk result (λ words. IsOpened settings.now words.items) }
    ensures count { IfOk result (λ words.
        length words.items ≡ settings.now.servers + 1 + groups settings.now) }
{
    let server = pack(Mark::Up(0), settings.opening_stamp);
    let mut words = vec![in alloc; server; settings.servers as usize + 1]?;
    words[0] = 0;
    words.resize(count_words(settings), pack_soft(0, 0))?;
    Ok(words)
}
