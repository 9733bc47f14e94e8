//! The tracker, and how it opens.
ghost use Rattle.std.specs.Prelude.{◌≡◌, ◌↔◌, ◌<◌, Some, IfOk, length};
ghost use Rattle.tko_model.specs.Ranges.{first_fault};
ghost use Rattle.tko_table.specs.Opening.{AreSeats, IsSeatAt};
ghost use Rattle.tko_tracker.specs.Seated.{ArePasses, IsFresh, seated, tracker_of};

use crate::IdlePass;
use std::alloc::{AllocError, Global};
use std::marker::Model;
use tko_model::{OpenFault, Settings, SettingsFault};
use tko_table::{Seat, Words};

/// The health of the servers, shared by all threads.
#[derive(Drop)]
pub struct Tracker {
    pub(crate) words: Words,
}

impl Model for Tracker {
    ghost use Rattle.tko_tracker.specs.Seated.{TrackerId};

    ghost Value = { TrackerId };

    ghost view = { λ t. record {
      settings = t.words.settings;
      table = t.words.table.shared.table_id;
    } };
}

/// The opened tracker, whose servers are all up at the opening stamp, and a pass for each thread;
/// the pass at each place has that number.
pub fn open(alloc: Global, settings: Settings) -> Result<(Tracker, Vec<IdlePass>), OpenFault>
    ensures ok { IfOk result (λ made. made.0.settings ≡ settings) }
    ensures count { IfOk result (λ made. length made.1.items ≡ settings.threads) }
    ensures passes { IfOk result (λ made. ArePasses made.0 made.1.items) }
    ensures settings { (fault : SettingsFault) →
        (result ≡ Err (OpenFault.Settings fault)) ↔ (first_fault settings ≡ Some fault) }
{
    let (words, seats) = Words::open(alloc, settings)?;
    let passes = idle_passes(alloc, &words, seats)?;
    Ok((Tracker { words }, passes))
}

/// The seats as passes, each with the number of its place.
fn idle_passes(alloc: Global, words: &Words, seats: Vec<Seat>) -> Result<Vec<IdlePass>, AllocError>
    requires count { length seats.items ≡ words.now.settings.threads }
    requires seats { AreSeats words.now.settings words.now.table.shared.table_id seats.items }
    ensures count { IfOk result (λ passes. length passes.items ≡ words.now.settings.threads) }
    ensures passes { IfOk result (λ passes. ArePasses (tracker_of words.now) passes.items) }
{
    let mut passes = Vec::with_capacity(alloc, seats.len())?;
    let mut number = 0;
    for seat in seats {
        passes.push(idle_pass(words, number, seat))?;
        number += 1;
    }
    Ok(passes)
}

/// The pass of the thread of this number, which has made no call.
fn idle_pass(words: &Words, number: u32, seat: Seat) -> IdlePass
    requires seat { IsSeatAt words.now.settings words.now.table.shared.table_id number seat }
    requires within { number < words.now.settings.threads }
    ensures same { result ≡ seated seat }
    ensures fresh { IsFresh result.pass }
{
    let _ = words;
    IdlePass { number, seat }
}
