//! The words once no thread uses them any more.
ghost use Rattle.std.specs.Prelude.{◌≡◌, ◌<◌, ◌+◌, ◌^◌, All, length};
ghost use Rattle.std.specs.Mem.Slots.{IsFull, slots_len};
ghost use Rattle.tko_model.specs.Groups.{groups};
ghost use Rattle.tko_model.specs.Ranges.{IsWithinRanges};
ghost use Rattle.tko_model.specs.Tracker.{server_at};
ghost use Rattle.tko_steps.specs.Core.{slots_at};
ghost use Rattle.tko_table.specs.Closing.{IsDone, IsLeftByThreads};
ghost use Rattle.tko_table.specs.Steps.{view_of};

use crate::values::{place_of, soft_place_in};
use crate::{Seat, Words};
use atomic_table::Closed;
use std::alloc::Global;
use std::marker::Model;
use tko_model::{ServerState, Settings};
use tko_steps::Slots;
use tko_word::{unpack, unpack_soft};

/// The words of a tracker that was closed. They change no more.
pub struct ClosedWords {
    pub table: Closed<(), Global>,
    pub settings: Settings,
    ghost ranges: { IsWithinRanges settings },
    ghost full: { IsFull table.words },
    ghost none: { slots_len table.slots ≡ 0 },
    ghost count: { slots_len table.words ≡ settings.servers + 1 + groups settings },
}

impl Model for ClosedWords {
    ghost use Rattle.std.specs.Prelude.{All};
    ghost use Rattle.std.specs.Mem.Slots.{slots_items};
    ghost use Rattle.tko_word.specs.Words.{IsWord};
    ghost use Rattle.tko_table.specs.Closing.{ClosedContents};
    ghost use Rattle.tko_table.specs.Rule.{health_in, shared_in};

    ghost Value = { ClosedContents };

    ghost view = { λ w. record {
      settings = w.settings;
      shared = shared_in w.settings (slots_items w.table.words);
    } };

    ghost invariant = { λ w. All IsWord (health_in w.settings (slots_items w.table.words)) };
}

impl ClosedWords {
    /// The server's mark and stamp.
    pub fn server(&self, server: usize) -> ServerState
        requires { server < self.now.settings.servers }
        ensures { result ≡ server_at self.now.shared.servers server }
    {
        let (mark, stamp) = unpack(self.table.word(place_of(server)));
        ServerState { mark, stamp }
    }

    /// The counts of the soft word of a group.
    pub fn slots(&self, group: usize) -> Slots
        requires { group < groups self.now.settings }
        ensures { result ≡ slots_at self.now.shared.slots group }
    {
        let place = soft_place_in(&self.settings, group);
        let (firm, held) = unpack_soft(self.table.word(place));
        Slots { firm, held }
    }
}

impl Drop for ClosedWords {
    fn drop(self) {
        let ClosedWords { table, settings: _ } = self;
        table.free();
    }
}

impl Words {
    /// Closes the words with the seat that has the passes of all threads. None of them makes a
    /// call, or owns a server.
    pub fn close(self, seat: Seat) -> ClosedWords
        requires seat { seat.table_id ≡ self.table.shared.table_id }
        requires all { length (view_of seat) ≡ self.settings.threads }
        requires done { All IsDone (view_of seat) }
        ensures settings { result.settings ≡ self.settings }
        ensures left { IsLeftByThreads self.settings (view_of seat) result.shared }
    {
        let Words { table, settings } = self;
        ClosedWords {
            table: table.close_with(seat),
            settings,
        }
    }
}
