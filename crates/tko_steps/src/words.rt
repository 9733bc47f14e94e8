//! The words that the threads share, packed.
ghost use Rattle.std.specs.Prelude.{◌≡◌, ◌+◌, ◌<◌, ◌^◌, IfOk, length, true};
ghost use Rattle.tko_model.specs.Ranges.{IsWithinRanges};
ghost use Rattle.tko_model.specs.Tracker.{server_at};
ghost use Rattle.tko_steps.specs.Table.{same_server, same_slots};
ghost use Rattle.tko_word.specs.Words.{IsMark, stamp_end};

use crate::table::is_same;
use crate::{Action, Observed, Place, Slots, Word};
use std::alloc::{AllocError, Global};
use std::marker::Model;
use tko_model::{Mark, ServerState, Settings};
use tko_word::{pack, pack_soft, unpack, unpack_soft};

/// The health word of each server, the soft word of each group and the enrolment word. Contracts
/// see what the words hold.
#[derive(Drop)]
pub struct CoreWords {
    health: Vec<u64>,
    soft: Vec<u64>,
    enrolled: u64,
}

impl Model for CoreWords {
    ghost use Rattle.std.specs.Prelude.{All, map};
    ghost use Rattle.tko_word.specs.Words.{IsWord, server_in};
    ghost use Rattle.tko_steps.specs.Core.{Shared, slots_in};

    ghost Value = { Shared };

    ghost view = { λ w. record {
      servers = map server_in w.health.items;
      slots = map slots_in w.soft.items;
      enrolled = w.enrolled;
    } };

    ghost invariant = { λ w. All IsWord w.health.items };
}

impl CoreWords {
    ghost use Rattle.tko_steps.specs.Core.{opened_words, seen_by, servers_after, shared_after, slots_at, with_slots, with_soft_words, word_at};
    ghost use Rattle.tko_steps.specs.StepNeeds.{CanAct, CanShiftIn, IsPlace};
    ghost use Rattle.tko_steps.specs.declared.table.Action.TheVariants.{Exchange, Give, Loosen, Reserve, Settle};

    /// Each server is up, at the opening stamp; no slot is taken and no thread enrolled.
    pub fn open(alloc: Global, settings: &Settings) -> Result<CoreWords, AllocError>
        requires { IsWithinRanges settings.now }
        ensures { IfOk result (λ words. words ≡ opened_words settings.now) }
    {
        let server = pack(Mark::Up(0), settings.opening_stamp);
        let health = vec![in alloc; server; settings.servers as usize]?;
        let soft = vec![in alloc; pack_soft(0, 0); settings.groups()]?;
        Ok(CoreWords {
            health,
            soft,
            enrolled: 0,
        })
    }

    /// A server's mark and stamp.
    pub fn server(&self, server: usize) -> ServerState
        requires { server < length self.now.servers }
        ensures { result ≡ server_at self.now.servers server }
    {
        let (mark, stamp) = unpack(self.health[server]);
        ServerState { mark, stamp }
    }

    /// The counts of the soft word of a group.
    pub fn slots(&self, group: usize) -> Slots
        requires { group < length self.now.slots }
        ensures { result ≡ slots_at self.now.slots group }
    {
        let (firm, held) = unpack_soft(self.soft[group]);
        Slots { firm, held }
    }

    /// How many threads are enrolled.
    pub fn enrolled(&self) -> u64
        ensures { result ≡ self.now.enrolled }
    {
        self.enrolled
    }

    /// How many servers there are.
    pub fn count(&self) -> usize
        ensures { result ≡ length self.now.servers }
    {
        self.health.len()
    }

    /// Counts one more enrolled thread, and answers how many there were.
    pub fn enrol(&mut self) -> u64
        requires { self.old.enrolled + 1 < 2 ^ 64 }
        ensures number { result ≡ self.old.enrolled }
        ensures state { self.new ≡ record self.old { enrolled = self.old.enrolled + 1 } }
    {
        let number = self.enrolled;
        self.enrolled = number + 1;
        number
    }

    /// One step of a call on this server, on that server's word or on the soft word of its group.
    pub fn act(&mut self, settings: &Settings, server: usize, action: Action) -> Observed
        requires { CanAct settings.now self.old server action }
        ensures seen { result ≡ seen_by settings.now self.old server action }
        ensures state { self.new ≡ shared_after settings.now self.old server action }
    {
        let group = settings.group_of(server);
        match action {
            Action::LookAtServer => Observed::Server(self.server(server)),
            Action::LookAtSlots => Observed::Slots(self.slots(group)),
            Action::Exchange { found, mark } => Observed::Done(self.exchange(server, found, mark)),
            Action::Reserve { slots } => Observed::Done(self.reserve(group, slots)),
            Action::Settle => self.settle(group),
            Action::Loosen => self.loosen(group),
            Action::Give => self.give(group),
        }
    }

    /// What the word at this place holds.
    pub fn at(&self, place: Place) -> Word
        requires { IsPlace self.now place }
        ensures { result ≡ word_at self.now place }
    {
        match place {
            Place::Server(server) => Word::Server(self.server(server)),
            Place::Soft(group) => Word::Soft(self.slots(group)),
            Place::Enrolment => Word::Enrolled(self.enrolled as u32),
        }
    }

    fn exchange(&mut self, server: usize, found: ServerState, mark: Mark) -> bool
        requires place { server < length self.old.servers }
        requires mark { IsMark mark }
        requires stamp { found.stamp + 1 < stamp_end }
        ensures won { result ≡ same_server (server_at self.old.servers server) found }
        ensures state { self.new ≡ record self.old {
          servers = servers_after self.old.servers server (Exchange found mark);
        } }
    {
        if !is_same(self.server(server), found) {
            return false;
        }
        self.health[server] = pack(mark, found.stamp + 1);
        true
    }

    /// Puts these counts into the soft word of a group.
    fn set(&mut self, group: usize, firm: u32, held: u32)
        requires { group < length self.old.slots }
        ensures { self.new ≡ with_slots self.old group (record { firm = firm; held = held }) }
    {
        self.soft[group] = pack_soft(firm, held);
    }

    fn reserve(&mut self, group: usize, slots: Slots) -> bool
        requires { CanShiftIn self.old.slots group (Reserve slots) }
        ensures won { result ≡ same_slots (slots_at self.old.slots group) slots }
        ensures state { self.new ≡ with_soft_words self.old group (Reserve slots) }
    {
        let now = self.slots(group);
        if now.firm != slots.firm || now.held != slots.held {
            return false;
        }
        self.set(group, now.firm, now.held + 1);
        true
    }

    fn settle(&mut self, group: usize) -> Observed
        requires { CanShiftIn self.old.slots group Settle }
        ensures seen { result ≡ Observed.Done true }
        ensures state { self.new ≡ with_soft_words self.old group Settle }
    {
        let now = self.slots(group);
        self.set(group, now.firm + 1, now.held - 1);
        Observed::Done(true)
    }

    fn loosen(&mut self, group: usize) -> Observed
        requires { CanShiftIn self.old.slots group Loosen }
        ensures seen { result ≡ Observed.Done true }
        ensures state { self.new ≡ with_soft_words self.old group Loosen }
    {
        let now = self.slots(group);
        self.set(group, now.firm - 1, now.held + 1);
        Observed::Done(true)
    }

    fn give(&mut self, group: usize) -> Observed
        requires { CanShiftIn self.old.slots group Give }
        ensures seen { result ≡ Observed.Done true }
        ensures state { self.new ≡ with_soft_words self.old group Give }
    {
        let now = self.slots(group);
        self.set(group, now.firm, now.held - 1);
        Observed::Done(true)
    }
}
