//! Passes that meet, and the end of a tracker.
ghost use Rattle.tko_model.specs.Groups.{groups};
ghost use Rattle.tko_steps.specs.Core.{no_slots, slots_at};
ghost use Rattle.std.specs.Prelude.{◌≡◌, ◌<◌, true, false, All, length, MatchResult, ℕ};
ghost use Rattle.tko_model.specs.Tracker.{server_at};
ghost use Rattle.tko_steps.specs.Owners.{has_number};
ghost use Rattle.tko_table.specs.Steps.{view_of};
ghost use Rattle.tko_tracker.specs.Closing.{AreJoined, HoldsEachOnce, IsFinal, count_of_number, met};
ghost use Rattle.tko_tracker.specs.Seated.{IsOf, tracker_of};

use crate::{IdlePass, Pass, Tracker};
use std::marker::Model;
use tko_model::Mark;
use tko_table::{ClosedWords, Seat, Words};

impl Tracker {
    /// Joins the seats of two passes and splits them again, by one load each. Each has then seen
    /// the longer of the histories that they had seen.
    pub fn meet(&self, one: Pass, other: Pass) -> (Pass, Pass)
        requires one { IsOf self.now one }
        requires other { IsOf self.now other }
        ensures one { result.0 ≡ met one other one }
        ensures other { result.1 ≡ met one other other }
    {
        let mut seat = one.seat;
        self.words.join(&mut seat, other.seat);
        let rest = self.words.split(&mut seat);
        (
            Pass {
                number: one.number,
                seat,
                owned: one.owned,
            },
            Pass {
                number: other.number,
                seat: rest,
                owned: other.owned,
            },
        )
    }
}

/// The health of the servers at the end.
#[derive(Drop)]
pub struct Final {
    words: ClosedWords,
    ghost free: { (group : ℕ) → group < groups words.settings →
        slots_at words.shared.slots group ≡ no_slots },
}

impl Model for Final {
    ghost use Rattle.tko_table.specs.Closing.{ClosedContents};

    ghost Value = { ClosedContents };

    ghost view = { λ f. f.words };
}

impl Final {
    pub fn mark(&self, server: usize) -> Mark
        requires { server < self.now.settings.servers }
        ensures { result ≡ (server_at self.now.shared.servers server).mark }
    {
        self.words.server(server).mark
    }

    /// The server's stamp: the opening stamp plus the number of changes of its mark.
    pub fn stamp(&self, server: usize) -> u64
        requires { server < self.now.settings.servers }
        ensures { result ≡ (server_at self.now.shared.servers server).stamp }
    {
        self.words.server(server).stamp
    }

    /// How many groups of servers there are.
    pub fn groups(&self) -> usize
        ensures { result ≡ groups self.now.settings }
    {
        self.words.settings.groups()
    }

    /// How many slots of a group are firm, and how many are held: none.
    pub fn soft(&self, group: usize) -> (u32, u32)
        requires { group < groups self.now.settings }
        ensures { result ≡ (0, 0) }
    {
        let slots = self.words.slots(group);
        (slots.firm, slots.held)
    }
}

/// Closes a tracker with the passes of all its threads. If one is missing, it hands back what came.
pub fn close(tracker: Tracker, passes: Vec<IdlePass>) -> Result<Final, (Tracker, Vec<IdlePass>)>
    requires { All (IsOf tracker) passes.items }
    ensures { MatchResult result
        (λ last. HoldsEachOnce tracker.settings.threads passes.items
        × IsFinal tracker passes.items last)
        (λ back. (back ≡ (tracker, passes))
        × ¬ HoldsEachOnce tracker.settings.threads passes.items) }
{
    if !holds_each_once(&passes, tracker.words.settings.threads) {
        return Err((tracker, passes));
    }
    let seat = joined(&tracker.words, passes);
    Ok(Final {
        words: tracker.words.close(seat),
    })
}

/// Whether these are the passes of `threads` threads, each once.
fn holds_each_once(passes: &[IdlePass], threads: u32) -> bool
    ensures holds { result ≡ true → HoldsEachOnce threads passes.now }
    ensures fails { result ≡ false → ¬ HoldsEachOnce threads passes.now }
{
    if passes.len() != threads as usize {
        return false;
    }
    for number in 0..threads {
        if count_of(passes, number) != 1 {
            return false;
        }
    }
    true
}

/// How many of the passes have this number.
fn count_of(passes: &[IdlePass], number: u32) -> usize
    ensures { result ≡ count_of_number number passes.now }
{
    let mut count = 0;
    for pass in passes {
        if has_number(pass, number) {
            count += 1;
        }
    }
    count
}

fn has_number(pass: &IdlePass, number: u32) -> bool
    ensures { result ≡ has_number number pass.now.pass.state }
{
    pass.number() == number
}

/// The seats of the passes in one, by a load for each but the first.
fn joined(words: &Words, passes: Vec<IdlePass>) -> Seat
    requires tracker { All (IsOf (tracker_of words.now)) passes.items }
    requires some { 0 < length passes.items }
    ensures seat { result.table_id ≡ words.now.table.shared.table_id }
    ensures joined { AreJoined passes.items (view_of result) }
{
    let mut rest = passes.into_iter();
    let Some(first) = rest.next() else {
        unreachable!()
    };
    let mut seat = first.seat;
    for pass in rest {
        words.gather(&mut seat, pass.seat);
    }
    seat
}
