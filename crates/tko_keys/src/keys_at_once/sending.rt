//! How keys that are due at a server go out.
ghost use Rattle.std.specs.Prelude.{◌≡◌, ◌≢◌, ◌<◌, ◌==◌, ◌↔◌, ℕ, Bool, [], All, IfNone, IfSome};
ghost use Rattle.std.specs.Prelude.{IsSome, IsTrue, List, length, position};
ghost use Rattle.std.specs.VecDeque.{deque_capacity, deque_len};
ghost use Rattle.tko_pools.specs.Configs.{Configuration};
ghost use Rattle.tko_keys.specs.KeyLines.{GoesWith, HasFilled, HasGathered, IsFirstDue};
ghost use Rattle.tko_keys.specs.KeyLines.{IsKeyLineFor, PutsAs};
ghost use Rattle.tko_keys.specs.KeysDriven.{AreUnderWay, HasSent};
ghost use Rattle.tko_keys.specs.KeysState.{MayBegin, first_due};
ghost use Rattle.tko_keys.specs.declared.plan.Grouping.TheVariants.{ByServer};

use super::KeysAtOnce;
use crate::due::Due;
use crate::plan::Grouping;
use crate::slot::Slot;
use crate::under_way::{KeyLine, UnderWay};
use std::alloc::Global;
use std::collections::VecDeque;
use tko_model::Clear;

/// A request that may be sent.
#[derive(Debug, Drop)]
pub struct Sending {
    /// The permission to send it once.
    pub clear: Clear,
    /// Memory ran out, so that keys stay due at its server that could have gone with it.
    pub short: bool,
}

/// The keys that go out with a first one, if there are any.
#[derive(Drop)]
struct Gathered {
    line: Option<KeyLine>,
    short: bool,
}

impl KeysAtOnce {
    /// The server that the next request is to go to now. Where keys go out together, that waits
    /// while one more may be begun.
    pub fn next_send(&self) -> Option<usize>
        ensures some { IfSome result (λ server. IsSome (first_due server self.now.due)) }
        ensures waits { IfSome result (λ server. self.now.plan.grouping ≡ ByServer
            → ¬ (MayBegin self.now)) }
        ensures none { IfNone result (self.now.due ≢ []
            → (self.now.plan.grouping ≡ ByServer) × MayBegin self.now) }
    {
        match self.plan.grouping {
            Grouping::ByKey => server_of(&self.due),
            Grouping::ByServer => {
                if self.may_begin() {
                    return None;
                }
                server_of(&self.due)
            }
        }
    }

    /// Makes one request of keys that are due at a server: of the first one, or where keys go out
    /// together of all that have room in a line.
    pub fn send(&mut self, alloc: Global, server: usize) -> Sending
        requires ready { (config : Configuration) × AreUnderWay config self.old }
        requires due { IsSome (first_due server self.old.due) }
        ensures to { result.clear ≡ server }
        ensures sent { HasSent server result.short self.old self.new }
        ensures ready { (config : Configuration) → AreUnderWay config self.old
            → AreUnderWay config self.new }
    {
        let Due { place, clear } = take_due(&mut self.due, server);
        let grouping = self.plan.grouping;
        let slots = self.slots.as_slice();
        let due = &mut self.due;
        let Gathered { line, short } = line_for(
            alloc,
            grouping,
            self.unique,
            slots,
            due,
            server,
            place,
        );
        self.sends.push_back_reserved(UnderWay {
            server,
            first: place,
            line,
        });
        Sending { clear, short }
    }
}

/// The server that the first of some keys is due at.
fn server_of(due: &VecDeque<Due>) -> Option<usize>
    ensures some { IfSome result (λ server. IsSome (first_due server due.now.items)) }
    ensures none { IfNone result (due.now.items ≡ []) }
{
    let first = due.front()?;
    Some(first.clear.server())
}

/// Takes the first key that is due at a server.
fn take_due(due: &mut VecDeque<Due>, server: usize) -> Due
    requires { IsSome (first_due server due.old.items) }
    ensures first { IsFirstDue server due.old.items result due.new.items }
    ensures room { deque_capacity due.new ≡ deque_capacity due.old }
{
    let Some(index) = due_index(due, server) else {
        unreachable!();
    };
    let Some(it) = due.remove(index) else {
        unreachable!();
    };
    it
}

/// Takes the keys that go out with the key of this place.
fn line_for(
    alloc: Global,
    grouping: Grouping,
    unique: bool,
    slots: &[Slot],
    due: &mut VecDeque<Due>,
    server: usize,
    place: usize,
) -> Gathered
    requires slot { place < length slots.now }
    requires slots { All (λ it. it.place < length slots.now) due.old.items }
    ensures goes { GoesWith grouping unique slots.now server place result.line result.short
        due.old.items due.new.items }
    ensures room { deque_capacity due.new ≡ deque_capacity due.old }
{
    match grouping {
        Grouping::ByKey => Gathered {
            line: None,
            short: false,
        },
        Grouping::ByServer => gather(alloc, unique, slots, due, server, place),
    }
}

/// Takes the keys that are due at a server and have room in a line with the key of this place.
fn gather(
    alloc: Global,
    unique: bool,
    slots: &[Slot],
    due: &mut VecDeque<Due>,
    server: usize,
    place: usize,
) -> Gathered
    requires slot { place < length slots.now }
    requires slots { All (λ it. it.place < length slots.now) due.old.items }
    ensures gathered { HasGathered unique slots.now server place result.line result.short
        due.old.items due.new.items }
    ensures room { deque_capacity due.new ≡ deque_capacity due.old }
{
    if !is_due(due, server) {
        return Gathered {
            line: None,
            short: false,
        };
    }
    let room = due.len() + 1;
    let slot = &slots[place];
    match KeyLine::of(alloc, unique, room, slot.key.request()) {
        Ok(mut line) => {
            let short = fill(alloc, slots, due, server, &mut line);
            Gathered {
                line: Some(line),
                short,
            }
        }
        Err(_) => Gathered {
            line: None,
            short: true,
        },
    }
}

/// Whether a key is due at a server.
fn is_due(due: &VecDeque<Due>, server: usize) -> bool
    ensures { IsTrue result ↔ IsSome (first_due server due.now.items) }
{
    due_index(due, server).is_some()
}

/// The place of the first key that is due at a server among those that are due.
fn due_index(due: &VecDeque<Due>, server: usize) -> Option<usize>
    ensures { result ≡ position (λ it. it.server == server) due.now.items }
{
    due.iter().position(|it| it.is_at(server))
}

/// Puts keys that are due at a server into a line, and returns whether memory ran out for one.
fn fill(
    alloc: Global,
    slots: &[Slot],
    due: &mut VecDeque<Due>,
    server: usize,
    line: &mut KeyLine,
) -> bool
    requires slots { All (λ it. it.place < length slots.now) due.old.items }
    ensures filled { (unique : Bool) (keys : List (List ℕ)) → IsKeyLineFor unique keys line.old
        → HasFilled unique slots.now server result keys due.old.items line.old
        due.new.items line.new }
    ensures room { deque_capacity due.new ≡ deque_capacity due.old }
{
    let mut short = false;
    for _ in 0..due.len() {
        let Some(it) = due.pop_front() else {
            unreachable!();
        };
        match put(alloc, slots, server, &it, line) {
            Some(true) => {}
            Some(false) => due.push_back_reserved(it),
            None => {
                short = true;
                due.push_back_reserved(it);
            }
        }
    }
    short
}

/// Puts a key into a line, if it is due at its server, and returns whether it had room, or `None`
/// where memory ran out.
fn put(alloc: Global, slots: &[Slot], server: usize, it: &Due, line: &mut KeyLine) -> Option<bool>
    requires { it.now.place < length slots.now }
    ensures { (unique : Bool) (keys : List (List ℕ)) → IsKeyLineFor unique keys line.old
        → PutsAs unique slots.now server result keys it.now line.old line.new }
{
    if !it.is_at(server) {
        return Some(false);
    }
    let slot = &slots[it.place];
    match line.offer(alloc, it.place, slot.key.request()) {
        Ok(took) => Some(took),
        Err(_) => None,
    }
}
