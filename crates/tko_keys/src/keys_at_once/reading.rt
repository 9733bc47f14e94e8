//! What is due and under way: requests, and the attempts before them.
ghost use Rattle.std.specs.Prelude.{◌≡◌, ◌≢◌, IsSome, Some, [], drop};
ghost use Rattle.std.specs.List.{list_all};
ghost use Rattle.tko_keys.specs.KeysState.{HavePlaces, asked_first, asked_last, attempts_last};
ghost use Rattle.tko_keys.specs.KeysState.{first_send, has_next_at, has_next_first, keys_first};
ghost use Rattle.tko_keys.specs.KeysState.{request_of};

use super::KeysAtOnce;
use super::places::index_of;
use crate::slot::Slot;
use crate::under_way::UnderWay;
use tko_route::Attempt;
use tko_text::Request;

impl KeysAtOnce {
    /// The request that was made last, which may be sent.
    pub fn request(&self) -> &Request
        requires { self.now.sends ≢ [] }
        ensures { asked_last self.now ≡ Some result.now }
    {
        request_of(&self.slots, &self.sends[self.sends.len() - 1])
    }

    /// The first request under way at a server.
    pub fn request_to(&self, server: usize) -> &Request
        requires { IsSome (first_send server self.now.sends) }
        ensures { asked_first server self.now ≡ Some result.now }
    {
        let Some(index) = index_of(&self.sends, server) else {
            unreachable!();
        };
        request_of(&self.slots, &self.sends[index])
    }

    /// How many keys the first request under way at a server is for.
    pub fn keys_to(&self, server: usize) -> usize
        requires { IsSome (first_send server self.now.sends) }
        ensures { keys_first server self.now ≡ Some result }
    {
        let Some(index) = index_of(&self.sends, server) else {
            unreachable!();
        };
        self.sends[index].keys()
    }

    /// Whether a request is under way to a server, and each key of the first one has another target
    /// after it. A request for several keys goes on as a whole, so one key at its last target keeps
    /// it there.
    pub fn has_next_to(&self, server: usize) -> bool
        ensures { result ≡ has_next_first server self.now }
    {
        match index_of(&self.sends, server) {
            Some(index) => have_next(&self.slots, &self.sends[index]),
            None => false,
        }
    }

    /// The attempts at the key that was due last, before the server where it is due.
    pub fn attempts(&self) -> &[Attempt]
        requires { self.now.due ≢ [] }
        ensures { attempts_last self.now ≡ Some result.now }
    {
        let place = self.due[self.due.len() - 1].place;
        match &self.slots[place].awaited {
            Some(awaited) => awaited.attempts(),
            None => &[],
        }
    }
}

/// A request under way: its line, or that of its key.
fn request_of<'a>(slots: &'a [Slot], send: &'a UnderWay) -> &'a Request
    requires { HavePlaces slots.now send.now.places }
    ensures { request_of slots.now send.now ≡ Some result.now }
{
    match &send.line {
        Some(line) => &line.request,
        None => {
            let slot = &slots[send.first];
            slot.key.request()
        }
    }
}

/// Whether each key of a request under way has another target.
fn have_next(slots: &[Slot], send: &UnderWay) -> bool
    ensures { result ≡ list_all (has_next_at slots.now) send.now.places }
{
    has_next_at(slots, send.first) && others_have_next(slots, send)
}

/// The same, of its keys beside the first one.
fn others_have_next(slots: &[Slot], send: &UnderWay) -> bool
    ensures { result ≡ list_all (has_next_at slots.now) (drop 1 send.now.places) }
{
    match &send.line {
        Some(line) => line.others.iter().all(|place| has_next_at(slots, *place)),
        None => true,
    }
}

/// Whether the key of this place was begun, and has another target.
fn has_next_at(slots: &[Slot], place: usize) -> bool
    ensures { result ≡ has_next_at slots.now place }
{
    match slots.get(place) {
        Some(slot) => slot.has_next_target(),
        None => false,
    }
}
