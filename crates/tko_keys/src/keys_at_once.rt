//! The keys of one request for several, of which some are under way at once.
ghost use Rattle.std.specs.Prelude.{◌≡◌, ◌≢◌, ◌<◌, ◌↔◌, ◌-◌, ◌^◌, min, [], IfOk, IsTrue, length};
ghost use Rattle.tko_reply.specs.Answers.{request_keys};
ghost use Rattle.tko_keys.specs.KeysDriven.{with_loss};
ghost use Rattle.tko_keys.specs.KeysState.{IsComplete, IsNew, MayBegin, awaited_servers};
ghost use Rattle.tko_keys.specs.KeysState.{bytes_held_in};

use crate::come::Come;
use crate::due::Due;
use crate::plan::KeyPlan;
use crate::slot::Slot;
use crate::under_way::UnderWay;
use std::alloc::Global;
use std::cmp::min;
use std::collections::VecDeque;
use std::marker::Model;
use tko_bytes::NoMemory;
use tko_reply::{KeysLeft, split_keys};
use tko_text::Request;

mod arriving;
mod beginning;
mod finishing;
mod going_on;
mod places;
mod reading;
mod sending;

pub use sending::Sending;

/// The keys of one request for several. It sends nothing itself and borrows nothing between two
/// calls.
#[derive(Drop)]
pub struct KeysAtOnce {
    /// Whether their cas numbers are asked for too.
    unique: bool,
    /// The request for the first key, until that is begun, and the later keys that were not.
    first: Option<Request>,
    left: KeysLeft,
    /// The keys that were begun, in the order of the request.
    slots: Vec<Slot>,
    /// Where the targets of a key are found.
    found: Vec<usize>,
    /// The keys that are due at a server, first those that became due first.
    due: VecDeque<Due>,
    /// The requests that are under way, in the order in which they were sent.
    sends: VecDeque<UnderWay>,
    /// What came of one of these, and its keys that have not gone on with it.
    came: Come,
    /// How many keys are due, under way, or have not gone on with what came.
    out: usize,
    /// How many keys at the front of the request got lists of values.
    ahead: usize,
    plan: KeyPlan,
    /// A key got no list of values, or memory ran out for one.
    failed: bool,
    lost: bool,
    /// How many attempts at the last call's key the observer was told before that call.
    told: usize,
    /// How many bytes of responses are kept; it stays at 2^64 - 1.
    held: usize,
}

impl Model for KeysAtOnce {
    ghost use Rattle.std.specs.Prelude.{◌≡◌, ◌≤◌, ◌-◌, ◌^◌, length, min};
    ghost use Rattle.std.specs.VecDeque.{deque_capacity};
    ghost use Rattle.tko_keys.specs.FirstKey.{IsAlone, keys_with};
    ghost use Rattle.tko_keys.specs.KeysState.{HavePlaces, KeysState, bytes_held_in, key_places_in};
    ghost use Rattle.tko_keys.specs.KeysState.{values_ahead};

    ghost Value = { KeysState };

    ghost view = { λ k. record {
      unique = k.unique;
      left = keys_with k.first k.left;
      slots = k.slots.items;
      due = k.due.items;
      sends = k.sends.items;
      came = k.came;
      plan = k.plan;
      failed = k.failed;
      lost = k.lost;
    } };

    ghost invariant = { λ k. IsAlone k.unique k.first × (k.ahead ≡ values_ahead k.slots.items)
        × HavePlaces k.slots.items (key_places_in k.due.items k.sends.items k.came)
        × (k.held ≡ min (bytes_held_in k.slots.items) (2 ^ 64 - 1))
        × (k.out ≡ length (key_places_in k.due.items k.sends.items k.came))
        × (k.out ≤ deque_capacity k.due) × (k.out ≤ deque_capacity k.sends) };
}

impl KeysAtOnce {
    /// The keys of a request for several, and how they are to be sent.
    pub fn new(alloc: Global, mut request: Request, plan: KeyPlan) -> Result<KeysAtOnce, NoMemory>
        requires several { 1 < length (request_keys request) }
        requires some { 0 < plan.most }
        ensures { IfOk result (λ keys. IsNew request plan keys) }
    {
        let left = split_keys(&mut request, alloc)?;
        let unique = matches!(request, Request::Gets { .. });
        let count = left.len().saturating_add(1);
        let room = min(count, plan.most);
        Ok(KeysAtOnce {
            unique,
            first: Some(request),
            left,
            slots: Vec::with_capacity(alloc, count)?,
            found: Vec::new(alloc),
            due: VecDeque::from_vec(Vec::with_capacity(alloc, room)?),
            sends: VecDeque::from_vec(Vec::with_capacity(alloc, room)?),
            came: Come::none(alloc),
            out: 0,
            ahead: 0,
            plan,
            failed: false,
            lost: false,
            told: 0,
            held: 0,
        })
    }

    /// Whether one more key may be begun now.
    pub fn may_begin(&self) -> bool
        ensures { IsTrue result ↔ MayBegin self.now }
    {
        self.has_left()
            && !self.failed
            && !self.lost
            && self.out < self.plan.most
            && self.slots.len().saturating_sub(self.ahead) < self.plan.most
    }

    /// Whether there are keys that were not begun.
    fn has_left(&self) -> bool
        ensures { IsTrue result ↔ (self.now.left ≢ []) }
    {
        self.first.is_some() || !self.left.is_empty()
    }

    /// Whether requests of it are under way.
    pub fn is_asking(&self) -> bool
        ensures { IsTrue result ↔ (awaited_servers self.now ≢ []) }
    {
        !self.sends.is_empty()
    }

    /// Whether what came of a request is there for a key, which is to be taken on.
    pub fn may_go_on(&self) -> bool
        ensures { IsTrue result ↔ (self.now.came.places ≢ []) }
    {
        self.came.is_some()
    }

    /// Whether nothing is due, under way or to be taken on, and no key may be begun.
    pub fn is_complete(&self) -> bool
        ensures { IsTrue result ↔ IsComplete self.now }
    {
        self.out == 0 && !self.may_begin()
    }

    /// Whether memory ran out for a key, so that the request is to be dropped once it is complete.
    pub fn is_lost(&self) -> bool
        ensures { result ≡ self.now.lost }
    {
        self.lost
    }

    /// The trail of the key that ended last could not be recorded, since memory ran out.
    pub fn lose(&mut self)
        ensures { self.new ≡ with_loss self.old }
    {
        self.lost = true;
    }

    /// How many bytes of responses are kept.
    pub fn held(&self) -> usize
        ensures { result ≡ min (bytes_held_in self.now.slots) (2 ^ 64 - 1) }
    {
        self.held
    }

    /// How many attempts at the key of the last call there were before that call.
    pub fn told(&self) -> usize {
        self.told
    }
}
