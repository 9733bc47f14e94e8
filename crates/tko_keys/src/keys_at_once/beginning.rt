//! How a key is begun.
ghost use Rattle.std.specs.Prelude.{◌≡◌, ◌≢◌, ◌<◌, ◌+◌, ◌≤◌, ◌-◌, ◌^◌, ◌++◌, IfErr, IfOk, OnErr};
ghost use Rattle.std.specs.Prelude.{OnOk, [], length, vec_capacity, vec_len};
ghost use Rattle.std.specs.VecDeque.{deque_capacity, deque_len};
ghost use Rattle.tko_route.specs.Routing.{GoesOn};
ghost use Rattle.tko_keys.specs.FirstKey.{IsAlone, TakesNext, keys_with};
ghost use Rattle.tko_keys.specs.KeysDriven.{AreUnderWay, NextBegun, NextLost};
ghost use Rattle.tko_keys.specs.Queues.{HasMoreRoom};
ghost use Rattle.tko_keys.specs.Ready.{IsReadyToBegin};

use super::KeysAtOnce;
use super::places::{failed_with, note_step, values_ahead};
use crate::due::Due;
use crate::line::request_of;
use crate::slot::Slot;
use crate::step::KeyStep;
use crate::under_way::UnderWay;
use std::alloc::Global;
use std::collections::VecDeque;
use std::mem::replace;
use std::sync::Wait;
use tko_bytes::NoMemory;
use tko_pools::Config;
use tko_reply::{Dropped, KeysLeft};
use tko_route::Health;
use tko_text::{Keys, Request};

impl KeysAtOnce {
    /// Begins to route the next key. Where memory runs out, no other key is begun.
    pub fn begin<R: Wait, H: Health>(
        &mut self,
        rt: &R,
        alloc: Global,
        health: &mut H,
        config: &Config,
    ) -> Result<KeyStep, Dropped>
        requires servers { H.servers health.old ≡ length config.now.addresses }
        requires ready { IsReadyToBegin config.now self.old }
        ensures ok { IfOk result (λ said. GoesOn H.steps health.old
            (λ calls. NextBegun config.now self.old calls said self.new) health.new) }
        ensures lost { IfErr result (λ attempts. GoesOn H.steps health.old
            (λ calls. NextLost config.now self.old calls attempts self.new) health.new) }
        ensures ready { AreUnderWay config.now self.new }
        ensures servers { H.servers health.new ≡ H.servers health.old }
    {
        self.told = 0;
        let room = self.out + 1;
        let Ok(()) = make_room(&mut self.slots, &mut self.due, &mut self.sends, room) else {
            self.lost = true;
            return Err(Dropped::from(NoMemory));
        };
        let unique = self.unique;
        let request = next_request(alloc, unique, &mut self.first, &mut self.left);
        let mut slot = Slot::of(alloc, request);
        let came = slot.begin(rt, alloc, health, config, &mut self.found);
        self.held = self.held.saturating_add(slot.outbox.len());
        match came {
            Ok(step) => {
                let place = self.slots.len();
                self.failed = failed_with(&slot, self.failed);
                self.slots.push_reserved(slot);
                self.ahead = values_ahead(&self.slots, self.ahead);
                Ok(note_step(&mut self.due, &mut self.out, place, step))
            }
            Err(dropped) => {
                self.slots.push_reserved(slot);
                self.ahead = values_ahead(&self.slots, self.ahead);
                self.lost = true;
                Err(dropped)
            }
        }
    }
}

/// Makes room for one more key, and so that each of so many may be due or in a request of its own.
fn make_room(
    slots: &mut Vec<Slot>,
    due: &mut VecDeque<Due>,
    sends: &mut VecDeque<UnderWay>,
    out: usize,
) -> Result<(), NoMemory>
    ensures slots { slots.new.items ≡ slots.old.items }
    ensures due { HasMoreRoom (due.old.items, deque_capacity due.old)
        (due.new.items, deque_capacity due.new) }
    ensures sends { HasMoreRoom (sends.old.items, deque_capacity sends.old)
        (sends.new.items, deque_capacity sends.new) }
    ensures room { OnOk result (vec_len slots.new < vec_capacity slots.new) }
    ensures due_room { OnOk result (out ≤ deque_capacity due.new) }
    ensures sends_room { OnOk result (out ≤ deque_capacity sends.new) }
{
    slots.reserve(1)?;
    due.reserve(out.saturating_sub(due.len()))?;
    sends.reserve(out.saturating_sub(sends.len()))?;
    Ok(())
}

/// Takes the next key, as a request for it alone.
fn next_request(
    alloc: Global,
    unique: bool,
    first: &mut Option<Request>,
    left: &mut KeysLeft,
) -> Request
    requires alone { IsAlone unique first.old }
    requires some { keys_with first.old left.old ≢ [] }
    ensures takes { TakesNext unique (keys_with first.old left.old)
        result (keys_with first.new left.new) }
    ensures alone { IsAlone unique first.new }
{
    if let Some(request) = replace(first, None) {
        return request;
    }
    let Some(key) = left.next() else {
        unreachable!();
    };
    request_of(unique, Keys::one(alloc, key))
}
