//! The keys that are due, the requests under way, and the keys that got lists of values.
ghost use Rattle.std.specs.Prelude.{◌≡◌, ◌<◌, ◌≤◌, ◌+◌, ◌-◌, ◌^◌, ◌==◌, ◌++◌, IsSome, length};
ghost use Rattle.std.specs.Prelude.{position, Some};
ghost use Rattle.std.specs.VecDeque.{deque_capacity, deque_len};
ghost use Rattle.tko_keys.specs.KeysDriven.{IsLastAt, due_by, failed_with};
ghost use Rattle.tko_keys.specs.KeysState.{first_send, values_ahead, without_first};
ghost use Rattle.tko_keys.specs.Steps.{said_by};

use crate::due::Due;
use crate::slot::Slot;
use crate::step::{KeyStep, SlotStep};
use crate::under_way::UnderWay;
use std::collections::VecDeque;

/// Notes that the key of a place is due at a server, if it is, and says how far it came.
pub(super) fn note_step(
    due: &mut VecDeque<Due>,
    out: &mut usize,
    place: usize,
    step: SlotStep,
) -> KeyStep
    requires room { deque_len due.old < deque_capacity due.old }
    requires few { out.old < 2 ^ 64 - 1 }
    ensures due { due.new.items ≡ due.old.items ++ due_by place (said_by step) }
    ensures out { out.new ≡ out.old + length (due_by place (said_by step)) }
    ensures room { deque_capacity due.new ≡ deque_capacity due.old }
    ensures says { result ≡ said_by step }
{
    match step {
        SlotStep::Due(clear) => {
            let server = clear.server();
            due.push_back_reserved(Due { place, clear });
            *out += 1;
            KeyStep::Due(server)
        }
        SlotStep::Tried(trail) => KeyStep::Tried(trail),
    }
}

/// The place of the first request under way at a server among those under way.
pub(super) fn index_of(sends: &VecDeque<UnderWay>, server: usize) -> Option<usize>
    ensures { result ≡ position (λ send. send.server == server) sends.now.items }
{
    sends.iter().position(|send| send.is_to(server))
}

/// Takes the first request under way at a server.
pub(super) fn take_first(sends: &mut VecDeque<UnderWay>, server: usize) -> UnderWay
    requires { IsSome (first_send server sends.old.items) }
    ensures first { first_send server sends.old.items ≡ Some result }
    ensures others { sends.new.items ≡ without_first server sends.old.items }
    ensures room { deque_capacity sends.new ≡ deque_capacity sends.old }
{
    let Some(index) = index_of(sends, server) else {
        unreachable!();
    };
    let Some(send) = sends.remove(index) else {
        unreachable!();
    };
    send
}

/// The place of the last request under way at a server among those under way.
pub(super) fn last_index(sends: &VecDeque<UnderWay>, server: usize) -> usize
    requires { IsSome (first_send server sends.now.items) }
    ensures { IsLastAt server sends.now.items result }
{
    for back in 0..sends.len() {
        let index = sends.len() - 1 - back;
        if sends[index].is_to(server) {
            return index;
        }
    }
    unreachable!()
}

/// Whether a key got no list of values, where this one came further.
pub(super) fn failed_with(slot: &Slot, failed: bool) -> bool
    ensures { result ≡ failed_with slot.now failed }
{
    if slot.has_failed() { true } else { failed }
}

/// How many keys from the first one on got lists of values, where at least so many did.
pub(super) fn values_ahead(slots: &[Slot], from: usize) -> usize
    requires { from ≤ values_ahead slots.now }
    ensures { result ≡ values_ahead slots.now }
{
    for place in from..slots.len() {
        if !slots[place].has_values() {
            return place;
        }
    }
    slots.len()
}
