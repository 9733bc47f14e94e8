//! What is asked of all that wait on one connection.
ghost use Rattle.std.specs.Prelude.{◌≡◌, ◌≤◌, ◌<◌, ◌++◌, ◌∷◌, ℕ, List, IfSome, IfNone, IsTrue, false, length};
ghost use Rattle.tko_pipe.specs.Giving.{AskedOnce, IsBehindGone, IsDueAlone, IsSecondDue};
ghost use Rattle.tko_pipe.specs.Pipes.{is_asked, is_first_written};
ghost use Rattle.tko_pipe.specs.Waiters.{gone, is_first_gone, lengths_of};

use crate::byte_queue::ByteQueue;
use crate::{Asker, Waiter};
use std::collections::VecDeque;

/// Whether the text of the first request was written wholly, where the texts of all requests have
/// the one length and what is not written of them has the other.
pub(crate) fn is_first_written(waiters: &VecDeque<Waiter>, queued: usize, unwritten: usize) -> bool
    requires { queued ≡ lengths_of waiters.now.items }
    ensures { (unsent : List ℕ) → unwritten ≡ length unsent
        → result ≡ is_first_written waiters.now.items unsent }
{
    match waiters.front() {
        Some(first) => unwritten <= queued - first.len,
        None => false,
    }
}

/// Whether somebody can have asked for the bytes that are unread.
pub(crate) fn is_asked(
    unread: &ByteQueue,
    waiters: &VecDeque<Waiter>,
    queued: usize,
    unwritten: &ByteQueue,
) -> bool
    requires { queued ≡ lengths_of waiters.now.items }
    ensures { result ≡ is_asked unread.now waiters.now.items unwritten.now }
{
    unread.is_empty() || is_first_written(waiters, queued, unwritten.len())
}

/// Whether the first one gave up.
pub(crate) fn is_first_gone(waiters: &VecDeque<Waiter>) -> bool
    ensures { result ≡ is_first_gone waiters.now.items }
{
    match waiters.front() {
        Some(first) => first.by.has_gone(),
        None => false,
    }
}

/// Whether the second one, if there is one, is due at this moment.
pub(crate) fn is_next_due(waiters: &VecDeque<Waiter>, now: u64) -> bool
    ensures yes { IsTrue result → IsSecondDue waiters.now.items now }
    ensures no { result ≡ false → IsSecondDue waiters.now.items now → ⊥ }
{
    match waiters.get(1) {
        Some(next) => next.due <= now,
        None => true,
    }
}

/// The first place behind the front from which on none gave up.
pub(crate) fn behind_gone(waiters: &VecDeque<Waiter>) -> usize
    ensures { IsBehindGone waiters.now.items result }
{
    for place in (1..waiters.len()).rev() {
        if waiters[place].by.has_gone() {
            return place + 1;
        }
    }
    1
}

/// The first place from this one on that can give up at this moment.
pub(crate) fn overdue_from(waiters: &VecDeque<Waiter>, from: usize, now: u64) -> Option<usize>
    ensures some { IfSome result (λ place. (from ≤ place)
        × IsDueAlone waiters.now.items now place
        × ((earlier : ℕ) → from ≤ earlier → earlier < place
        → IsDueAlone waiters.now.items now earlier → ⊥)) }
    ensures none { IfNone result ((place : ℕ) → from ≤ place
        → IsDueAlone waiters.now.items now place → ⊥) }
{
    for place in from..waiters.len() {
        if is_due_alone(waiters, place, now) {
            return Some(place);
        }
    }
    None
}

/// Whether the one at this place is a client that asked for nothing else before, and its response
/// is due at this moment.
fn is_due_alone(waiters: &VecDeque<Waiter>, place: usize, now: u64) -> bool
    requires { place < length waiters.now.items }
    ensures yes { IsTrue result → IsDueAlone waiters.now.items now place }
    ensures no { result ≡ false → IsDueAlone waiters.now.items now place → ⊥ }
{
    let waiter = waiters[place];
    match waiter.by {
        Asker::Client(_) => waiter.due <= now && is_alone(waiters, place, waiter.by),
        Asker::Probe => false,
        Asker::GaveUp(_) => false,
    }
}

/// Whether none before this place was asked for by this one.
fn is_alone(waiters: &VecDeque<Waiter>, place: usize, by: Asker) -> bool
    requires { place ≤ length waiters.now.items }
    ensures yes { IsTrue result → AskedOnce waiters.now.items place by }
    ensures no { result ≡ false → AskedOnce waiters.now.items place by → ⊥ }
{
    for earlier in 0..place {
        if waiters[earlier].by == by {
            return false;
        }
    }
    true
}

/// The client of this number, at this place, gives up.
pub(crate) fn give_up_at(waiters: &mut VecDeque<Waiter>, place: usize)
    requires { place < length waiters.old.items }
    ensures { (before after : List Waiter) (waiter : Waiter)
        → waiters.old.items ≡ before ++ waiter ∷ after → length before ≡ place
        → (number : ℕ) → waiter.by ≡ Asker.Client number
        → waiters.new.items ≡ before ++ gone number waiter ∷ after }
{
    let waiter = waiters[place];
    if let Asker::Client(number) = waiter.by {
        waiters[place] = waiter.gone(number);
    }
}
