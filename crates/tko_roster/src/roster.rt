//! The sessions of a worker's clients, by number.
ghost use Rattle.std.specs.Prelude.{◌≡◌, ◌<◌, ℕ, [], None, Some, IfNone, IfOk, IfSome, IsSome, OnErr, length, option_copied};
ghost use Rattle.std.specs.Bool.{OnFalse, OnTrue};
ghost use Rattle.tko_roster.specs.Rosters.{AreReady, IfHas, IsActed, IsAdmitted, IsNobody, IsReleased, IsSlotCall, IsVacant, nobody, session_at};

use crate::{Driven, PartsVisit};
use std::alloc::Global;
use std::marker::Model;
use tko_bytes::NoMemory;

/// The sessions, each of which has a number, and the parts that all of them share. The number of a
/// session that leaves is given to a later one.
#[derive(Drop)]
pub struct Roster<S, P> {
    parts: P,
    slots: Vec<Option<S>>,
    /// Numbers whose sessions left.
    free: Vec<usize>,
}

impl<S, P> Model for Roster<S, P> {
    ghost use Rattle.tko_roster.specs.Rosters.{RosterState};

    ghost Value = { RosterState S P };

    ghost view = { λ r. record { parts = r.parts; slots = r.slots.items } };
}

impl<P, S: Driven<P> + Drop> Roster<S, P> {
    /// Nobody has a number yet.
    pub fn new(alloc: Global, parts: P) -> Roster<S, P>
        ensures { result ≡ nobody parts }
    {
        Roster {
            parts,
            slots: Vec::new(alloc),
            free: Vec::new(alloc),
        }
    }

    /// Gives a session a number that no other has. Without memory for it, the session is dropped.
    pub fn admit(&mut self, session: S) -> Result<usize, NoMemory>
        requires session { S.ready self.old.parts session }
        requires ready { AreReady S.ready self.old }
        ensures ok { IfOk result (λ number. IsAdmitted self.old number session self.new) }
        ensures err { OnErr result (self.new ≡ self.old) }
        ensures ready { AreReady S.ready self.new }
    {
        if let Some(number) = self.free_number() {
            self.slots[number] = Some(session);
            return Ok(number);
        }
        let number = self.slots.len();
        self.free.reserve(number + 1)?;
        self.slots.push(Some(session))?;
        Ok(number)
    }

    /// A number whose session left.
    fn free_number(&mut self) -> Option<usize>
        ensures free { IfSome result (λ number. session_at self.new.slots number ≡ None) }
        ensures within { IfSome result (λ number. number < length self.new.slots) }
        ensures kept { self.new ≡ self.old }
    {
        let number = self.free.pop()?;
        match self.slots.get(number) {
            Some(None) => Some(number),
            _ => None,
        }
    }

    /// The parts, once no session is called any more. The sessions are dropped.
    pub fn into_parts(self) -> P
        ensures { result ≡ self.parts }
    {
        let Roster { parts, slots, free } = self;
        drop(slots);
        drop(free);
        parts
    }

    /// Each number that has a session is below this one.
    pub fn numbers(&self) -> usize
        ensures { result ≡ length self.now.slots }
    {
        self.slots.len()
    }

    /// The session of a number, if it has one.
    pub fn get(&self, number: usize) -> Option<&S>
        ensures { option_copied result ≡ session_at self.now.slots number }
    {
        match self.slots.get(number) {
            Some(Some(session)) => Some(session),
            _ => None,
        }
    }

    /// The parts that all sessions share.
    pub fn parts(&self) -> &P
        ensures { result.now ≡ self.now.parts }
    {
        &self.parts
    }

    /// Whether no number has a session.
    pub fn is_empty(&self) -> bool
        ensures none { OnTrue result ((number : ℕ) → number < length self.now.slots
            → session_at self.now.slots number ≡ None) }
        ensures some { OnFalse result
            ((number : ℕ) × IsSome (session_at self.now.slots number)) }
    {
        for number in 0..self.slots.len() {
            if self.get(number).is_some() {
                return false;
            }
        }
        true
    }

    /// Makes one call of the number's session, if it has one.
    pub fn act(&mut self, number: usize, input: S::Input) -> Option<S::Output>
        requires ready { AreReady S.ready self.old }
        requires may { IfHas self.old.slots number (λ session. S.may session input) }
        ensures some { IfSome result (λ output.
            IsActed S.acts self.old number (input, output) self.new) }
        ensures none { IfNone result (IsNobody self.old number self.new) }
        ensures ready { AreReady S.ready self.new }
    {
        if number >= self.slots.len() {
            return None;
        }
        act_in(&mut self.slots[number], &mut self.parts, input)
    }

    /// Does something with the parts, which leaves all sessions ready.
    pub fn visit<V: PartsVisit<P>>(&mut self, visit: V) -> V::Output
        requires stays { (old new : P) → V.stays old new → S.stays old new }
        requires ready { AreReady S.ready self.old }
        ensures does { V.does visit self.old.parts result self.new.parts }
        ensures slots { self.new.slots ≡ self.old.slots }
        ensures ready { AreReady S.ready self.new }
    {
        visit.visit(&mut self.parts)
    }

    /// Takes the number from its session, if it has one. No request of it may be under way, so none
    /// can be answered to the next that has this number.
    pub fn release(&mut self, number: usize) -> Option<S>
        requires idle { IfHas self.old.slots number (λ session. S.awaited session ≡ []) }
        requires ready { AreReady S.ready self.old }
        ensures some { IfSome result (λ session.
            IsReleased S.awaited self.old number session self.new) }
        ensures none { IfNone result (IsNobody self.old number self.new) }
        ensures ready { AreReady S.ready self.new }
    {
        if number >= self.slots.len() {
            return None;
        }
        let session = empty(&mut self.slots[number])?;
        // Room for each number was made when it was first given.
        let _ = self.free.push(number);
        Some(session)
    }
}

/// Makes one call of the session in this slot, if there is one.
fn act_in<P, S: Driven<P>>(
    slot: &mut Option<S>,
    parts: &mut P,
    input: S::Input,
) -> Option<S::Output>
    requires ready { (session : _) → slot.old ≡ Some session → S.ready parts.old session }
    requires may { (session : _) → slot.old ≡ Some session → S.may session input }
    ensures some { IfSome result (λ output.
        IsSlotCall S.acts slot.old parts.old (input, output) slot.new parts.new) }
    ensures none { IfNone result (IsVacant slot.old parts.old slot.new parts.new) }
    ensures ready { (session : _) → slot.new ≡ Some session → S.ready parts.new session }
    ensures others { (session : _) → S.ready parts.old session → S.ready parts.new session }
{
    match slot {
        Some(session) => Some(session.act(parts, input)),
        None => None,
    }
}

/// Takes the session out of this slot, if there is one.
fn empty<S>(slot: &mut Option<S>) -> Option<S>
    ensures session { result ≡ slot.old }
    ensures none { slot.new ≡ None }
{
    slot.take()
}
