//! The probers of a worker: which servers its failures marked, and when each is probed.
ghost use Rattle.std.specs.Prelude.{◌≡◌, ◌<◌, ◌↔◌, IfOk, IsTrue, MatchOption, Some, count_by, is_some, length, map, replicate, slice_get, slice_set};
ghost use Rattle.tko_prober.specs.Probers.{AreQuiet, begun_at, begun_slot, is_busy, next_probe_at, no_probers, noted, noted_one, prober_in, prober_of, with_slot};
ghost use Rattle.tko_prober.specs.declared.probers.ProbeSlot.TheVariants.{Quiet};

use crate::{Delays, Prober};
use std::alloc::Global;
use std::marker::Model;
use std::mem;
use tko_bytes::NoMemory;
use tko_model::Reply;
use tko_route::Attempt;

/// Whether a server is probed.
#[derive(Debug, Drop)]
pub enum ProbeSlot {
    /// It is not probed: no failure marked it, or its prober has ended.
    Quiet,
    /// A failure of this worker marked it. Its prober begins with the next round.
    Marked,
    Probing(Prober),
}

impl ProbeSlot {
    fn is_busy(&self) -> bool
        ensures { result ≡ is_busy self.now }
    {
        match self {
            ProbeSlot::Quiet => false,
            ProbeSlot::Marked | ProbeSlot::Probing(_) => true,
        }
    }

    /// Begins the prober of a server that was marked.
    fn begin(&mut self, delays: Delays, moment: u64)
        ensures { self.new ≡ begun_slot delays moment self.old }
    {
        if let ProbeSlot::Marked = self {
            *self = ProbeSlot::Probing(Prober::begin(delays, moment));
        }
    }
}

/// The probers of all servers, a slot each. All memory is taken by `new`. Contracts see the delays
/// and the slots.
#[derive(Debug, Drop)]
pub struct Probers {
    delays: Delays,
    slots: Vec<ProbeSlot>,
    busy: usize,
}

impl Model for Probers {
    ghost use Rattle.std.specs.Prelude.{◌≡◌, count_by};
    ghost use Rattle.tko_prober.specs.Probers.{ProbersState, is_busy};

    ghost Value = { ProbersState };

    ghost view = { λ p. record { delays = p.delays; slots = p.slots.items } };

    ghost invariant = { λ p. p.busy ≡ count_by is_busy p.slots.items };
}

impl Probers {
    /// Room for the probers of `servers` servers, none of which is probed.
    pub fn new(alloc: Global, delays: Delays, servers: usize) -> Result<Probers, NoMemory>
        ensures { IfOk result (λ probers. probers ≡ no_probers delays servers) }
    {
        let slots = quiet_slots(alloc, servers)?;
        Ok(Probers {
            delays,
            slots,
            busy: 0,
        })
    }

    /// Notes which servers the attempts of a trail marked: their probers begin with the next round.
    pub fn note(&mut self, attempts: &[Attempt])
        ensures { self.new ≡ noted attempts.now self.old }
    {
        for attempt in attempts {
            self.note_one(attempt);
        }
    }

    fn note_one(&mut self, attempt: &Attempt)
        ensures { self.new ≡ noted_one attempt.now self.old }
    {
        match attempt {
            Attempt::Sent(server, _, Reply::TookSoft) => self.put(*server, ProbeSlot::Marked),
            Attempt::Sent(server, _, Reply::TookHard) => self.put(*server, ProbeSlot::Marked),
            _ => {}
        }
    }

    /// Whether no server is probed, and none is going to be.
    pub fn is_quiet(&self) -> bool
        ensures { IsTrue result ↔ AreQuiet self.now }
    {
        self.busy == 0
    }

    /// How many servers there are.
    pub fn servers(&self) -> usize
        ensures { result ≡ length self.now.slots }
    {
        self.slots.len()
    }

    /// When the next probe of a server is due, if it is probed and no probe is out.
    pub fn next_at(&self, server: usize) -> Option<u64>
        ensures { result ≡ next_probe_at self.now server }
    {
        match self.slots.get(server)? {
            ProbeSlot::Probing(prober) => prober.next_at(),
            ProbeSlot::Quiet | ProbeSlot::Marked => None,
        }
    }

    /// Begins a prober at this moment for each server that was marked.
    pub fn begin(&mut self, moment: u64)
        ensures { self.new ≡ begun_at moment self.old }
    {
        begin_all(&mut self.slots, self.delays, moment);
    }

    /// Takes the prober of a server out of its slot, if it has one.
    pub(crate) fn take(&mut self, server: usize) -> Option<Prober>
        ensures prober { result ≡ prober_of self.old server }
        ensures slot { MatchOption result (self.new ≡ self.old)
            (λ prober. self.new ≡ with_slot self.old server Quiet) }
    {
        if !is_probing(&self.slots, server) {
            return None;
        }
        match replace_slot(&mut self.slots, &mut self.busy, server, ProbeSlot::Quiet) {
            ProbeSlot::Probing(prober) => Some(prober),
            ProbeSlot::Quiet | ProbeSlot::Marked => None,
        }
    }

    /// Puts this into the slot of a server.
    pub(crate) fn put(&mut self, server: usize, slot: ProbeSlot)
        ensures { self.new ≡ with_slot self.old server slot }
    {
        if server < self.slots.len() {
            replace_slot(&mut self.slots, &mut self.busy, server, slot);
        }
    }
}

/// Begins the prober of each server that was marked.
fn begin_all(slots: &mut [ProbeSlot], delays: Delays, moment: u64)
    ensures { slots.new ≡ map (begun_slot delays moment) slots.old }
{
    for place in 0..slots.len() {
        slots[place].begin(delays, moment);
    }
}

/// `servers` slots without a prober.
fn quiet_slots(alloc: Global, servers: usize) -> Result<Vec<ProbeSlot>, NoMemory>
    ensures { IfOk result (λ slots. slots.items ≡ replicate servers Quiet) }
{
    let mut slots = Vec::with_capacity(alloc, servers)?;
    for _ in 0..servers {
        slots.push(ProbeSlot::Quiet)?;
    }
    Ok(slots)
}

/// Whether a server has a prober.
fn is_probing(slots: &[ProbeSlot], server: usize) -> bool
    ensures { result ≡ is_some (prober_in (slice_get slots.now server)) }
{
    matches!(slots.get(server), Some(ProbeSlot::Probing(_)))
}

/// Puts this into a slot, and returns what was there. `busy` counts the slots that are not quiet.
fn replace_slot(
    slots: &mut [ProbeSlot],
    busy: &mut usize,
    server: usize,
    slot: ProbeSlot,
) -> ProbeSlot
    requires within { server < length slots.old }
    requires counted { busy.old ≡ count_by is_busy slots.old }
    ensures was { slice_get slots.old server ≡ Some result }
    ensures is { slots.new ≡ slice_set slots.old server slot }
    ensures counts { busy.new ≡ count_by is_busy slots.new }
{
    let added = usize::from(slot.is_busy());
    let was = mem::replace(&mut slots[server], slot);
    *busy = *busy + added - usize::from(was.is_busy());
    was
}
