//! One key of a request, from where it is begun to where its response is put into the reply.
ghost use Rattle.std.specs.Prelude.{◌≡◌, ◌↔◌, ◌++◌, IfErr, IfOk, IsSome, IsTrue, None, OnErr, Some};
ghost use Rattle.std.specs.Prelude.{length};
ghost use Rattle.tko_route.specs.Routing.{GoesOn, told_of};
ghost use Rattle.tko_route.specs.Trail.{op_of};
ghost use Rattle.tko_route.specs.Underway.{Awaited};
ghost use Rattle.tko_reply.specs.Cuts.{KeyLost};
ghost use Rattle.tko_keys.specs.KeysState.{has_failed, has_next_target, has_values};
ghost use Rattle.tko_keys.specs.SlotCalls.{CanGoOn, IsAnyOut, PartDropped, PartTaken, SlotBegun};
ghost use Rattle.tko_keys.specs.SlotCalls.{SlotDropped, SlotTaken, fresh_slot, wait_at};
ghost use Rattle.tko_keys.specs.Steps.{said_by, slot_step};

use crate::come::Come;
use crate::step::SlotStep;
use smallvec::SmallVec;
use std::alloc::Global;
use std::marker::Model;
use std::mem::replace;
use std::sync::Wait;
use tko_links::{ExchangeNoMemory, Outcome};
use tko_model::Reply;
use tko_pools::Config;
use tko_reply::{Dropped, OneKey, Outbox, stop};
use tko_route::{AwaitedSend, Health, Stage};
use tko_text::Request;

/// A key that was begun. Its response is kept apart from those of the other keys, since they come
/// in any order.
#[derive(Drop)]
pub(crate) struct Slot {
    pub key: OneKey,
    /// One alone is held in place.
    pub targets: SmallVec<usize, 1>,
    pub outbox: Outbox,
    /// While it is due at a server, or its request is under way.
    pub awaited: Option<AwaitedSend>,
}

impl Model for Slot {
    ghost use Rattle.tko_keys.specs.KeysState.{KeySlot};

    ghost Value = { KeySlot };

    ghost view = { λ s. record {
      key = s.key;
      targets = s.targets.items;
      outbox = s.outbox;
      awaited = s.awaited;
    } };
}

impl Slot {
    /// A key that is asked for by a request of its own, before anything is done for it.
    pub(crate) fn of(alloc: Global, request: Request) -> Slot
        ensures { result ≡ fresh_slot request }
    {
        Slot {
            key: OneKey::one_of(alloc, request),
            targets: SmallVec::new(alloc),
            outbox: Outbox::new(alloc),
            awaited: None,
        }
    }

    /// Begins to route the key. Its targets are found in a list that other keys may use too.
    pub(crate) fn begin<R: Wait, H: Health>(
        &mut self,
        rt: &R,
        alloc: Global,
        health: &mut H,
        config: &Config,
        found: &mut Vec<usize>,
    ) -> Result<SlotStep, Dropped>
        requires servers { H.servers health.old ≡ length config.now.addresses }
        requires fresh { self.old ≡ fresh_slot self.old.key.request }
        ensures ok { IfOk result (λ step. GoesOn H.steps health.old (λ calls.
            SlotBegun config.now self.old.key.request calls (said_by step) self.new) health.new) }
        ensures lost { IfErr result (λ attempts. GoesOn H.steps health.old (λ calls.
            KeyLost config.now self.old.key.request calls attempts) health.new) }
        ensures err { OnErr result (self.new.awaited ≡ None) }
        ensures servers { H.servers health.new ≡ H.servers health.old }
    {
        let outbox = &mut self.outbox;
        match self.key.begin(rt, alloc, health, config, found, outbox) {
            Ok(stage) => {
                self.targets = targets_in(alloc, found);
                Ok(self.go_to(stage))
            }
            Err(lost) => Err(lost),
        }
    }

    /// Takes its part of what came of a request, and goes on.
    pub(crate) fn take<R: Wait, H: Health>(
        &mut self,
        rt: &R,
        alloc: Global,
        health: &mut H,
        config: &Config,
        came: &mut Come,
    ) -> Result<SlotStep, Dropped>
        requires servers { H.servers health.old ≡ length config.now.addresses }
        requires out { IsAnyOut config.now self.old }
        requires replied { CanGoOn came.old }
        ensures ok { IfOk result (λ step. GoesOn H.steps health.old (λ calls.
            PartTaken config.now came.old self.old calls (said_by step) came.new self.new)
            health.new) }
        ensures lost { IfErr result (λ attempts. GoesOn H.steps health.old (λ calls.
            PartDropped config.now came.old self.old calls attempts came.new self.new)
            health.new) }
        ensures servers { H.servers health.new ≡ H.servers health.old }
    {
        let reply = came.reply();
        match came.part(alloc, self.key.request()) {
            Some(part) => self.go_on(rt, health, config, part, reply),
            None => Err(self.stop()),
        }
    }

    /// Goes on to the next target once this came of its send, and was recorded, unless it was
    /// answered.
    fn go_on<R: Wait, H: Health>(
        &mut self,
        rt: &R,
        health: &mut H,
        config: &Config,
        outcome: Outcome,
        reply: Option<Reply>,
    ) -> Result<SlotStep, Dropped>
        requires servers { H.servers health.old ≡ length config.now.addresses }
        requires out { IsAnyOut config.now self.old }
        requires replied { IsSome reply ↔ IsSome (op_of outcome) }
        ensures ok { IfOk result (λ step. GoesOn H.steps health.old (λ more.
            (awaited : Awaited) → self.old.awaited ≡ Some awaited → SlotTaken config.now outcome
            self.old (told_of awaited outcome reply ++ more) (said_by step) self.new)
            health.new) }
        ensures lost { IfErr result (λ attempts. GoesOn H.steps health.old (λ more.
            (awaited : Awaited) → self.old.awaited ≡ Some awaited → SlotDropped config.now outcome
            self.old (told_of awaited outcome reply ++ more) attempts self.new) health.new) }
        ensures servers { H.servers health.new ≡ H.servers health.old }
    {
        let Some(awaited) = replace(&mut self.awaited, None) else {
            unreachable!();
        };
        let targets = self.targets.as_slice();
        let outbox = &mut self.outbox;
        let key = &mut self.key;
        match key.recorded(rt, health, config, targets, outbox, awaited, outcome, reply) {
            Ok(stage) => Ok(self.go_to(stage)),
            Err(lost) => Err(lost),
        }
    }

    /// Goes to where its routing came.
    fn go_to(&mut self, stage: Stage) -> SlotStep
        ensures says { result ≡ slot_step stage }
        ensures state { self.new ≡ record self.old { awaited = wait_at stage } }
    {
        match stage {
            Stage::Away(clear, awaited) => {
                self.awaited = Some(awaited);
                SlotStep::Due(clear)
            }
            Stage::Done(trail) => {
                self.awaited = None;
                SlotStep::Tried(trail)
            }
        }
    }

    /// Drops the key where memory ran out for it.
    fn stop(&mut self) -> Dropped
        requires out { IsSome self.old.awaited }
        ensures attempts { (awaited : Awaited) → self.old.awaited ≡ Some awaited
            → result ≡ awaited.attempts }
        ensures state { self.new ≡ record self.old { awaited = None } }
    {
        let Some(awaited) = replace(&mut self.awaited, None) else {
            unreachable!();
        };
        stop(awaited, ExchangeNoMemory { sent: false })
    }

    /// How many attempts at the key ended before the server that it waits for.
    pub(crate) fn tried(&self) -> usize {
        match &self.awaited {
            Some(awaited) => awaited.attempts().len(),
            None => 0,
        }
    }

    /// Whether the key has another target after the server that it waits for.
    pub(crate) fn has_next_target(&self) -> bool
        ensures { result ≡ has_next_target self.now }
    {
        match &self.awaited {
            Some(awaited) => awaited.has_next(self.targets.as_slice()),
            None => false,
        }
    }

    /// Whether the attempts at the key ended, and its response is a list of values.
    pub(crate) fn has_values(&self) -> bool
        ensures { result ≡ has_values self.now }
    {
        self.awaited.is_none() && self.key.is_listed()
    }

    /// Whether the attempts ended, and the response is no list of values.
    pub(crate) fn has_failed(&self) -> bool
        ensures { result ≡ has_failed self.now }
    {
        self.awaited.is_none() && !self.key.is_listed()
    }
}

/// The targets that were found. Several are taken out of their list as it is.
fn targets_in(alloc: Global, found: &mut Vec<usize>) -> SmallVec<usize, 1>
    ensures { result.items ≡ found.old.items }
{
    if found.len() == 1 {
        return SmallVec::from_buf(alloc, [found[0]]);
    }
    SmallVec::from_vec(replace(found, Vec::new(alloc)))
}
