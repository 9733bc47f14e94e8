//! Keys that something came for go on.
ghost use Rattle.std.specs.Prelude.{◌≡◌, IfErr, IfOk, length};
ghost use Rattle.tko_route.specs.Routing.{GoesOn};
ghost use Rattle.tko_keys.specs.KeysDriven.{AreUnderWay, FirstLost, FirstTaken};
ghost use Rattle.tko_keys.specs.Ready.{IsReadyToGoOn};

use super::KeysAtOnce;
use super::places::{failed_with, note_step, values_ahead};
use crate::step::KeyStep;
use std::alloc::Global;
use std::sync::Wait;
use tko_pools::Config;
use tko_reply::Dropped;
use tko_route::Health;

impl KeysAtOnce {
    /// Takes on the first key that something came for: it goes on to its next target unless it was
    /// answered. Where memory ran out for it, it is dropped, and no other key is begun.
    pub fn go_on<R: Wait, H: Health>(
        &mut self,
        rt: &R,
        alloc: Global,
        health: &mut H,
        config: &Config,
    ) -> Result<KeyStep, Dropped>
        requires servers { H.servers health.old ≡ length config.now.addresses }
        requires ready { IsReadyToGoOn config.now self.old }
        ensures ok { IfOk result (λ said. GoesOn H.steps health.old (λ calls.
            FirstTaken config.now self.old calls said self.new) health.new) }
        ensures lost { IfErr result (λ attempts. GoesOn H.steps health.old (λ calls.
            FirstLost config.now self.old calls attempts self.new) health.new) }
        ensures ready { AreUnderWay config.now self.new }
        ensures servers { H.servers health.new ≡ H.servers health.old }
    {
        let Some(place) = self.came.next_place() else {
            unreachable!();
        };
        self.out -= 1;
        let slot = &mut self.slots[place];
        self.told = slot.tried();
        let came = slot.take(rt, alloc, health, config, &mut self.came);
        self.held = self.held.saturating_add(slot.outbox.len());
        match came {
            Ok(step) => {
                self.failed = failed_with(slot, self.failed);
                self.ahead = values_ahead(&self.slots, self.ahead);
                Ok(note_step(&mut self.due, &mut self.out, place, step))
            }
            Err(dropped) => {
                self.ahead = values_ahead(&self.slots, self.ahead);
                self.lost = true;
                Err(dropped)
            }
        }
    }
}
