//! What came of a request under way.
ghost use Rattle.std.specs.Prelude.{◌≡◌, [], IsSome, length};
ghost use Rattle.tko_route.specs.Routing.{GoesOn};
ghost use Rattle.tko_pools.specs.Configs.{Configuration};
ghost use Rattle.tko_keys.specs.KeysDriven.{AreUnderWay, HasArrived, HasStopped, IsUnsent};
ghost use Rattle.tko_keys.specs.KeysState.{first_send};

use super::KeysAtOnce;
use super::places::{last_index, take_first};
use crate::come::Come;
use std::alloc::Global;
use std::sync::Wait;
use tko_links::Outcome;
use tko_route::{Health, record_outcome};

impl KeysAtOnce {
    /// Records what came of the first request under way at a server, once for all of its keys,
    /// which are then to be taken on.
    pub fn arrive<R: Wait, H: Health>(
        &mut self,
        rt: &R,
        alloc: Global,
        health: &mut H,
        server: usize,
        outcome: Outcome,
    )
        requires ready { (config : Configuration) × AreUnderWay config self.old
            × (H.servers health.old ≡ length config.addresses) }
        requires awaited { IsSome (first_send server self.old.sends) }
        requires settled { self.old.came.places ≡ [] }
        ensures arrived { GoesOn H.steps health.old (λ calls.
            HasArrived server outcome self.old calls self.new) health.new }
        ensures ready { (config : Configuration) → AreUnderWay config self.old
            → AreUnderWay config self.new }
        ensures servers { H.servers health.new ≡ H.servers health.old }
    {
        let send = take_first(&mut self.sends, server);
        let reply = record_outcome(rt, health, server, &outcome);
        self.came = Come::of(alloc, send, Some(outcome), reply);
    }

    /// Memory ran out for the first request under way at a server: its keys are to be taken on, and
    /// are dropped then.
    pub fn stop(&mut self, alloc: Global, server: usize)
        requires awaited { IsSome (first_send server self.old.sends) }
        requires settled { self.old.came.places ≡ [] }
        ensures stopped { HasStopped server self.old self.new }
        ensures ready { (config : Configuration) → AreUnderWay config self.old
            → AreUnderWay config self.new }
    {
        let send = take_first(&mut self.sends, server);
        self.came = Come::of(alloc, send, None, None);
    }

    /// The same of the last request under way at a server, which memory ran out for before it was
    /// sent.
    pub fn unsent(&mut self, alloc: Global, server: usize)
        requires awaited { IsSome (first_send server self.old.sends) }
        requires settled { self.old.came.places ≡ [] }
        ensures unsent { IsUnsent server self.old self.new }
        ensures ready { (config : Configuration) → AreUnderWay config self.old
            → AreUnderWay config self.new }
    {
        let index = last_index(&self.sends, server);
        let Some(send) = self.sends.remove(index) else {
            unreachable!();
        };
        self.came = Come::of(alloc, send, None, None);
    }
}
