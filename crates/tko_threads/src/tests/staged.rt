//! Scripted links at which something happens before a request is sent.

use super::gate::Gate;
use tko_io::IoRuntime;
use tko_links::{ExchangeNoMemory, Links, Outcome, Scripted};
use tko_model::{Clear, Duty};
use tko_text::Request;

/// What a request meets before it is sent.
#[derive(Drop)]
pub enum Meets<'a> {
    /// It is the first of the two that wait for each other.
    FirstAt(&'a Gate),
    /// It is the second of the two.
    SecondAt(&'a Gate),
}

/// Scripted links at which each request meets this.
#[derive(Drop)]
pub struct Staged<'a> {
    pub inner: Scripted,
    pub meets: Meets<'a>,
}

impl<'a> Links for Staged<'a> {
    ghost use Rattle.std.specs.Prelude.{length, slice_index};
    ghost use Rattle.tko_links.specs.Scripted.{IsPlayed};

    ghost servers = { λ links. length links.inner.sends };

    ghost sent = { λ links server. slice_index links.inner.sends server };

    ghost probed = { λ links server. slice_index links.inner.probes server };

    ghost exchanges = { λ old it new. IsPlayed old.inner it new.inner };

    fn exchange<R: IoRuntime>(
        &mut self,
        rt: &R,
        clear: Clear,
        request: &Request,
    ) -> Result<Outcome, ExchangeNoMemory> {
        match &self.meets {
            Meets::FirstAt(gate) => gate.hold_first(rt),
            Meets::SecondAt(gate) => gate.hold_second(rt),
        }
        let outcome = self.inner.exchange(rt, clear, request);
        if let Meets::SecondAt(gate) = &self.meets {
            gate.let_first_go();
        }
        outcome
    }

    fn probe<R: IoRuntime>(&mut self, rt: &R, duty: Duty) -> Result<Outcome, ExchangeNoMemory> {
        self.inner.probe(rt, duty)
    }

    fn sends(&self, server: usize) -> u64 {
        self.inner.sends(server)
    }

    fn probes(&self, server: usize) -> u64 {
        self.inner.probes(server)
    }
}
