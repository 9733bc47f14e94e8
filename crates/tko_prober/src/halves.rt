//! A probe in two halves: what is due at the moment of a round, and its result, which may come at
//! any later time.
ghost use Rattle.std.specs.Prelude.{◌≡◌, ◌<◌, IfNone, IfSome, None, length};
ghost use Rattle.tko_prober.specs.declared.prober.Prober.{Prober};
ghost use Rattle.tko_prober.specs.Probes.{asked_after};
ghost use Rattle.tko_route.specs.Trail.{IsRecorded};
ghost use Rattle.tko_prober.specs.Halves.{IsOut, IsPassed, IsProbeSent, IsResult};
ghost use Rattle.tko_prober.specs.Probers.{op_asked, slot_after};
ghost use Rattle.tko_prober.specs.Servers.{ServersStay};

use crate::probers::ProbeSlot;
use crate::{AfterProbe, Backend, ProbeTurn, Probed, Prober, ProberStage};
use std::sync::Wait;
use tko_model::{Duty, Reply};
use tko_route::Health;

impl<H: Health, L, C> Backend<H, L, C> {
    /// The right to probe this server, where its prober is due at the moment of this round. The
    /// probe is out from then on, until `came` takes its result. Where the health grants no right,
    /// the prober is stopped.
    pub fn due<R: Wait>(&mut self, rt: &R, server: usize, moment: u64) -> Option<Duty>
        requires { server < H.servers self.old.health }
        ensures names { IfSome result (λ duty. duty ≡ server) }
        ensures sent { IfSome result (λ duty.
            IsProbeSent H.grants moment self.old server self.new) }
        ensures passed { IfNone result
            (IsPassed H.steps H.grants moment self.old server self.new) }
        ensures others { (self.new.links ≡ self.old.links) × (self.new.clock ≡ self.old.clock) }
        ensures stay { ServersStay H.servers self.old self.new }
    {
        let Some(mut prober) = self.probers.take(server) else {
            return None;
        };
        let Some(duty) = self.health.duty(rt, server) else {
            return None;
        };
        let turn = prober.turn(moment);
        self.probers.put(server, ProbeSlot::Probing(prober));
        match turn {
            ProbeTurn::Send => Some(duty),
            ProbeTurn::Rest => None,
        }
    }

    /// Takes the result of the probe of this server that is out, at this moment: records what its
    /// prober asks for, and returns the tracker's reply to that. Where no probe of the server is
    /// out, nothing is recorded.
    pub fn came<R: Wait>(
        &mut self,
        rt: &R,
        server: usize,
        moment: u64,
        probed: Probed,
    ) -> Option<Reply>
        requires { server < H.servers self.old.health }
        ensures result { (prober : Prober) → IsOut self.old.probers server prober
            → IsResult H.steps moment self.old server prober probed result self.new }
        ensures none { ((prober : Prober) → ¬ IsOut self.old.probers server prober)
            → (result ≡ None) × (self.new ≡ self.old) }
        ensures others { (self.new.links ≡ self.old.links) × (self.new.clock ≡ self.old.clock) }
        ensures slots { length self.new.probers.slots ≡ length self.old.probers.slots }
        ensures servers { H.servers self.new.health ≡ H.servers self.old.health }
    {
        let Some(prober) = self.probers.take(server) else {
            return None;
        };
        if !prober.is_out() {
            self.probers.put(server, ProbeSlot::Probing(prober));
            return None;
        }
        let (asked, slot) = take_result(prober, moment, probed);
        self.probers.put(server, slot);
        record_asked(rt, &mut self.health, server, asked)
    }
}

/// Gives its result to the probe that is out. Returns what the prober asks for, and the slot of its
/// server from then on.
fn take_result(mut prober: Prober, moment: u64, probed: Probed) -> (AfterProbe, ProbeSlot)
    requires { prober.stage ≡ ProberStage.Out }
    ensures asked { result.0 ≡ asked_after probed }
    ensures slot { result.1 ≡ slot_after prober moment probed }
{
    let asked = prober.result(moment, probed);
    let slot = match asked {
        AfterProbe::Recover => ProbeSlot::Quiet,
        AfterProbe::Harden | AfterProbe::Again => ProbeSlot::Probing(prober),
    };
    (asked, slot)
}

/// Records what a prober asks for.
fn record_asked<R: Wait, H: Health>(
    rt: &R,
    health: &mut H,
    server: usize,
    asked: AfterProbe,
) -> Option<Reply>
    requires { server < H.servers health.old }
    ensures recorded { IsRecorded H.steps health.old
        server (op_asked asked) result health.new }
    ensures servers { H.servers health.new ≡ H.servers health.old }
{
    match asked {
        AfterProbe::Recover => Some(health.success(rt, server)),
        AfterProbe::Harden => Some(health.hard_failure(rt, server)),
        AfterProbe::Again => None,
    }
}
