//! A round, server by server: each marked server gets its prober, and each prober is stopped, rests
//! or probes once. What a probe came to is returned; the caller goes from server to server.
ghost use Rattle.std.specs.Prelude.{◌≡◌, ◌+◌, ◌<◌, ◌↔◌, ℕ, false, IfNone, IfSome, Ok, length};
ghost use Rattle.tko_links.specs.Links.{WasProbed, is_counted, most_sends, part_of};
ghost use Rattle.tko_prober.specs.Ghosts.{backend_ghosts};
ghost use Rattle.tko_prober.specs.Halves.{MayProbe};
ghost use Rattle.tko_prober.specs.Probers.{probed_of};
ghost use Rattle.tko_prober.specs.Round.{IsBegun, IsRound, IsVisitedBy};
ghost use Rattle.tko_prober.specs.Servers.{HaveServers, ServersStay};

use crate::{Backend, Probed};
use tko_io::{Clock, IoRuntime};
use tko_links::{ExchangeNoMemory, Links, Outcome};
use tko_model::{Duty, Reply};
use tko_route::Health;

/// A probe that was sent, with its result.
#[derive(Debug, Drop)]
pub struct ProbeEnd {
    pub server: usize,
    /// What came of it, or that memory ran out.
    pub came: Result<Outcome, ExchangeNoMemory>,
    /// The health's reply to what was recorded of it, if anything was.
    pub reply: Option<Reply>,
    /// How often the server was probed, this probe included.
    pub probes: u64,
}

impl<H: Health, L: Links, C: Clock> Backend<H, L, C> {
    /// Begins a round: reads its moment, at which each server that was marked gets its prober.
    /// Returns `None` where no server is probed or going to be, so that the round is over.
    pub fn begin_round<R: IoRuntime>(&mut self, rt: &R) -> Option<u64>
        ensures begun { IfSome result (λ moment.
            IsBegun (backend_ghosts H.Health L.Links C.Clock) self.old moment self.new) }
        ensures over { IfNone result
            (IsRound (backend_ghosts H.Health L.Links C.Clock) self.old false self.new) }
        ensures links { self.new.links ≡ self.old.links }
        ensures health { self.new.health ≡ self.old.health }
        ensures slots { length self.new.probers.slots ≡ length self.old.probers.slots }
    {
        let moment = self.clock.next(rt);
        if self.probers.is_quiet() {
            return None;
        }
        self.probers.begin(moment);
        Some(moment)
    }

    /// Stops the prober of a server that is not this thread's to probe, or probes the server where
    /// its prober is due at the moment of the round. Returns the probe, if one was sent.
    pub fn visit<R: IoRuntime>(&mut self, rt: &R, server: usize, moment: u64) -> Option<ProbeEnd>
        requires servers { HaveServers H.servers L.servers self.old }
        requires within { server < length self.old.probers.slots }
        ensures visit { IsVisitedBy (backend_ghosts H.Health L.Links C.Clock) moment
            self.old server result self.new }
        ensures sends { (at : ℕ) → L.sent self.new.links at ≡ L.sent self.old.links at }
        ensures servers { HaveServers H.servers L.servers self.new }
        ensures stay { ServersStay H.servers self.old self.new }
    {
        let Some(duty) = self.due(rt, server, moment) else {
            return None;
        };
        let came = send_probe(rt, &self.health, &mut self.links, duty);
        let later = self.clock.next(rt);
        let reply = self.came(rt, server, later, probed_of(&came));
        let probes = self.links.probes(server);
        Some(ProbeEnd {
            server,
            came,
            reply,
            probes,
        })
    }
}

/// Probes the server that a right names, where this health granted the right.
fn send_probe<R: IoRuntime, H: Health, L: Links>(
    rt: &R,
    _health: &H,
    links: &mut L,
    duty: Duty,
) -> Result<Outcome, ExchangeNoMemory>
    requires may { MayProbe H.grants L.servers _health.now links.old duty }
    ensures record { WasProbed L.exchanges links.old duty result links.new }
    ensures spent { (result ≡ Ok Outcome.Spent) ↔ (L.probed links.old duty ≡ most_sends) }
    ensures probes { (server : ℕ) → L.probed links.new server
        ≡ L.probed links.old server + part_of (is_counted result) duty server }
    ensures sends { (server : ℕ) → L.sent links.new server ≡ L.sent links.old server }
    ensures servers { L.servers links.new ≡ L.servers links.old }
{
    links.probe(rt, duty)
}

/// What came of a probe, to its prober.
fn probed_of(came: &Result<Outcome, ExchangeNoMemory>) -> Probed
    ensures { result ≡ probed_of came.now }
{
    match came {
        Ok(Outcome::Reply(_)) => Probed::Answered,
        Ok(Outcome::Refused) => Probed::Refused,
        Ok(Outcome::Timeout | Outcome::Broken) => Probed::Failed,
        Ok(Outcome::Aborted | Outcome::Spent) => Probed::Failed,
        Err(_) => Probed::Failed,
    }
}
