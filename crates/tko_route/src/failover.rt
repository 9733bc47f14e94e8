//! Failover: a request is sent to one target after another until one answers.
ghost use Rattle.std.specs.Prelude.{◌≡◌, ◌<◌, ℕ, All, IfErr, IfOk};
ghost use Rattle.tko_route.specs.Calls.{HaveSameServers, upstream};
ghost use Rattle.tko_route.specs.Trail.{HasCutShort, HasRouted, form_at};
ghost use Rattle.tko_text.specs.SentRequests.{without_noreply};

use crate::routed::{RouteFault, Routed};
use crate::routing::Stage;
use std::alloc::Global;
use tko_health::Health;
use tko_io::IoRuntime;
use tko_links::Links;
use tko_text::Request;

/// Sends a request to one target after another, in order, until one answers, and records each
/// outcome at the tracker. Each target gets at most one exchange. The request is sent without
/// `noreply`, and to each target after the first of the list with its expiry replaced. It is
/// changed in place and never copied, and afterwards has the form of the last target that was
/// tried.
pub fn route<R: IoRuntime, H: Health, L: Links>(
    rt: &R,
    alloc: Global,
    health: &mut H,
    links: &mut L,
    targets: &[usize],
    request: &mut Request,
    exptime: u32,
) -> Result<Routed, RouteFault>
    requires health { All (λ target. target < H.servers health.old) targets.now }
    requires links { All (λ target. target < L.servers links.old) targets.now }
    ensures ok { IfOk result (λ routed. HasRouted (upstream H.Health L.Links)
        targets.now (form_at exptime (without_noreply request.old))
        (health.old, links.old) routed.trail (health.new, links.new) request.new) }
    ensures err { IfErr result (λ fault. HasCutShort (upstream H.Health L.Links)
        targets.now (form_at exptime (without_noreply request.old))
        (health.old, links.old) fault.trail fault.sent (health.new, links.new) request.new) }
    ensures probes { (server : ℕ) → L.probed links.new server ≡ L.probed links.old server }
    ensures servers { HaveSameServers H.servers L.servers (health.old, links.old)
        (health.new, links.new) }
{
    let Ok(mut stage) = Stage::begin(rt, alloc, health, targets, request, exptime) else {
        return Err(RouteFault::untried(alloc));
    };
    loop {
        match stage {
            Stage::Done(trail) => return Ok(Routed { trail }),
            Stage::Away(clear, awaited) => match links.exchange(rt, clear, request) {
                Ok(outcome) => {
                    stage = awaited.answered(rt, health, targets, request, exptime, outcome);
                }
                Err(fault) => return Err(awaited.stop(fault)),
            },
        }
    }
}
