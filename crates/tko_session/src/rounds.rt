//! The round of the probers that belongs to no request.
ghost use Rattle.std.specs.Prelude.{◌≡◌, ◌<◌, ℕ, is_err, length};
ghost use Rattle.tko_reply.specs.Answers.{Reaches};
ghost use Rattle.tko_prober.specs.Ghosts.{backend_ghosts};
ghost use Rattle.tko_prober.specs.Round.{AreVisited, IsRound, IsVisited};

use crate::{Parts, Trails};
use tko_bytes::NoMemory;
use tko_io::{Clock, IoRuntime};
use tko_links::Links;
use tko_route::Health;

/// One round of the probers by itself. If memory runs out in a probe, the probe has failed, and the
/// round goes on to the other servers before it returns `NoMemory`.
pub fn round<R: IoRuntime, H: Health, L: Links, T: Trails, C: Clock>(
    rt: &R,
    parts: &mut Parts<H, L, T, C>,
) -> Result<(), NoMemory>
    requires reach { Reaches H.servers L.servers parts.old }
    ensures round { IsRound (backend_ghosts H.Health L.Links C.Clock)
        parts.old.backend (is_err result) parts.new.backend }
    ensures sends { (server : ℕ)
        → L.sent parts.new.backend.links server ≡ L.sent parts.old.backend.links server }
    ensures others { parts.new ≡ record parts.old { backend = parts.new.backend } }
    ensures reach { Reaches H.servers L.servers parts.new }
{
    let Some(moment) = parts.backend.begin_round(rt) else {
        return Ok(());
    };
    if visit_all(rt, parts, moment) {
        return Err(NoMemory);
    }
    Ok(())
}

/// Visits each server in number order, and returns whether memory ran out.
fn visit_all<R: IoRuntime, H: Health, L: Links, T: Trails, C: Clock>(
    rt: &R,
    parts: &mut Parts<H, L, T, C>,
    moment: u64,
) -> bool
    requires reach { Reaches H.servers L.servers parts.old }
    ensures visits { AreVisited (backend_ghosts H.Health L.Links C.Clock) moment
        parts.old.backend (length parts.old.backend.probers.slots) result parts.new.backend }
    ensures sends { (server : ℕ)
        → L.sent parts.new.backend.links server ≡ L.sent parts.old.backend.links server }
    ensures others { parts.new ≡ record parts.old { backend = parts.new.backend } }
    ensures reach { Reaches H.servers L.servers parts.new }
{
    let mut short = false;
    for server in 0..parts.backend.probers.servers() {
        short |= visit(rt, parts, server, moment);
    }
    short
}

/// Visits a server, and tells its probe, if one was sent. Returns whether memory ran out.
fn visit<R: IoRuntime, H: Health, L: Links, T: Trails, C: Clock>(
    rt: &R,
    parts: &mut Parts<H, L, T, C>,
    server: usize,
    moment: u64,
) -> bool
    requires reach { Reaches H.servers L.servers parts.old }
    requires within { server < length parts.old.backend.probers.slots }
    ensures visit { IsVisited (backend_ghosts H.Health L.Links C.Clock) moment
        parts.old.backend server result parts.new.backend }
    ensures sends { (at : ℕ)
        → L.sent parts.new.backend.links at ≡ L.sent parts.old.backend.links at }
    ensures others { parts.new ≡ record parts.old { backend = parts.new.backend } }
    ensures reach { Reaches H.servers L.servers parts.new }
{
    let Some(probe) = parts.backend.visit(rt, server, moment) else {
        return false;
    };
    parts.trails.probed(rt, &probe);
    probe.came.is_err()
}
