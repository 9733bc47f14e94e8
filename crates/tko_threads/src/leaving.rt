//! How a worker ends: it gives up its marks, and gives its seat back.
ghost use Rattle.tko_health.specs.Seating.{Leaves};
ghost use Rattle.tko_threads.specs.Leaving.{ReleasesEach};

use crate::Metered;
use std::sync::Wait;
use tko_health::{Health, Seating};

/// Releases each server, which the observer is told, and gives the seat back.
pub fn leave<R: Wait, S: Seating>(
    rt: &R,
    seating: &S,
    health: S::Worker,
    observer: &Metered<'_>,
) -> S::Idle
    ensures own { S.own seating.now result }
    ensures leaves { Leaves S.Worker.Health.steps (S.gives_back seating.now)
        health result }
{
    let mut health = health;
    release_all(rt, &mut health, observer);
    seating.leave(rt, health)
}

/// Releases each server, in number order, and tells how the health replied.
fn release_all<R: Wait, H: Health>(rt: &R, health: &mut H, observer: &Metered<'_>)
    ensures { ReleasesEach H.steps (H.servers health.old) health.old health.new }
{
    for server in 0..health.servers() {
        let reply = health.release(rt, server);
        observer.released(rt, server, reply);
    }
}
