//! Calls for the keys of a request that was handed over, with what is recorded after each.
ghost use Rattle.std.specs.Prelude.{◌≡◌, ◌≢◌, [], length};
ghost use Rattle.tko_reply.specs.Interactions.{with_noted};
ghost use Rattle.tko_keys.specs.KeysDriven.{AreUnderWay};
ghost use Rattle.tko_keys.specs.KeysState.{MayBegin};
ghost use Rattle.tko_client.specs.Answerings.{AreSettled};
ghost use Rattle.tko_client.specs.Keys.{HasKeyGoneOn, HasKeyCall, HaveGoneOn, IsDueAfter};
ghost use Rattle.tko_client.specs.Keys.{IsKeyRecorded};
ghost use Rattle.tko_client.specs.Steps.{HasStayed, client_ghosts};

use crate::Sends;
use crate::calls::Went;
use std::alloc::Global;
use tko_io::IoRuntime;
use tko_keys::{Dropped, KeyStep, KeysAtOnce};
use tko_route::Health;
use tko_session::{Parts, Trails, observe_attempts, observe_drop, record_trail};

/// Begins the next key, which is due at a server then, or ended. Where memory runs out, no other
/// key is begun.
pub(crate) fn begin_key<R: IoRuntime, H: Health, T: Trails, C>(
    rt: &R,
    alloc: Global,
    keys: &mut KeysAtOnce,
    parts: &mut Parts<H, Sends, T, C>,
)
    requires servers { H.servers parts.old.backend.health ≡ length parts.old.config.addresses }
    requires ready { AreSettled parts.old.config keys.old }
    requires may { MayBegin keys.old }
    ensures call { HasKeyCall (client_ghosts H.Health T.Trails) Went.On (keys.old, parts.old)
        (keys.new, parts.new) }
    ensures stays { HasStayed H.servers parts.old parts.new }
{
    match keys.begin(rt, alloc, &mut parts.backend.health, &parts.config) {
        Ok(step) => {
            let told = keys.told();
            observe_key(rt, keys, parts, step, told);
        }
        Err(dropped) => observe_loss(rt, parts, &dropped, keys.told()),
    }
}

/// Takes on the keys that something came for, one after another. An attempt that they share is told
/// once.
pub(crate) fn go_on_all<R: IoRuntime, H: Health, T: Trails, C>(
    rt: &R,
    alloc: Global,
    keys: &mut KeysAtOnce,
    parts: &mut Parts<H, Sends, T, C>,
)
    requires servers { H.servers parts.old.backend.health ≡ length parts.old.config.addresses }
    requires ready { AreUnderWay parts.old.config keys.old }
    ensures gone { HaveGoneOn (client_ghosts H.Health T.Trails) (keys.old, parts.old)
        (keys.new, parts.new) }
    ensures stays { HasStayed H.servers parts.old parts.new }
{
    let mut told = false;
    while keys.may_go_on() {
        told = go_on_key(rt, alloc, keys, parts, told);
    }
}

/// Takes on the first key that something came for. Where memory runs out for it, no other key is
/// begun. The attempt that it shares with other keys was told with theirs, or was not yet. Returns
/// whether it is told now.
fn go_on_key<R: IoRuntime, H: Health, T: Trails, C>(
    rt: &R,
    alloc: Global,
    keys: &mut KeysAtOnce,
    parts: &mut Parts<H, Sends, T, C>,
    was_told: bool,
) -> bool
    requires servers { H.servers parts.old.backend.health ≡ length parts.old.config.addresses }
    requires ready { AreUnderWay parts.old.config keys.old }
    requires some { keys.old.came.places ≢ [] }
    ensures on { HasKeyGoneOn (client_ghosts H.Health T.Trails) (keys.old, parts.old)
        (keys.new, parts.new) }
    ensures stays { HasStayed H.servers parts.old parts.new }
{
    match keys.go_on(rt, alloc, &mut parts.backend.health, &parts.config) {
        Ok(step) => {
            let told = told_with(keys, was_told);
            observe_key(rt, keys, parts, step, told);
            true
        }
        Err(dropped) => {
            let told = told_with(keys, was_told);
            observe_loss(rt, parts, &dropped, told);
            has_told(was_told, &dropped, told)
        }
    }
}

/// Whether the attempt is told, where memory ran out for a key of which so many were told.
fn has_told(was_told: bool, dropped: &Dropped, told: usize) -> bool {
    was_told || dropped.attempts().len() > told
}

/// How many attempts at the key of the last call were told, where the next of them was or was not.
fn told_with(keys: &KeysAtOnce, was_told: bool) -> usize {
    keys.told().saturating_add(usize::from(was_told))
}

/// Records what a call said of a key, of which so many attempts were told. Where memory runs out
/// for that, no other key is begun.
fn observe_key<R: IoRuntime, H: Health, T: Trails, C>(
    rt: &R,
    keys: &mut KeysAtOnce,
    parts: &mut Parts<H, Sends, T, C>,
    step: KeyStep,
    mut told: usize,
)
    requires due { IsDueAfter step keys.old.due }
    ensures recorded { IsKeyRecorded (client_ghosts H.Health T.Trails) step
        (keys.old, parts.old) (keys.new, parts.new) }
    ensures stays { HasStayed H.servers parts.old parts.new }
{
    match step {
        KeyStep::Due(_) => {
            observe_attempts(rt, &mut parts.trails, keys.attempts(), &mut told);
        }
        KeyStep::Tried(trail) => match record_trail(rt, parts, &mut told, trail) {
            Ok(()) => {}
            Err(_) => keys.lose(),
        },
    }
}

/// Tells the last attempts at a key for which memory ran out, of which so many were told, and notes
/// the marks of all of them.
fn observe_loss<R: IoRuntime, H, T: Trails, C>(
    rt: &R,
    parts: &mut Parts<H, Sends, T, C>,
    dropped: &Dropped,
    mut told: usize,
)
    ensures { parts.new ≡ with_noted dropped.now parts.old }
{
    let _ = observe_drop(rt, parts, &mut told, dropped);
}
