//! What a step shows of the call that takes it: its effect.
ghost use Rattle.std.specs.Prelude.{◌≡◌, ◌+◌, ◌<◌, ◌^◌, ◌↔◌, true, length, slice_set};
ghost use Rattle.tko_model.specs.Ranges.{IsWithinRanges};
ghost use Rattle.tko_model.specs.Tracker.{changed, server_at};
ghost use Rattle.tko_runs.specs.CheckStates.{AllValid, Shows, transition_of, with_change};
ghost use Rattle.tko_runs.specs.States.{HasServer, servers_written};

use crate::checking::point::CheckedCall;
use crate::checking::words::is_same;
use tko_model::{Mark, Reply, ServerState, Settings, Transition, has_room};
use tko_steps::{Place, Word};

/// What a step shows of a call.
#[derive(Clone, Copy, Debug)]
pub(crate) struct Effect {
    /// The step's number among all steps of calls, from 1.
    pub at: u64,
    /// It changed no server.
    pub is_quiet: bool,
    /// The sequential tracker's reply there, if the step has the sequential tracker's change.
    pub gives: Option<Reply>,
}

/// What a step shows of a call if it leaves this word at that place.
pub(crate) fn effect_of(
    settings: &Settings,
    servers: &[ServerState],
    call: &CheckedCall,
    at: u64,
    place: Place,
    left: Word,
) -> Effect
    requires settings { IsWithinRanges settings.now }
    requires valid { AllValid settings.now servers.now }
    requires call { call.now.server < length servers.now }
    requires place { HasServer servers.now place }
    ensures at { result.at ≡ at }
    ensures shows { Shows settings.now servers.now call.now
        (servers_written servers.now place left) result }
{
    match place {
        Place::Server(server) => match left {
            Word::Server(left) => effect_on(settings, servers, call, at, server, left),
            Word::Soft(_) | Word::Enrolled(_) => quiet_effect(settings, servers, call, at),
        },
        Place::Soft(_) | Place::Enrolment => quiet_effect(settings, servers, call, at),
    }
}

/// Of a step that changes no server.
fn quiet_effect(settings: &Settings, servers: &[ServerState], call: &CheckedCall, at: u64) -> Effect
    requires settings { IsWithinRanges settings.now }
    requires valid { AllValid settings.now servers.now }
    requires call { call.now.server < length servers.now }
    ensures at { result.at ≡ at }
    ensures shows { Shows settings.now servers.now call.now servers.now result }
{
    effect_on(
        settings,
        servers,
        call,
        at,
        call.server,
        servers[call.server],
    )
}

/// Of a step that leaves this of a server.
fn effect_on(
    settings: &Settings,
    servers: &[ServerState],
    call: &CheckedCall,
    at: u64,
    server: usize,
    left: ServerState,
) -> Effect
    requires settings { IsWithinRanges settings.now }
    requires valid { AllValid settings.now servers.now }
    requires call { call.now.server < length servers.now }
    requires server { server < length servers.now }
    ensures at { result.at ≡ at }
    ensures shows { Shows settings.now servers.now call.now
        (slice_set servers.now server left) result }
{
    let transition = own_transition(settings, servers, call);
    let takes_effect = leaves_change(servers, call.server, transition.change, server, left);
    Effect {
        at,
        is_quiet: is_quiet(servers, server, left),
        gives: if takes_effect {
            Some(transition.reply)
        } else {
            None
        },
    }
}

/// What the sequential tracker answers and changes for the call, in the state of these servers.
fn own_transition(settings: &Settings, servers: &[ServerState], call: &CheckedCall) -> Transition
    requires settings { IsWithinRanges settings.now }
    requires valid { AllValid settings.now servers.now }
    requires call { call.now.server < length servers.now }
    ensures value { result ≡ transition_of settings.now servers.now call.now }
    ensures stamp { (server_at servers.now call.now.server).stamp + 1 < 2 ^ 64 }
{
    let room = has_room(servers, settings, call.server);
    Transition::of(settings, room, call.number, call.op, servers[call.server])
}

/// Whether a step that leaves this of a server changes nothing.
fn is_quiet(servers: &[ServerState], server: usize, left: ServerState) -> bool
    requires { server < length servers.now }
    ensures { (result ≡ true) ↔ (slice_set servers.now server left ≡ servers.now) }
{
    is_same(left, servers[server])
}

/// Whether it leaves the same servers as this change of that one.
fn leaves_change(
    servers: &[ServerState],
    on: usize,
    change: Option<Mark>,
    server: usize,
    left: ServerState,
) -> bool
    requires on { on < length servers.now }
    requires server { server < length servers.now }
    requires stamp { (server_at servers.now on).stamp + 1 < 2 ^ 64 }
    ensures { (result ≡ true) ↔
        (changed servers.now on change ≡ slice_set servers.now server left) }
{
    if server == on {
        is_same(left, with_change(servers[on], change))
    } else {
        match change {
            Some(_) => false,
            None => is_same(left, servers[server]),
        }
    }
}

/// A server's word after it got this mark, if any.
fn with_change(found: ServerState, change: Option<Mark>) -> ServerState
    requires { found.stamp + 1 < 2 ^ 64 }
    ensures { result ≡ with_change found change }
{
    match change {
        Some(mark) => ServerState {
            mark,
            stamp: found.stamp + 1,
        },
        None => found,
    }
}
