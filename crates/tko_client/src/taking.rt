//! A client takes what came of a request of it.
ghost use Rattle.std.specs.Prelude.{◌≡◌, ◌<◌, false, true, Err, IfErr, IfOk, IsOk, IsSome, None};
ghost use Rattle.std.specs.Prelude.{Ok, length};
ghost use Rattle.tko_links.specs.Links.{is_sent};
ghost use Rattle.tko_reply.specs.Interactions.{with_noted};
ghost use Rattle.tko_reply.specs.Standing.{SentKey};
ghost use Rattle.tko_mux.specs.Awaits.{times_due};
ghost use Rattle.tko_session.specs.Driven.{IsAwaiting, dropped};
ghost use Rattle.tko_session.specs.Working.{Awaits};
ghost use Rattle.tko_client.specs.Answerings.{IsAnsweringReady, awaited_by_client};
ghost use Rattle.tko_client.specs.Calls.{IsTakenAs, IsTakenTo};
ghost use Rattle.tko_client.specs.Comings.{is_unsent, result_of};
ghost use Rattle.tko_client.specs.Steps.{HasStayed, client_ghosts, server_asked_in};

use crate::Sends;
use crate::answering::Answering;
use crate::arriving::{stop_keys, take_keys};
use crate::calls::{Went, take_once};
use crate::counting::{count_sends, tell_unsent};
use crate::halt::Halt;
use crate::moments::{note_sent, tell_response};
use std::alloc::Global;
use tko_io::IoRuntime;
use tko_links::Outcome;
use tko_mux::Came;
use tko_pipe::Fate;
use tko_route::Health;
use tko_session::{Parts, Session, Trails, observe_drop};

/// Takes what came of a request to this server, and tells a response. Notes when the request is
/// sent that is asked for then.
pub(crate) fn take<R: IoRuntime, H: Health, T: Trails, C>(
    rt: &R,
    alloc: Global,
    it: &mut Answering,
    parts: &mut Parts<H, Sends, T, C>,
    server: usize,
    came: Came,
) -> Halt
    requires servers { H.servers parts.old.backend.health ≡ length parts.old.config.addresses }
    requires links { length parts.old.backend.links ≡ length parts.old.config.addresses }
    requires ready { IsAnsweringReady parts.old.config it.old }
    requires awaits { 0 < times_due (awaited_by_client it.old) server }
    ensures taken { IsTakenTo (client_ghosts H.Health T.Trails) H.servers (is_unsent came) server
        (result_of came) result.course result.asked (it.old, parts.old) (it.new, parts.new) }
    ensures sent { IsSome result.asked → IsOk (result_of came) }
{
    tell_response(it, parts, server, &came);
    let halt = take_came(rt, alloc, it, parts, server, came);
    note_sent(it, parts, &halt.asked);
    halt
}

/// Takes what came of a request to this server.
fn take_came<R: IoRuntime, H: Health, T: Trails, C>(
    rt: &R,
    alloc: Global,
    it: &mut Answering,
    parts: &mut Parts<H, Sends, T, C>,
    server: usize,
    came: Came,
) -> Halt
    requires servers { H.servers parts.old.backend.health ≡ length parts.old.config.addresses }
    requires links { length parts.old.backend.links ≡ length parts.old.config.addresses }
    requires ready { IsAnsweringReady parts.old.config it.old }
    requires awaits { 0 < times_due (awaited_by_client it.old) server }
    ensures taken { IsTakenTo (client_ghosts H.Health T.Trails) H.servers (is_unsent came) server
        (result_of came) result.course result.asked (it.old, parts.old) (it.new, parts.new) }
    ensures sent { IsSome result.asked → IsOk (result_of came) }
{
    match outcome_of(came) {
        Ok(outcome) => {
            let went = take_in(rt, alloc, it, parts, server, outcome);
            Halt::after(it, went)
        }
        Err(unsent) => {
            let went = stop(rt, alloc, it, parts, server, unsent);
            Halt::after(it, went)
        }
    }
}

/// What a request came to that was sent; or, where memory ran out for it, whether it was not.
fn outcome_of(came: Came) -> Result<Outcome, bool>
    ensures ok { IfOk result (λ outcome. (result_of came ≡ Ok outcome) × (is_sent outcome ≡ true)
        × (is_unsent came ≡ false)) }
    ensures err { IfErr result (λ unsent. (result_of came ≡ Err (record { sent = false }))
        × (is_unsent came ≡ unsent)) }
{
    match came {
        Came::Response(response) => Ok(Outcome::Reply(response)),
        Came::Fate(Fate::Refused) => Ok(Outcome::Refused),
        Came::Fate(Fate::Timeout) => Ok(Outcome::Timeout),
        Came::Fate(Fate::Broken) => Ok(Outcome::Broken),
        Came::Fate(Fate::Aborted) => Ok(Outcome::Aborted),
        Came::Fate(Fate::Memory) => Err(false),
        Came::Unsent => Err(true),
    }
}

/// Takes what came of a request that was sent to this server, and counts it, once for each of its
/// keys.
fn take_in<R: IoRuntime, H: Health, T: Trails, C>(
    rt: &R,
    alloc: Global,
    it: &mut Answering,
    parts: &mut Parts<H, Sends, T, C>,
    server: usize,
    outcome: Outcome,
) -> Went
    requires servers { H.servers parts.old.backend.health ≡ length parts.old.config.addresses }
    requires links { length parts.old.backend.links ≡ length parts.old.config.addresses }
    requires ready { IsAnsweringReady parts.old.config it.old }
    requires awaits { 0 < times_due (awaited_by_client it.old) server }
    requires sent { is_sent outcome ≡ true }
    ensures { IsTakenAs (client_ghosts H.Health T.Trails) H.servers false server (Ok outcome) result
        (it.old, parts.old) (it.new, parts.new) }
{
    match &mut it.keys {
        Some(keys) => {
            take_keys(rt, alloc, keys.get_mut(), parts, server, outcome);
            Went::On
        }
        None => {
            count_sends(rt, parts, server, 1);
            match take_once(rt, &mut it.session, parts, &mut it.told, outcome) {
                Ok(went) => went,
                Err(_) => Went::Short,
            }
        }
    }
}

/// Memory ran out for a request to this server, which is not counted: its session drops it; or its
/// keys are dropped, and no other is begun.
fn stop<R: IoRuntime, H: Health, T: Trails, C>(
    rt: &R,
    alloc: Global,
    it: &mut Answering,
    parts: &mut Parts<H, Sends, T, C>,
    server: usize,
    unsent: bool,
) -> Went
    requires servers { H.servers parts.old.backend.health ≡ length parts.old.config.addresses }
    requires links { length parts.old.backend.links ≡ length parts.old.config.addresses }
    requires ready { IsAnsweringReady parts.old.config it.old }
    requires awaits { 0 < times_due (awaited_by_client it.old) server }
    ensures taken { IsTakenAs (client_ghosts H.Health T.Trails) H.servers unsent server
        (Err (record { sent = false })) result (it.old, parts.old) (it.new, parts.new) }
    ensures none { server_asked_in result ≡ None }
{
    tell_unsent(rt, parts, server);
    match &mut it.keys {
        Some(keys) => {
            stop_keys(rt, alloc, keys.get_mut(), parts, server, unsent);
            Went::On
        }
        None => {
            stop_session(rt, &mut it.session, parts, &mut it.told);
            Went::Short
        }
    }
}

/// Drops the request of a session for which memory ran out.
fn stop_session<R: IoRuntime, H: Health, T: Trails, C>(
    rt: &R,
    session: &mut Session,
    parts: &mut Parts<H, Sends, T, C>,
    told: &mut usize,
)
    requires awaits { IsAwaiting session.old.work }
    ensures dropped { session.new ≡ dropped session.old }
    ensures noted { (it : SentKey) → session.old.work ≡ Awaits it
        → parts.new ≡ with_noted it.awaited.attempts parts.old }
    ensures stays { HasStayed H.servers parts.old parts.new }
{
    let dropped = session.stop(tko_links::ExchangeNoMemory { sent: false });
    let _ = observe_drop(rt, parts, told, &dropped);
}
