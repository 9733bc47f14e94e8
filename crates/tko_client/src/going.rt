//! A client goes on as far as it can.
ghost use Rattle.std.specs.Prelude.{◌≡◌, ◌≢◌, ◌+◌, ◌-◌, ◌/◌, [], length};
ghost use Rattle.std.specs.Bool.{OnFalse, OnTrue};
ghost use Rattle.tko_session.specs.Outgoing.{outgoing};
ghost use Rattle.tko_client.specs.Answerings.{HasFewReplies, IsAnsweringReady, IsClientIdle};
ghost use Rattle.tko_client.specs.Answerings.{MayCallClient};
ghost use Rattle.tko_client.specs.Calls.{IsCalled, IsHalted};
ghost use Rattle.tko_client.specs.Steps.{client_ghosts};
ghost use Rattle.tko_client.specs.Shares.{reply_unit};

use crate::answering::Answering;
use crate::calls::{Went, go_once};
use crate::halt::Halt;
use crate::handing::{end_keys, hand_over};
use crate::keys::begin_key;
use crate::moments::{note_sent, tell_end};
use crate::{ClientStanding, Sends};
use std::alloc::Global;
use tko_io::IoRuntime;
use tko_route::Health;
use tko_session::{Parts, Session, Trails};

/// How much is done for a client at a time. A call costs one of it, and replies that it adds cost
/// more. What is left to do then is done after the other clients.
const SHARE: usize = 256;

/// So many bytes of replies cost as much as a call.
const REPLY_UNIT: usize = 12;

/// Goes on while it can, until its share is used up. Notes when the request is sent that is asked
/// for then.
pub(crate) fn go_on<R: IoRuntime, H: Health, T: Trails, C>(
    rt: &R,
    alloc: Global,
    it: &mut Answering,
    parts: &mut Parts<H, Sends, T, C>,
) -> Halt
    requires servers { H.servers parts.old.backend.health ≡ length parts.old.config.addresses }
    requires ready { IsAnsweringReady parts.old.config it.old }
    requires may { MayCallClient it.old }
    ensures { IsHalted (client_ghosts H.Health T.Trails) H.servers result.course result.asked
        (it.old, parts.old) (it.new, parts.new) }
{
    let halt = go_while(rt, alloc, it, parts);
    note_sent(it, parts, &halt.asked);
    halt
}

/// Goes on while it can, until its share is used up.
fn go_while<R: IoRuntime, H: Health, T: Trails, C>(
    rt: &R,
    alloc: Global,
    it: &mut Answering,
    parts: &mut Parts<H, Sends, T, C>,
) -> Halt
    requires servers { H.servers parts.old.backend.health ≡ length parts.old.config.addresses }
    requires ready { IsAnsweringReady parts.old.config it.old }
    requires may { MayCallClient it.old }
    ensures { IsHalted (client_ghosts H.Health T.Trails) H.servers result.course result.asked
        (it.old, parts.old) (it.new, parts.new) }
{
    let mut left = SHARE;
    while left > 0 {
        if is_to_write(it) {
            return Halt {
                course: ClientStanding::Full,
                asked: None,
            };
        }
        let held = it.session.held();
        match call_once(rt, alloc, it, parts) {
            Went::On => left = left.saturating_sub(call_cost(held, it.session.held())),
            went => return Halt::after(it, went),
        }
    }
    Halt {
        course: ClientStanding::Going,
        asked: None,
    }
}

/// What a call costs before which so many bytes of replies were held, and after it so many.
fn call_cost(before: usize, after: usize) -> usize
    ensures { result ≡ 1 + (after - before) / reply_unit }
{
    1 + after.saturating_sub(before) / REPLY_UNIT
}

/// Whether replies are to be written before it goes on. The keys of a request go on all the same,
/// since their replies are held whether or not those before are written.
pub(crate) fn is_to_write(it: &Answering) -> bool
    ensures some { OnTrue result (outgoing it.now.session ≢ []) }
    ensures idle { OnTrue result (MayCallClient it.now → IsClientIdle it.now) }
    ensures few { OnFalse result (IsClientIdle it.now → HasFewReplies it.now) }
{
    it.keys.is_none() && it.session.is_full() && has_output(&it.session)
}

/// Whether replies may be written.
fn has_output(session: &Session) -> bool
    ensures some { OnTrue result (outgoing session.now ≢ []) }
    ensures none { OnFalse result (outgoing session.now ≡ []) }
{
    !session.output().is_empty()
}

/// Makes one call: for the keys of a request that was handed over, of which a request is made as
/// soon as it can be; or else of the session.
fn call_once<R: IoRuntime, H: Health, T: Trails, C>(
    rt: &R,
    alloc: Global,
    it: &mut Answering,
    parts: &mut Parts<H, Sends, T, C>,
) -> Went
    requires servers { H.servers parts.old.backend.health ≡ length parts.old.config.addresses }
    requires ready { IsAnsweringReady parts.old.config it.old }
    requires may { MayCallClient it.old }
    ensures { IsCalled (client_ghosts H.Health T.Trails) H.servers result (it.old, parts.old)
        (it.new, parts.new) }
{
    match &mut it.keys {
        Some(keys) => {
            let keys = keys.get_mut();
            if let Some(server) = keys.next_send() {
                let sending = keys.send(alloc, server);
                Went::Asks(sending.clear)
            } else if keys.may_begin() {
                begin_key(rt, alloc, keys, parts);
                Went::On
            } else if keys.is_asking() {
                Went::Waits
            } else {
                let went = end_keys(it);
                tell_end(it, parts, &went);
                went
            }
        }
        None => call_session(rt, alloc, it, parts),
    }
}

/// Makes one call of the session, or hands a request for several keys over in its place.
fn call_session<R: IoRuntime, H: Health, T: Trails, C>(
    rt: &R,
    alloc: Global,
    it: &mut Answering,
    parts: &mut Parts<H, Sends, T, C>,
) -> Went
    requires servers { H.servers parts.old.backend.health ≡ length parts.old.config.addresses }
    requires ready { IsAnsweringReady parts.old.config it.old }
    requires idle { IsClientIdle it.old }
    ensures { IsCalled (client_ghosts H.Health T.Trails) H.servers result (it.old, parts.old)
        (it.new, parts.new) }
{
    if let Some(went) = hand_over(alloc, it) {
        return went;
    }
    match go_once(rt, alloc, &mut it.session, parts, &mut it.told) {
        Ok(went) => went,
        Err(_) => Went::Short,
    }
}
