//! One call of a session, with what is recorded after it.
ghost use Rattle.std.specs.Prelude.{◌≡◌, IfOk, OnErr, OnOk, length};
ghost use Rattle.tko_model.specs.Records.{Gains};
ghost use Rattle.tko_reply.specs.Interactions.{Interacts};
ghost use Rattle.tko_session.specs.Acts.{recorded_after};
ghost use Rattle.tko_session.specs.Driven.{IsReadyForNext, IsReadyForOutcome};
ghost use Rattle.tko_client.specs.Steps.{BeganAt, HasStayed, IsLost, IsLostTaking, IsOutcomeTaken};
ghost use Rattle.tko_client.specs.Steps.{IsSessionLeft, IsStepped, IsUnrecorded, StandsAfter};
ghost use Rattle.tko_client.specs.Steps.{client_ghosts, phase_of, went_from, went_of};

use crate::Sends;
use std::alloc::Global;
use tko_bytes::NoMemory;
use tko_io::IoRuntime;
use tko_links::Outcome;
use tko_model::Clear;
use tko_route::Health;
use tko_session::{
    Parts, Progress, Session, Step, Trails, observe_attempts, observe_drop, observe_end,
    observe_refusal, observe_request, observe_trail,
};

/// What a call of a session came to.
#[derive(Debug, Drop)]
pub(crate) enum Went {
    /// Its request is to be sent once, to the server that the permission names.
    Asks(Clear),
    /// It can go on.
    On,
    /// It can do nothing before something comes for one of its requests.
    Waits,
    /// It needs more input.
    NeedsInput,
    /// Its last item ended it.
    Over,
    /// Its last item ended it, a line that was too long.
    TooLong,
    /// Memory ran out, and its request was dropped.
    Short,
}

/// Goes on once, and records what that did. An `Err` says that memory ran out, so that its request
/// was dropped.
pub(crate) fn go_once<R: IoRuntime, H: Health, T: Trails, C>(
    rt: &R,
    alloc: Global,
    session: &mut Session,
    parts: &mut Parts<H, Sends, T, C>,
    told: &mut usize,
) -> Result<Went, NoMemory>
    requires servers { H.servers parts.old.backend.health ≡ length parts.old.config.addresses }
    requires ready { IsReadyForNext parts.old.config session.old }
    ensures ok { IfOk result (λ went. IsStepped (client_ghosts H.Health T.Trails) (phase_of went)
        (session.old, parts.old) (session.new, parts.new)) }
    ensures stands { IfOk result (λ went. StandsAfter went session.new) }
    ensures err { OnErr result (IsLost (client_ghosts H.Health T.Trails)
        (session.old, parts.old) (session.new, parts.new)) }
    ensures left { IsSessionLeft H.servers session.new parts.old parts.new }
{
    match session.next(rt, alloc, &mut parts.backend.health, &parts.config) {
        Ok(step) => observe(rt, session, parts, told, step),
        Err(dropped) => Err(observe_drop(rt, parts, told, &dropped)),
    }
}

/// Takes what came of the send that is out, and records what that did. An `Err` says that memory
/// ran out, so that its request was dropped.
pub(crate) fn take_once<R: IoRuntime, H: Health, T: Trails, C>(
    rt: &R,
    session: &mut Session,
    parts: &mut Parts<H, Sends, T, C>,
    told: &mut usize,
    outcome: Outcome,
) -> Result<Went, NoMemory>
    requires servers { H.servers parts.old.backend.health ≡ length parts.old.config.addresses }
    requires ready { IsReadyForOutcome parts.old.config session.old }
    ensures ok { IfOk result (λ went. IsOutcomeTaken (client_ghosts H.Health T.Trails) outcome
        (phase_of went) (session.old, parts.old) (session.new, parts.new)) }
    ensures stands { IfOk result (λ went. StandsAfter went session.new) }
    ensures err { OnErr result (IsLostTaking (client_ghosts H.Health T.Trails) outcome
        (session.old, parts.old) (session.new, parts.new)) }
    ensures left { IsSessionLeft H.servers session.new parts.old parts.new }
{
    match session.answered(rt, &mut parts.backend.health, &parts.config, outcome) {
        Ok(step) => observe(rt, session, parts, told, step),
        Err(dropped) => Err(observe_drop(rt, parts, told, &dropped)),
    }
}

/// Records what a call of a session said.
fn observe<R: IoRuntime, H: Health, T: Trails, C>(
    rt: &R,
    session: &mut Session,
    parts: &mut Parts<H, Sends, T, C>,
    told: &mut usize,
    step: Step,
) -> Result<Went, NoMemory>
    requires began { BeganAt step session.old.work }
    ensures went { IfOk result (λ went. went ≡ went_from step) }
    ensures ok { OnOk result (Gains (Interacts (client_ghosts H.Health T.Trails)) parts.old
        (recorded_after step session.old.work) parts.new) }
    ensures same { OnOk result (session.new ≡ session.old) }
    ensures err { OnErr result (IsUnrecorded (client_ghosts H.Health T.Trails) step
        (session.old, parts.old) (session.new, parts.new)) }
    ensures stays { HasStayed H.servers parts.old parts.new }
{
    match step {
        Step::Refused(fault) => Ok(went_of(observe_refusal(rt, session, parts, fault))),
        Step::At(progress) => {
            observe_end(session, parts, progress);
            Ok(went_of(progress))
        }
        Step::Asks(clear) => {
            observe_attempts(rt, &mut parts.trails, session.attempts(), told);
            Ok(Went::Asks(clear))
        }
        Step::Began => match observe_request(rt, session, &mut parts.trails) {
            Ok(()) => Ok(Went::On),
            Err(dropped) => Err(observe_drop(rt, parts, told, &dropped)),
        },
        Step::Tried(trail) => match observe_trail(rt, session, parts, told, trail) {
            Ok(()) => Ok(Went::On),
            Err(dropped) => Err(observe_drop(rt, parts, told, &dropped)),
        },
    }
}

/// What an item that was answered came to.
fn went_of(progress: Progress) -> Went
    ensures { result ≡ went_of progress }
{
    match progress {
        Progress::More => Went::On,
        Progress::NeedsInput => Went::NeedsInput,
        Progress::Quit => Went::Over,
        Progress::LineTooLong => Went::TooLong,
    }
}
