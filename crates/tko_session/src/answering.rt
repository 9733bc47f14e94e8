//! A session is driven over a worker's links: what it asks for is sent, and its rounds are run.
ghost use Rattle.std.specs.Prelude.{◌≡◌, ◌≤◌, ◌<◌, false, true, IsSome, Ok, OnOk, Some, is_err, length};
ghost use Rattle.tko_text.specs.Reading.{NeedsMore};
ghost use Rattle.tko_prober.specs.Ghosts.{backend_ghosts};
ghost use Rattle.tko_prober.specs.Probers.{NoneMarked};
ghost use Rattle.tko_reply.specs.Answers.{Reaches};
ghost use Rattle.tko_route.specs.Calls.{IsExchange, upstream};
ghost use Rattle.tko_reply.specs.Replies.{reply_bound};
ghost use Rattle.tko_reply.specs.declared.asking.OneKey.{OneKey};
ghost use Rattle.tko_session.specs.Effects.{effects};
ghost use Rattle.tko_session.specs.AnswerEnds.{AnsweringEnds, DriveEnds, IsBetweenOver, IsRun, IsSettled, IsSettledOver, KeepsBegun, MayRunRound, OnlySendChanges, OwesWhereBusy};
ghost use Rattle.tko_reply.specs.declared.parts.Parts.{Parts};
ghost use Rattle.tko_session.specs.SessionState.{HasAnswered, Snapshot, snapshot};
ghost use Rattle.tko_session.specs.Working.{key_in};

use crate::observing::{
    observe_attempts, observe_drop, observe_end, observe_refusal, observe_request, observe_trail,
};
use crate::{Dropped, Parts, Progress, Session, Step, Trails, round};
use std::alloc::Global;
use tko_bytes::NoMemory;
use tko_io::{Clock, IoRuntime};
use tko_links::{Links, Outcome};
use tko_model::Clear;
use tko_route::Health;

/// Answers the items that are decided, in order, until none is left, until the replies that wait
/// reach their bound, or until a round is owed that may take long. The round after a request is run
/// at once while no prober is at work. Where memory runs out, the servers that the attempts until
/// then marked are going to be probed.
pub fn answer<R: IoRuntime, H: Health, L: Links, T: Trails, C: Clock>(
    rt: &R,
    alloc: Global,
    session: &mut Session,
    parts: &mut Parts<H, L, T, C>,
) -> Result<Progress, NoMemory>
    requires settled { IsSettledOver H.servers L.servers (snapshot session.old parts.old) }
    ensures ends { AnsweringEnds (effects H.Health L.Links T.Trails C.Clock)
        (snapshot session.old parts.old) result (snapshot session.new parts.new) }
    ensures full { result ≡ Ok Progress.More → session.new.owes ≡ false
        → reply_bound ≤ length session.new.outbox }
    ensures busy { OnOk result (OwesWhereBusy (snapshot session.new parts.new)) }
    ensures begun { KeepsBegun (snapshot session.old parts.old) (snapshot session.new parts.new) }
    ensures between { IsBetweenOver H.servers L.servers (snapshot session.new parts.new) }
{
    for _ in rt.forever() {
        if session.owes_round() {
            return Ok(Progress::More);
        }
        if session.is_full() {
            return Ok(Progress::More);
        }
        let mut told = 0;
        match drive(rt, alloc, session, parts, &mut told) {
            Ok(progress) => match end_item(rt, session, parts, progress)? {
                Progress::More => {}
                Progress::NeedsInput => return Ok(Progress::NeedsInput),
                Progress::LineTooLong => return Ok(Progress::LineTooLong),
                Progress::Quit => return Ok(Progress::Quit),
            },
            Err(dropped) => return Err(observe_drop(rt, parts, &mut told, &dropped)),
        }
    }
    unreachable!()
}

/// Runs the round that is owed, if one is. It may take long where a prober is at work, so the
/// replies were written before, or their writer failed.
pub fn run_owed_round<R: IoRuntime, H: Health, L: Links, T: Trails, C: Clock>(
    rt: &R,
    session: &mut Session,
    parts: &mut Parts<H, L, T, C>,
) -> Result<(), NoMemory>
    requires reach { Reaches H.servers L.servers parts.old }
    requires late { MayRunRound (snapshot session.old parts.old) }
    ensures round { IsRun (backend_ghosts H.Health L.Links C.Clock)
        (snapshot session.old parts.old) (is_err result) parts.new }
    ensures none_owed { session.new ≡ record session.old { owes = false } }
    ensures begun { session.old.owes ≡ true → NoneMarked parts.new.backend.probers }
    ensures reach { Reaches H.servers L.servers parts.new }
{
    if !session.owes_round() {
        return Ok(());
    }
    session.round_run();
    round(rt, parts)
}

/// Ends an item that was answered, from whatever stood before it: runs its round while no prober is
/// at work. Returns its progress.
fn end_item<R: IoRuntime, H: Health, L: Links, T: Trails, C: Clock>(
    rt: &R,
    session: &mut Session,
    parts: &mut Parts<H, L, T, C>,
    progress: Progress,
) -> Result<Progress, NoMemory>
    requires reach { Reaches H.servers L.servers parts.old }
    ensures ends { (old : Snapshot (Parts H L T C))
        → HasAnswered (effects H.Health L.Links T.Trails C.Clock)
        progress old (snapshot session.old parts.old)
        → AnsweringEnds (effects H.Health L.Links T.Trails C.Clock)
        old result (snapshot session.new parts.new) }
    ensures busy { OnOk result (OwesWhereBusy (snapshot session.new parts.new)) }
    ensures begun { (session.old.owes ≡ false → NoneMarked parts.old.backend.probers)
        → session.new.owes ≡ false → NoneMarked parts.new.backend.probers }
    ensures work { session.new.work ≡ session.old.work }
    ensures reach { Reaches H.servers L.servers parts.new }
{
    if !parts.backend.probers.is_quiet() {
        return Ok(progress);
    }
    run_owed_round(rt, session, parts)?;
    Ok(progress)
}

/// Drives the session to the end of its next item: sends what it asks for, and hands on what it
/// did. `told` counts those attempts at its key that were told.
fn drive<R: IoRuntime, H: Health, L: Links, T: Trails, C: Clock>(
    rt: &R,
    alloc: Global,
    session: &mut Session,
    parts: &mut Parts<H, L, T, C>,
    told: &mut usize,
) -> Result<Progress, Dropped>
    requires reach { Reaches H.servers L.servers parts.old }
    requires settled { IsSettled session.old }
    requires room { length session.old.outbox < reply_bound }
    ensures ends { DriveEnds (effects H.Health L.Links T.Trails C.Clock)
        (snapshot session.old parts.old) result (snapshot session.new parts.new) }
    ensures more { result ≡ Ok Progress.More → ¬ NeedsMore session.old.reading }
    ensures reach { Reaches H.servers L.servers parts.new }
{
    let mut step = session.next(rt, alloc, &mut parts.backend.health, &parts.config)?;
    for _ in rt.forever() {
        match step {
            Step::Refused(fault) => return Ok(observe_refusal(rt, session, parts, fault)),
            Step::At(progress) => {
                observe_end(session, parts, progress);
                return Ok(progress);
            }
            Step::Asks(clear) => {
                match send(rt, session, parts, told, clear) {
                    Ok(outcome) => {
                        let health = &mut parts.backend.health;
                        step = session.answered(rt, health, &parts.config, outcome)?;
                    }
                    Err(fault) => return Err(session.stop(fault)),
                }
            }
            Step::Began => {
                observe_request(rt, session, &mut parts.trails)?;
                step = session.next(rt, alloc, &mut parts.backend.health, &parts.config)?;
            }
            Step::Tried(trail) => {
                observe_trail(rt, session, parts, told, trail)?;
                step = session.next(rt, alloc, &mut parts.backend.health, &parts.config)?;
            }
        }
    }
    unreachable!()
}

/// Sends the request that the session lends, once, to the server that the permission names. Before
/// that the attempts until then are told, and after it how often the server was sent to.
fn send<R: IoRuntime, H: Health, L: Links, T: Trails, C: Clock>(
    rt: &R,
    session: &Session,
    parts: &mut Parts<H, L, T, C>,
    told: &mut usize,
    clear: Clear,
) -> Result<Outcome, tko_links::ExchangeNoMemory>
    requires lends { IsSome (key_in session.now.work) }
    requires within { clear < L.servers parts.old.backend.links }
    requires reach { Reaches H.servers L.servers parts.old }
    ensures exchange { (one : OneKey) → key_in session.now.work ≡ Some one
        → IsExchange (upstream H.Health L.Links) parts.old.backend.links
        (record { server = clear; request = one.request; result = result })
        parts.new.backend.links }
    ensures others { OnlySendChanges L.probed parts.old parts.new }
    ensures reach { Reaches H.servers L.servers parts.new }
{
    observe_attempts(rt, &mut parts.trails, session.attempts(), told);
    let server = clear.server();
    let links = &mut parts.backend.links;
    let came = links.exchange(rt, clear, session.request());
    parts.trails.sent(server, links.sends(server));
    parts.trails.exchanged(server, links.begun(server), &came);
    came
}
