//! The answer to one request as a value that sends nothing itself: its caller sends. The keys of a
//! request, values that are joined, a silent request and the status are its states.
ghost use Rattle.std.specs.Prelude.{◌≡◌, IfErr, IfOk, OnErr, OnOk, length};
ghost use Rattle.tko_reply.specs.Answering.{Extends};
ghost use Rattle.tko_reply.specs.Asking.{BeginsAnswer, ContinuesKeys, FindsTargets, Goes, HasFront};
ghost use Rattle.tko_reply.specs.Asking.{IsJoined, Settles, course_of, front_of};
ghost use Rattle.tko_reply.specs.Cuts.{EndsBy, IsBeginCut, IsEndOf, IsKeyDropped, KeyLost};
ghost use Rattle.tko_reply.specs.Sends.{AfterSend, IsOutTo};
ghost use Rattle.tko_reply.specs.Standing.{asking, is_joined, one_of, whole_of};
ghost use Rattle.tko_route.specs.Routing.{GoesOn};
ghost use Rattle.tko_route.specs.Trail.{form_at};
ghost use Rattle.tko_text.specs.SentRequests.{without_noreply};

use crate::asking::joining::join_next;
use crate::dropped::Dropped;
use crate::keys_left::KeysLeft;
use crate::outbox::Outbox;
use crate::targets::find_targets;
use std::alloc::Global;
use std::sync::Wait;
use tko_bytes::NoMemory;
use tko_links::Outcome;
use tko_pools::Config;
use tko_route::{AwaitedSend, Health, Stage};
use tko_text::Request;

mod handing;
mod joining;
mod recorded;

/// The reply to `version`.
const VERSION: &[u8] = b"VERSION tkoproxy 1\r\n";

/// A request for one key. It is changed in place from one key to the next, since moving a request
/// costs more than deciding about it. Its `Stage` says what is next: the request may be sent once,
/// and what came of that is passed to `answered`; or the attempts at the key have ended, the
/// response is in the outbox, and `go_on` is next. Nothing is borrowed between two calls, so other
/// requests may be answered there; but nothing else may be put into its outbox until the reply is
/// complete.
#[derive(Drop)]
pub struct OneKey {
    request: Request,
    share: ReplyPart,
}

/// Whether the response to a key is the whole reply, or one part of it.
#[derive(Drop)]
pub(crate) enum ReplyPart {
    /// All of it, and it is written unless the request is silent.
    Whole(bool),
    /// The values of one of several keys. The reply begins after so many bytes of the outbox, and
    /// these keys are left.
    Joined(usize, KeysLeft),
}

impl OneKey {
    /// A request as it was read.
    pub fn whole(request: Request) -> OneKey
        ensures { result ≡ whole_of request }
    {
        let silent = request.is_silent();
        let share = ReplyPart::Whole(silent);
        OneKey { request, share }
    }

    /// A request for one of several keys, whose response is put into an outbox of its own: its
    /// values without the line `END`, or the whole text where it is no list of values.
    pub fn one_of(alloc: Global, request: Request) -> OneKey
        ensures { result ≡ one_of request }
    {
        let share = ReplyPart::Joined(0, KeysLeft::none(alloc));
        OneKey { request, share }
    }

    /// Whether its response is one of those that are joined. Of an ended key of several: whether
    /// the response was a list of values.
    pub fn is_listed(&self) -> bool
        ensures { result ≡ is_joined self.now.share }
    {
        matches!(self.share, ReplyPart::Joined(_, _))
    }

    /// The request in the form in which the server gets it; until `first`, as it was read.
    pub fn request(&self) -> &Request
        ensures { result.now ≡ self.now.request }
    {
        &self.request
    }

    /// Begins to answer a request as it was read. The proxy itself answers one without a key, and
    /// of several keys the first is asked for alone. Returns whether there is a key to ask for.
    pub fn first<R: Wait, H: Health>(
        &mut self,
        rt: &R,
        alloc: Global,
        health: &mut H,
        config: &Config,
        outbox: &mut Outbox,
    ) -> Result<bool, NoMemory>
        requires servers { H.servers health.old ≡ length config.now.addresses }
        requires whole { self.old ≡ whole_of self.old.request }
        ensures ok { IfOk result (λ keyed. GoesOn H.steps health.old
            (λ calls. BeginsAnswer config.now self.old.request outbox.old calls
            keyed self.new outbox.new) health.new) }
        ensures err { OnErr result (Extends outbox.old outbox.new) }
        ensures cut { OnErr result (GoesOn H.steps health.old
            (λ calls. IsBeginCut config.now self.old.request calls) health.new) }
        ensures servers { H.servers health.new ≡ H.servers health.old }
    {
        match &self.request {
            Request::Version => {
                outbox.append(VERSION)?;
                Ok(false)
            }
            Request::Quit => Ok(false),
            Request::StatsTko => {
                outbox.append_status(rt, health, config.addresses())?;
                Ok(false)
            }
            _ => {
                self.split(alloc, outbox.len())?;
                Ok(true)
            }
        }
    }

    /// Begins to route the key: looks for the first of its targets to send to. They are put into a
    /// list, in place of what it held.
    pub fn begin<R: Wait, H: Health>(
        &mut self,
        rt: &R,
        alloc: Global,
        health: &mut H,
        config: &Config,
        targets: &mut Vec<usize>,
        outbox: &mut Outbox,
    ) -> Result<Stage, Dropped>
        requires servers { H.servers health.old ≡ length config.now.addresses }
        requires front { HasFront self.old.share outbox.old }
        ensures ok { IfOk result (λ stage. GoesOn H.steps health.old (λ calls. Goes
            (course_of config.now targets.new.items self.old (without_noreply self.old.request))
            calls outbox.old stage self.new outbox.new) health.new) }
        ensures found { FindsTargets config.now self.old.request result targets.new.items }
        ensures dropped { IfErr result (λ trail. IsKeyDropped H.steps self.old.share
            (health.old, outbox.old) (λ calls. KeyLost config.now self.old.request calls trail)
            (health.new, outbox.new)) }
        ensures servers { H.servers health.new ≡ H.servers health.old }
    {
        find_targets(config, &self.request, targets)?;
        let exptime = config.failover_exptime();
        let stage = Stage::begin(rt, alloc, health, targets, &mut self.request, exptime)?;
        self.settle(outbox, stage)
    }

    /// Records what came of the send, and goes on to the next target unless it was answered.
    pub fn answered<R: Wait, H: Health>(
        &mut self,
        rt: &R,
        health: &mut H,
        config: &Config,
        targets: &[usize],
        outbox: &mut Outbox,
        awaited: AwaitedSend,
        outcome: Outcome,
    ) -> Result<Stage, Dropped>
        requires servers { H.servers health.old ≡ length config.now.addresses }
        requires front { HasFront self.old.share outbox.old }
        requires out { IsOutTo config.now targets.now awaited }
        ensures ok { IfOk result (λ stage. GoesOn H.steps health.old
            (λ more. AfterSend config.now (asking awaited self.old) outcome (λ original calls.
            Goes (course_of config.now targets.now self.old original) (calls more) outbox.old
            stage self.new outbox.new)) health.new) }
        ensures dropped { IfErr result (λ trail. IsKeyDropped H.steps self.old.share
            (health.old, outbox.old)
            (λ more. AfterSend config.now (asking awaited self.old) outcome (λ original calls.
            EndsBy targets.now (form_at config.now.failover_exptime original) (calls more) trail))
            (health.new, outbox.new)) }
        ensures servers { H.servers health.new ≡ H.servers health.old }
    {
        let exptime = config.failover_exptime();
        let request = &mut self.request;
        let stage = awaited.answered(rt, health, targets, request, exptime, outcome);
        self.settle(outbox, stage)
    }

    /// Puts the response to the key into the reply where the attempts at it have ended.
    fn settle(&mut self, outbox: &mut Outbox, stage: Stage) -> Result<Stage, Dropped>
        requires front { HasFront self.old.share outbox.old }
        ensures same { IfOk result (λ at. at ≡ stage) }
        ensures ok { OnOk result (Settles stage self.old outbox.old self.new outbox.new) }
        ensures err { OnErr result (Extends (front_of self.old.share outbox.old) outbox.new) }
        ensures lost { IfErr result (λ trail. IsEndOf stage trail) }
    {
        match stage {
            Stage::Away(clear, awaited) => Ok(Stage::Away(clear, awaited)),
            Stage::Done(trail) => match self.put(outbox, trail.response()) {
                Ok(()) => Ok(Stage::Done(trail)),
                Err(_) => Err(Dropped::after(trail)),
            },
        }
    }

    /// Goes on once the attempts at a key ended: the next of several keys takes its place, or the
    /// reply ends. Returns whether there is a key to ask for.
    pub fn go_on(&mut self, outbox: &mut Outbox) -> Result<bool, NoMemory>
        ensures ok { IfOk result (λ keyed. ContinuesKeys self.old outbox.old
            keyed self.new outbox.new) }
        ensures joined { OnErr result (IsJoined self.old.share) }
        ensures err { OnErr result (outbox.new ≡ outbox.old) }
    {
        match &mut self.share {
            ReplyPart::Whole(_) => Ok(false),
            ReplyPart::Joined(_, left) => join_next(outbox, &mut self.request, left),
        }
    }
}
