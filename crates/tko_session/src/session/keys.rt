//! The keys of the request that is answered, one after another.
ghost use Rattle.std.specs.Prelude.{◌≡◌, IfErr, IfOk, IsSome, Some, length};
ghost use Rattle.tko_route.specs.Routing.{GoesOn};
ghost use Rattle.tko_reply.specs.declared.asking.OneKey.{OneKey};
ghost use Rattle.tko_session.specs.Driven.{IsSessionReady, WasDropped, WentOn, dropped, finished, step_of, went};
ghost use Rattle.tko_session.specs.Working.{ended_in, key_in, key_work, request_read_in};
ghost use Rattle.tko_session.specs.SessionState.{progress_of};

use super::{KeyAtWork, KeyWait, Session, SessionWork};
use crate::step::{Progress, Step};
use std::alloc::Global;
use std::sync::Wait;
use tko_bytes::NoMemory;
use tko_pools::Config;
use tko_reply::Dropped;
use tko_route::{Health, Stage};
use tko_text::Request;

impl Session {
    /// Begins to answer the request that was read, or its first key.
    pub(super) fn begin_request<R: Wait, H: Health>(
        &mut self,
        rt: &R,
        alloc: Global,
        health: &mut H,
        config: &Config,
    ) -> Result<Step, Dropped>
        requires servers { H.servers health.old ≡ length config.now.addresses }
        requires ready { IsSessionReady config.now self.old }
        requires read { IsSome (request_read_in self.old.work) }
        ensures ok { IfOk result (λ step. GoesOn H.steps health.old
            (λ calls. WentOn config.now self.old calls step self.new) health.new) }
        ensures err { IfErr result (λ attempts. GoesOn H.steps health.old
            (λ calls. WasDropped config.now self.old calls attempts self.new) health.new) }
        ensures servers { H.servers health.new ≡ H.servers health.old }
    {
        let SessionWork::Key(KeyAtWork { key, wait: _ }) = &mut self.work else {
            unreachable!();
        };
        let progress = progress_of(key.request());
        let Ok(keyed) = key.first(rt, alloc, health, config, &mut self.outbox) else {
            return Err(self.drop_after(Dropped::from(NoMemory)));
        };
        if !keyed {
            return Ok(self.finish(progress));
        }
        let targets = &mut self.targets;
        match key.begin(rt, alloc, health, config, targets, &mut self.outbox) {
            Ok(stage) => Ok(self.go_to(stage)),
            Err(lost) => Err(self.drop_after(lost)),
        }
    }

    /// Goes on once the attempts at a key ended: to the next of several, or to the end of the
    /// reply.
    pub(super) fn go_on<R: Wait, H: Health>(
        &mut self,
        rt: &R,
        alloc: Global,
        health: &mut H,
        config: &Config,
    ) -> Result<Step, Dropped>
        requires servers { H.servers health.old ≡ length config.now.addresses }
        requires ready { IsSessionReady config.now self.old }
        requires tried { IsSome (ended_in self.old.work) }
        ensures ok { IfOk result (λ step. GoesOn H.steps health.old
            (λ calls. WentOn config.now self.old calls step self.new) health.new) }
        ensures err { IfErr result (λ attempts. GoesOn H.steps health.old
            (λ calls. WasDropped config.now self.old calls attempts self.new) health.new) }
        ensures servers { H.servers health.new ≡ H.servers health.old }
    {
        let SessionWork::Key(KeyAtWork { key, wait: _ }) = &mut self.work else {
            unreachable!();
        };
        let Ok(keyed) = key.go_on(&mut self.outbox) else {
            return Err(self.drop_after(Dropped::from(NoMemory)));
        };
        if !keyed {
            return Ok(self.finish(Progress::More));
        }
        let targets = &mut self.targets;
        match key.begin(rt, alloc, health, config, targets, &mut self.outbox) {
            Ok(stage) => Ok(self.go_to(stage)),
            Err(lost) => Err(self.drop_after(lost)),
        }
    }

    /// Keeps how far the key came, and says what is next.
    #[inline(always)]
    pub(super) fn go_to(&mut self, stage: Stage) -> Step
        ensures step { (one : OneKey) → key_in self.old.work ≡ Some one
            → result ≡ step_of stage }
        ensures went { (one : OneKey) → key_in self.old.work ≡ Some one
            → self.new ≡ went stage one self.old }
    {
        match stage {
            Stage::Away(clear, awaited) => {
                self.set_wait(KeyWait::Sent(awaited));
                Step::Asks(clear)
            }
            Stage::Done(trail) => {
                self.set_wait(KeyWait::Tried);
                Step::Tried(trail)
            }
        }
    }

    #[inline(always)]
    fn set_wait(&mut self, wait: KeyWait)
        ensures { (one : OneKey) → key_in self.old.work ≡ Some one
            → self.new ≡ record self.old { work = key_work one wait } }
    {
        if let SessionWork::Key(at) = &mut self.work {
            at.wait = wait;
        }
    }

    /// Counts a request that was answered.
    pub(super) fn finish(&mut self, progress: Progress) -> Step
        ensures step { result ≡ Step.At progress }
        ensures finished { self.new ≡ finished self.old }
    {
        self.work = SessionWork::Between;
        self.requests = self.requests.saturating_add(1);
        Step::At(progress)
    }

    /// Drops the request after these attempts.
    pub(super) fn drop_after(&mut self, lost: Dropped) -> Dropped
        ensures dropped { self.new ≡ dropped self.old }
        ensures attempts { result ≡ lost }
    {
        self.drop_request();
        lost
    }
}

/// How far a session is once it answered this request.
fn progress_of(request: &Request) -> Progress
    ensures { result ≡ progress_of request.now }
{
    match request {
        Request::Quit => Progress::Quit,
        _ => Progress::More,
    }
}
