//! A key goes on where a call that other keys share recorded what came of its send.
ghost use Rattle.std.specs.Prelude.{◌≡◌, ◌++◌, IfErr, IfOk, length};
ghost use Rattle.tko_reply.specs.Asking.{Goes, HasFront, course_of};
ghost use Rattle.tko_reply.specs.Cuts.{EndsBy, IsKeyDropped};
ghost use Rattle.tko_reply.specs.Sends.{AfterSend, IsOutAndRecorded};
ghost use Rattle.tko_reply.specs.Standing.{asking};
ghost use Rattle.tko_route.specs.Routing.{GoesOn, told_of};
ghost use Rattle.tko_route.specs.Trail.{form_at};

use crate::asking::OneKey;
use crate::dropped::Dropped;
use crate::outbox::Outbox;
use std::sync::Wait;
use tko_links::Outcome;
use tko_model::Reply;
use tko_pools::Config;
use tko_route::{AwaitedSend, Health, Stage};

impl OneKey {
    /// Makes the attempt of a send of which this came, where a call that other keys may share
    /// recorded it already and got this reply. Goes on to the next target unless it was answered.
    pub fn recorded<R: Wait, H: Health>(
        &mut self,
        rt: &R,
        health: &mut H,
        config: &Config,
        targets: &[usize],
        outbox: &mut Outbox,
        awaited: AwaitedSend,
        outcome: Outcome,
        reply: Option<Reply>,
    ) -> Result<Stage, Dropped>
        requires servers { H.servers health.old ≡ length config.now.addresses }
        requires front { HasFront self.old.share outbox.old }
        requires sent { IsOutAndRecorded config.now targets.now awaited outcome reply }
        ensures ok { IfOk result (λ stage. GoesOn H.steps health.old
            (λ more. AfterSend config.now (asking awaited self.old) outcome (λ original calls.
            Goes (course_of config.now targets.now self.old original)
            (calls (told_of awaited outcome reply ++ more)) outbox.old
            stage self.new outbox.new)) health.new) }
        ensures dropped { IfErr result (λ trail. IsKeyDropped H.steps self.old.share
            (health.old, outbox.old)
            (λ more. AfterSend config.now (asking awaited self.old) outcome (λ original calls.
            EndsBy targets.now (form_at config.now.failover_exptime original)
            (calls (told_of awaited outcome reply ++ more)) trail)) (health.new, outbox.new)) }
        ensures servers { H.servers health.new ≡ H.servers health.old }
    {
        let exptime = config.failover_exptime();
        let request = &mut self.request;
        let stage = awaited.recorded(rt, health, targets, request, exptime, outcome, reply);
        self.settle(outbox, stage)
    }
}
