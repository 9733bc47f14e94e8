//! What came of a send is recorded.
ghost use Rattle.std.specs.Prelude.{◌≡◌, ◌↔◌, ◌<◌, IsSome, IsTrue, Some};
ghost use Rattle.tko_route.specs.Trail.{IsRecorded, answer_of, op_of, outcome_of, recorded_reply, server_of};

use crate::attempt::Attempt;
use std::sync::Wait;
use tko_health::Health;
use tko_links::Outcome;
use tko_model::Reply;

/// Whether the last of these attempts was answered.
pub(crate) fn is_answered(attempts: &[Attempt]) -> bool
    ensures { IsTrue result ↔ IsSome (answer_of attempts.now) }
{
    matches!(attempts.last(), Some(last) if last.is_answer())
}

/// Records the outcome of a send at the tracker. This is the table of outcomes.
pub fn record_outcome<R: Wait, H: Health>(
    rt: &R,
    health: &mut H,
    server: usize,
    outcome: &Outcome,
) -> Option<Reply>
    requires { server < H.servers health.old }
    ensures recorded { IsRecorded H.steps health.old
        server (op_of outcome.now) result health.new }
    ensures servers { H.servers health.new ≡ H.servers health.old }
{
    match outcome {
        Outcome::Reply(_) => Some(health.success(rt, server)),
        Outcome::Refused => Some(health.hard_failure(rt, server)),
        Outcome::Timeout | Outcome::Broken => Some(health.soft_failure(rt, server)),
        Outcome::Aborted | Outcome::Spent => None,
    }
}

/// The attempt of a send of which this came, with the reply to the call that recorded it.
pub(crate) fn conclude(server: usize, outcome: Outcome, reply: Option<Reply>) -> Attempt
    requires { IsSome reply ↔ IsSome (op_of outcome) }
    ensures outcome { outcome_of result ≡ Some outcome }
    ensures reply { recorded_reply result ≡ reply }
    ensures server { server_of result ≡ server }
{
    match reply {
        Some(reply) => Attempt::Sent(server, outcome, reply),
        None if matches!(outcome, Outcome::Aborted) => Attempt::Aborted(server),
        None => Attempt::Spent(server),
    }
}
