//! How many requests there were, and what became of them.
ghost use Rattle.std.specs.Prelude.{◌≡◌, IsOk, count_by};
ghost use Rattle.tko_reply.specs.Counting.{counted, is_replied, is_sent_attempt, is_skipped};
ghost use Rattle.tko_reply.specs.TrailEvents.{Asked, Tried};

use crate::Trails;
use tko_bytes::NoMemory;
use tko_io::IoRuntime;
use tko_links::Outcome;
use tko_model::{Counts, Kind};
use tko_route::{Attempt, Trail};
use tko_text::Request;

/// Counts the requests and what became of them; probes are no part of a trail.
impl Trails for Counts {
    ghost records = { λ old event new. new ≡ counted old event };

    fn request<R: IoRuntime>(&mut self, _rt: &R, _request: &Request) -> Result<(), NoMemory>
        ensures counted { self.new ≡ counted self.old (Asked _request.now) }
        ensures ok { IsOk result }
    {
        *self = self.saturating_add(Kind::Request, 1);
        Ok(())
    }

    fn trail<R: IoRuntime>(&mut self, _rt: &R, trail: Trail) -> Result<(), NoMemory>
        ensures counted { self.new ≡ counted self.old (Tried trail) }
        ensures ok { IsOk result }
    {
        let attempts = trail.attempts();
        let replies = replies_in(attempts);
        let unanswered = replies == 0;
        *self = self
            .saturating_add(Kind::Attempt, sends_in(attempts))
            .saturating_add(Kind::Skip, skips_in(attempts))
            .saturating_add(Kind::Reply, replies)
            .saturating_add(Kind::NoServer, u64::from(unanswered));
        Ok(())
    }
}

fn sends_in(attempts: &[Attempt]) -> u64
    ensures { result ≡ count_by is_sent_attempt attempts.now }
{
    attempts.iter().filter(|it| is_sent(it)).count() as u64
}

fn skips_in(attempts: &[Attempt]) -> u64
    ensures { result ≡ count_by is_skipped attempts.now }
{
    attempts.iter().filter(|it| is_skipped(it)).count() as u64
}

fn replies_in(attempts: &[Attempt]) -> u64
    ensures { result ≡ count_by is_replied attempts.now }
{
    attempts.iter().filter(|it| is_replied(it)).count() as u64
}

fn is_sent(attempt: &Attempt) -> bool
    ensures { result ≡ is_sent_attempt attempt.now }
{
    matches!(attempt, Attempt::Sent(_, _, _) | Attempt::Aborted(_))
}

fn is_skipped(attempt: &Attempt) -> bool
    ensures { result ≡ is_skipped attempt.now }
{
    matches!(attempt, Attempt::Skipped(_, _))
}

fn is_replied(attempt: &Attempt) -> bool
    ensures { result ≡ is_replied attempt.now }
{
    matches!(attempt, Attempt::Sent(_, Outcome::Reply(_), _))
}
