//! As what the metrics count requests, refused lines, and what came of an attempt.
ghost use Rattle.std.specs.Prelude.{◌≡◌};
ghost use Rattle.tko_threads.specs.Tallied.{counted_command, end_of, refusal_of};

use tko_links::Outcome;
use tko_metrics::{Command, Refusal, SentEnd};
use tko_route::Attempt;
use tko_text::{Request, TextFault, Verb};

/// The command of a request.
pub(crate) fn counted_command(request: &Request) -> Command
    ensures { result ≡ counted_command request.now }
{
    match request {
        Request::Get { .. } => Command::Get,
        Request::Gets { .. } => Command::Gets,
        Request::Store {
            verb: Verb::Set,
            ..
        } => Command::Set,
        Request::Store {
            verb: Verb::Add,
            ..
        } => Command::Add,
        Request::Store {
            verb: Verb::Replace,
            ..
        } => Command::Replace,
        Request::Store {
            verb: Verb::Append,
            ..
        } => Command::Append,
        Request::Store {
            verb: Verb::Prepend,
            ..
        } => Command::Prepend,
        Request::Cas { .. } => Command::Cas,
        Request::Delete { .. } => Command::Delete,
        Request::Incr { .. } => Command::Incr,
        Request::Decr { .. } => Command::Decr,
        Request::Touch { .. } => Command::Touch,
        Request::Version => Command::Version,
        Request::Quit => Command::Quit,
        Request::StatsTko => Command::Stats,
    }
}

/// Why a line was refused.
pub(crate) fn refusal_of(fault: TextFault) -> Refusal
    ensures { result ≡ refusal_of fault }
{
    match fault {
        TextFault::UnknownCommand => Refusal::UnknownCommand,
        TextFault::BadLine => Refusal::BadLine,
        TextFault::BadKey => Refusal::BadKey,
        TextFault::BadChunk => Refusal::BadChunk,
        TextFault::TooLarge => Refusal::TooLarge,
        TextFault::LineTooLong => Refusal::LineTooLong,
    }
}

/// Which server an attempt was sent to, and what came of that, if it was sent.
pub(crate) fn end_of(attempt: &Attempt) -> Option<(usize, SentEnd)>
    ensures { result ≡ end_of attempt.now }
{
    match attempt {
        Attempt::Sent(server, Outcome::Reply(_), _) => Some((*server, SentEnd::Reply)),
        Attempt::Sent(server, Outcome::Timeout, _) => Some((*server, SentEnd::Timeout)),
        Attempt::Sent(server, Outcome::Refused, _) => Some((*server, SentEnd::Refused)),
        Attempt::Sent(server, Outcome::Broken, _) => Some((*server, SentEnd::Broken)),
        Attempt::Sent(server, Outcome::Aborted, _) => Some((*server, SentEnd::Aborted)),
        Attempt::Aborted(server) => Some((*server, SentEnd::Aborted)),
        Attempt::Sent(_, Outcome::Spent, _) | Attempt::Spent(_) | Attempt::Skipped(_, _) => None,
    }
}
