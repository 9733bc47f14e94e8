//! The requests that a server answers, by the responses that they can have.
ghost use Rattle.std.specs.Prelude.{◌≡◌, ◌↔◌, IsTrue, option_map};
ghost use Rattle.tko_text.specs.ResponseKinds.{expected, kind_seen};
ghost use Rattle.tko_text.specs.ResponseLines.{Split};
ghost use Rattle.tko_text.specs.Responses.{Says, Suits, request_kind, retrieval_kind};

use super::Response;
use crate::{Key, Request};

/// The kind of a request that is sent to a server, where it has one key at most.
#[derive(Clone, Copy)]
pub(crate) enum SentKind<'a> {
    /// A value of this key, with its cas number or without.
    Retrieval { key: &'a Key, unique: bool },
    Storage,
    Deletion,
    Counting,
    Touching,
    Probe,
}

/// What a server is asked for.
#[derive(Clone, Copy)]
pub(crate) enum Expected<'a> {
    /// One thing.
    Single(SentKind<'a>),
    /// Values of these keys, two or more, each with its cas number or without.
    Listing { keys: &'a [Key], unique: bool },
}

/// What a request asks a server for. `quit` and `stats tko` are never sent to one.
pub(crate) fn kind_of(request: &Request) -> Option<Expected<'_>>
    ensures { option_map expected result ≡ request_kind request.now }
{
    match request {
        Request::Get { keys } => retrieval(keys.as_slice(), false),
        Request::Gets { keys } => retrieval(keys.as_slice(), true),
        Request::Store { .. } | Request::Cas { .. } => Some(Expected::Single(SentKind::Storage)),
        Request::Delete { .. } => Some(Expected::Single(SentKind::Deletion)),
        Request::Incr { .. } | Request::Decr { .. } => Some(Expected::Single(SentKind::Counting)),
        Request::Touch { .. } => Some(Expected::Single(SentKind::Touching)),
        Request::Version => Some(Expected::Single(SentKind::Probe)),
        Request::Quit | Request::StatsTko => None,
    }
}

/// What a request of these keys asks for.
fn retrieval(keys: &[Key], unique: bool) -> Option<Expected<'_>>
    ensures { option_map expected result ≡ retrieval_kind keys.now unique }
{
    match keys {
        [] => None,
        [key] => Some(Expected::Single(SentKind::Retrieval { key, unique })),
        _ => Some(Expected::Listing { keys, unique }),
    }
}

/// Whether a request of the kind can have this response, a value apart.
pub(crate) fn suits(kind: SentKind, response: &Response) -> bool
    ensures { (line : Split) → Says line response.now
        → IsTrue result ↔ Suits (kind_seen kind.entry) response.now }
{
    match response {
        Response::Values(_) => matches!(kind, SentKind::Retrieval { .. }),
        Response::Listed(_) => false,
        Response::Stored | Response::NotStored | Response::Exists => {
            matches!(kind, SentKind::Storage)
        }
        Response::Deleted => matches!(kind, SentKind::Deletion),
        Response::Touched => matches!(kind, SentKind::Touching),
        Response::NotFound => matches!(
            kind,
            SentKind::Storage | SentKind::Deletion | SentKind::Counting | SentKind::Touching
        ),
        Response::Number(_) => matches!(kind, SentKind::Counting),
        Response::Version(_) => matches!(kind, SentKind::Probe),
        Response::Error | Response::ClientError(_) | Response::ServerError(_) => true,
    }
}
