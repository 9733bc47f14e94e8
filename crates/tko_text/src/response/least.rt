//! How long a response has to be at least.
ghost use Rattle.tko_text.specs.ResponseKinds.{kind_seen};
ghost use Rattle.tko_text.specs.ResponseLengths.{IsLeastLength, IsLeastOf};
ghost use Rattle.tko_text.specs.Responses.{Retrieval};

use super::kind::{Expected, SentKind, kind_of};
use super::line::split_line;
use super::reader::value_head;
use crate::{Key, Request};

/// The CR LF that follows a value's data, and the last LF.
const ENDS: usize = 3;

/// A length that no response to the request is shorter than, if it begins with these bytes. It is
/// 0 until they announce a value.
pub(crate) fn least_len(request: &Request, bytes: &[u8]) -> usize
    ensures { IsLeastLength request.now bytes.now result }
{
    match kind_of(request) {
        Some(Expected::Single(kind)) => least_of(kind, bytes),
        Some(Expected::Listing { .. }) => 0,
        None => 0,
    }
}

/// The same for a request of the kind.
fn least_of(kind: SentKind, bytes: &[u8]) -> usize
    ensures { IsLeastOf (kind_seen kind.entry) bytes.now result }
{
    match kind {
        SentKind::Retrieval { key, unique } => least_value(key, unique, bytes),
        _ => 0,
    }
}

/// The same for a retrieval of this key.
fn least_value(key: &Key, unique: bool, bytes: &[u8]) -> usize
    ensures { IsLeastOf (Retrieval key.now unique) bytes.now result }
{
    let Ok((word, arguments, rest)) = split_line(bytes) else {
        return 0;
    };
    if word == b"VALUE".as_slice() {
        return match value_head(arguments, key.as_bytes(), unique) {
            Some(head) => bytes.len() - rest.len() + head.size + ENDS,
            None => 0,
        };
    }
    0
}
