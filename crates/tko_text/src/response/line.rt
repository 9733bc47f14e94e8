//! The first line of a response.
ghost use Rattle.std.specs.Prelude.{◌≡◌, MatchResult};
ghost use Rattle.tko_text.specs.ResponseLines.{SplitsLine, split_of};
ghost use Rattle.tko_text.specs.ResponseFaults.{LineFault};

use super::ReadFault;
use crate::line::LINE_LIMIT;
use tko_bytes::{content, split_word};

/// The first word of the first line, the bytes of the line that follow it, and those that follow
/// the line.
pub(crate) fn split_line(bytes: &[u8]) -> Result<(&[u8], &[u8], &[u8]), ReadFault>
    ensures { MatchResult result
        (λ split. SplitsLine bytes.now (record { word = split.0.now; rest = split.1.now })
        split.2.now)
        (λ fault. LineFault fault bytes.now) }
{
    match tko_bytes::split_line(bytes) {
        Some((line, rest)) if line.len() <= LINE_LIMIT => {
            let (word, arguments) = first_word(content(line));
            Ok((word, arguments, rest))
        }
        Some(_) => Err(ReadFault::Unreadable),
        None if bytes.len() <= LINE_LIMIT => Err(ReadFault::Short),
        None => Err(ReadFault::Unreadable),
    }
}

/// The first word of a line, which is empty where the line has none, and the bytes that follow it.
fn first_word(line: &[u8]) -> (&[u8], &[u8])
    ensures { record { word = result.0.now; rest = result.1.now } ≡ split_of line.now }
{
    match split_word(line) {
        Some(split) => split,
        None => (&[], &[]),
    }
}
