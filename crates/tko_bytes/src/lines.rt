//! Lines, which end with LF or CR LF.
ghost use Rattle.std.specs.Prelude.{◌≡◌, ◌<◌, ◌∷◌, length, MatchOption};
ghost use Rattle.tko_bytes.specs.Lines.{HasNoEnd, SplitsAtEnd, content, lines_of};

use memchr::memchr;

/// The bytes before the first LF, and what follows that LF.
pub fn split_line(text: &[u8]) -> Option<(&[u8], &[u8])>
    ensures { MatchOption result (HasNoEnd text.now)
        (λ split. SplitsAtEnd text.now split.0.now split.1.now) }
{
    let end = memchr(b'\n', text)?;
    Some((&text[..end], &text[end + 1..]))
}

/// What a line holds: the bytes before its LF without the one CR at their end, if it has one.
pub fn content(line: &[u8]) -> &[u8]
    ensures { result.now ≡ content line.now }
{
    if line.is_empty() || line[line.len() - 1] != b'\r' {
        return line;
    }
    &line[..line.len() - 1]
}

/// The first line of a text that isn't empty, and what follows that line. The last line may end
/// with the text; it then keeps a CR at its end.
pub fn first_line(text: &[u8]) -> (&[u8], &[u8])
    requires { 0 < length text.now }
    ensures lines { lines_of text.now ≡ result.0.now ∷ lines_of result.1.now }
    ensures shorter { length result.1.now < length text.now }
{
    match split_line(text) {
        Some((line, rest)) => (content(line), rest),
        None => (text, &text[text.len()..]),
    }
}
