//! The written form of a value in the text that it was read from. The first line is compared from
//! its end on, word by word and a number digit by digit, so that nothing is printed for it.
ghost use Rattle.std.specs.Prelude.{◌≡◌, ◌++◌, ◌∷◌, ◌+◌, ◌<◌, ℕ, [], List, IfSome, codes};
ghost use Rattle.std.specs.Fmt.{decimal};
ghost use Rattle.tko_text.specs.FirstLines.{first_line};
ghost use Rattle.tko_text.specs.Responses.{cas_text, value_text};

use super::Value;
use bytes::Bytes;

/// The written form of a value and what follows it, without a copy, if the value shares the text
/// that it was read from and they are there: `last` is that after the data, from their CR LF on.
pub(crate) fn shared_text(value: &Value, last: &[u8]) -> Option<Bytes>
    ensures { IfSome result (λ text. (end : List ℕ) → last.now ≡ codes "\r\n" ++ end
        → text ≡ value_text value.now ++ end) }
{
    let part = value.data.part()?;
    let front = before_line(part.before(), value)?;
    part.text_from(front.len(), last)
}

/// What comes before the written first line of a value, if the bytes end with that.
fn before_line<'a>(bytes: &'a [u8], value: &Value) -> Option<&'a [u8]>
    ensures { IfSome result (λ front. bytes.now ≡ front.now ++ first_line value.now) }
{
    let bytes = before_line_end(bytes)?;
    let bytes = before_cas(bytes, value.unique)?;
    let bytes = before_word(bytes, value.data.as_bytes().len() as u64)?;
    let bytes = before_word(bytes, u64::from(value.flags))?;
    let bytes = before_key(bytes, value.key.as_bytes())?;
    before_first_word(bytes)
}

/// What comes before a CR LF, if the bytes end with it.
fn before_line_end(bytes: &[u8]) -> Option<&[u8]>
    ensures { IfSome result (λ front. bytes.now ≡ front.now ++ codes "\r\n") }
{
    match bytes {
        [front @ .., b'\r', b'\n'] => Some(front),
        _ => None,
    }
}

/// What comes before a cas number and its space, if there is one and the bytes end with them.
fn before_cas(bytes: &[u8], unique: Option<u64>) -> Option<&[u8]>
    ensures { IfSome result (λ front. bytes.now ≡ front.now ++ cas_text unique) }
{
    match unique {
        Some(unique) => before_word(bytes, unique),
        None => Some(bytes),
    }
}

/// What comes before a space and a number, if the bytes end with them.
fn before_word(bytes: &[u8], number: u64) -> Option<&[u8]>
    ensures { IfSome result (λ front. bytes.now ≡ front.now ++ (codes " " ++ decimal number)) }
{
    let mut rest = bytes;
    let mut left = number;
    while left >= 10 {
        rest = before_digit(rest, (left % 10) as u8)?;
        left /= 10;
    }
    before_first_digit(rest, left as u8)
}

/// What comes before a digit, if the bytes end with it.
fn before_digit(bytes: &[u8], digit: u8) -> Option<&[u8]>
    requires { digit < 10 }
    ensures { IfSome result (λ front. bytes.now ≡ front.now ++ (48 + digit) ∷ []) }
{
    match bytes {
        [front @ .., last] if *last == b'0' + digit => Some(front),
        _ => None,
    }
}

/// What comes before a space and a digit, if the bytes end with them.
fn before_first_digit(bytes: &[u8], digit: u8) -> Option<&[u8]>
    requires { digit < 10 }
    ensures { IfSome result (λ front. bytes.now ≡ front.now ++ (codes " " ++ (48 + digit) ∷ [])) }
{
    match bytes {
        [front @ .., b' ', first] if *first == b'0' + digit => Some(front),
        _ => None,
    }
}

/// What comes before a key, if the bytes end with it.
fn before_key<'a>(bytes: &'a [u8], key: &[u8]) -> Option<&'a [u8]>
    ensures { IfSome result (λ front. bytes.now ≡ front.now ++ key.now) }
{
    bytes.strip_suffix(key)
}

/// What comes before the word `VALUE` and a space, if the bytes end with them.
#[inline(always)]
fn before_first_word(bytes: &[u8]) -> Option<&[u8]>
    ensures { IfSome result (λ front. bytes.now ≡ front.now ++ codes "VALUE ") }
{
    match bytes {
        [front @ .., b'V', b'A', b'L', b'U', b'E', b' '] => Some(front),
        _ => None,
    }
}
