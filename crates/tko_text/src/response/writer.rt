//! Writes a response.
ghost use Rattle.std.specs.Prelude.{◌≡◌, ◌++◌, ℕ, [], All, List, None, Some, OnOk, OnErr, codes, flat_map, length, take};
ghost use Rattle.std.specs.Fmt.{decimal};
ghost use Rattle.tko_text.specs.Places.{IsPlaceIn, parts, value_at, values_in};
ghost use Rattle.tko_text.specs.Responses.{found_text, response_text, value_text};

use super::place::ValuePlace;
use super::{Listed, Response, Value};
use crate::{Key, NoMemory};
use itoa::Buffer;
use tko_bytes::append;

/// Puts the written form at the end.
#[tactic(auto, unfolding(crate::specs::Responses::response_text))]
pub(crate) fn append_response(response: &Response, out: &mut Vec<u8>) -> Result<(), NoMemory>
    ensures ok { OnOk result (out.new.items ≡ out.old.items ++ response_text response.now) }
    ensures err { OnErr result (out.new.items ≡ out.old.items) }
{
    match response {
        Response::Values(None) => append(out, &[b"END\r\n"]),
        Response::Values(Some(value)) => append_value(value, b"\r\nEND\r\n", out),
        Response::Listed(listed) => append_listed(listed, out),
        Response::Stored => append(out, &[b"STORED\r\n"]),
        Response::NotStored => append(out, &[b"NOT_STORED\r\n"]),
        Response::Exists => append(out, &[b"EXISTS\r\n"]),
        Response::Deleted => append(out, &[b"DELETED\r\n"]),
        Response::Touched => append(out, &[b"TOUCHED\r\n"]),
        Response::NotFound => append(out, &[b"NOT_FOUND\r\n"]),
        Response::Number(n) => append_number(*n, out),
        Response::Version(text) => append(out, &[b"VERSION ", text.as_bytes(), b"\r\n"]),
        Response::Error => append(out, &[b"ERROR\r\n"]),
        Response::ClientError(text) => {
            append(out, &[b"CLIENT_ERROR ", text.as_bytes(), b"\r\n"])
        }
        Response::ServerError(text) => {
            append(out, &[b"SERVER_ERROR ", text.as_bytes(), b"\r\n"])
        }
    }
}

/// Puts the line of a number at the end.
#[tactic(auto, unfolding(crate::specs::Responses::response_text))]
fn append_number(n: u64, out: &mut Vec<u8>) -> Result<(), NoMemory>
    ensures ok { OnOk result (out.new.items ≡ out.old.items ++ response_text (Response.Number n)) }
    ensures err { OnErr result (out.new.items ≡ out.old.items) }
{
    let mut digits = Buffer::new();
    append(out, &[digits.format(n).as_bytes(), b"\r\n"])
}

/// Puts the values of a list and the line `END` at the end.
#[tactic(auto, unfolding(crate::specs::Responses::response_text))]
fn append_listed(listed: &Listed, out: &mut Vec<u8>) -> Result<(), NoMemory>
    ensures ok { OnOk result
        (out.new.items ≡ out.old.items ++ response_text (Response.Listed listed.now)) }
    ensures err { OnErr result (out.new.items ≡ out.old.items) }
{
    let len = out.len();
    if listed.append_to(out).is_ok() && append(out, &[b"END\r\n"]).is_ok() {
        return Ok(());
    }
    out.truncate(len);
    Err(NoMemory)
}

/// Puts the written form of the values at these places of a text at the end. At an `Err` a part of
/// it may be there.
pub(super) fn append_places(
    text: &[u8],
    places: &[ValuePlace],
    out: &mut Vec<u8>,
) -> Result<(), NoMemory>
    requires { All (IsPlaceIn text.now) places.now }
    ensures ok { OnOk result
        (out.new.items ≡ out.old.items ++ flat_map value_text (values_in text.now places.now)) }
    ensures err { OnErr result (take (length out.old.items) out.new.items ≡ out.old.items) }
{
    for place in places {
        append_place(text, place, out)?;
    }
    Ok(())
}

/// Puts the written form of the value at this place of a text at the end.
fn append_place<'a>(
    text: &'a [u8],
    place: &'a ValuePlace,
    out: &mut Vec<u8>,
) -> Result<(), NoMemory>
    requires { IsPlaceIn text.now place.now }
    ensures ok { OnOk result
        (out.new.items ≡ out.old.items ++ value_text (value_at text.now place.now)) }
    ensures err { OnErr result (out.new.items ≡ out.old.items) }
{
    let head = place.head;
    let bytes = &text[place.begin..place.begin + head.size];
    append_parts(&place.key, head.flags, bytes, head.unique, b"\r\n", out)
}

/// Puts the written form of a value at the end, and what follows it: `last` is that after the CR LF
/// of the data.
pub(crate) fn append_value<'a>(
    value: &'a Value,
    last: &'a [u8],
    out: &mut Vec<u8>,
) -> Result<(), NoMemory>
    ensures ok { OnOk result ((end : List ℕ) → last.now ≡ codes "\r\n" ++ end
        → out.new.items ≡ out.old.items ++ value_text value.now ++ end) }
    ensures err { OnErr result (out.new.items ≡ out.old.items) }
{
    append_parts(
        &value.key,
        value.flags,
        value.data.as_bytes(),
        value.unique,
        last,
        out,
    )
}

/// The same, of a value's parts.
fn append_parts<'a>(
    key: &'a Key,
    flags: u32,
    bytes: &'a [u8],
    unique: Option<u64>,
    last: &'a [u8],
    out: &mut Vec<u8>,
) -> Result<(), NoMemory>
    ensures ok { OnOk result ((end : List ℕ) → last.now ≡ codes "\r\n" ++ end
        → out.new.items ≡ out.old.items
        ++ value_text (parts key.now flags bytes.now unique) ++ end) }
    ensures err { OnErr result (out.new.items ≡ out.old.items) }
{
    match unique {
        None => append_pieces(key, flags, bytes, b"", b"", last, out),
        Some(unique) => {
            let mut digits = Buffer::new();
            append_pieces(
                key,
                flags,
                bytes,
                b" ",
                digits.format(unique).as_bytes(),
                last,
                out,
            )
        }
    }
}

/// The same with this space and cas number, or two empty texts.
fn append_pieces<'a>(
    key: &'a Key,
    flags: u32,
    bytes: &'a [u8],
    space: &'a [u8],
    unique: &'a [u8],
    last: &'a [u8],
    out: &mut Vec<u8>,
) -> Result<(), NoMemory>
    ensures ok { OnOk result ((end : List ℕ) → last.now ≡ codes "\r\n" ++ end
        → out.new.items ≡ out.old.items ++ found_text
        (parts key.now flags bytes.now None) (space.now ++ unique.now) ++ end) }
    ensures err { OnErr result (out.new.items ≡ out.old.items) }
{
    let (mut flag_digits, mut size) = (Buffer::new(), Buffer::new());
    let pieces = [
        b"VALUE ",
        key.as_bytes(),
        b" ",
        flag_digits.format(flags).as_bytes(),
        b" ",
        size.format(bytes.len()).as_bytes(),
        space,
        unique,
        b"\r\n",
        bytes,
        last,
    ];
    append(out, &pieces)
}
