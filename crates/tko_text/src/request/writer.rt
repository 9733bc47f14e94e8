//! Prints a request.
ghost use Rattle.std.specs.Prelude.{◌≡◌, ◌++◌, ◌∷◌, codes, length, take, OnOk, OnErr};
ghost use Rattle.std.specs.Fmt.{decimal, signed_decimal};
ghost use Rattle.tko_bytes.specs.Lines.{crlf};
ghost use Rattle.tko_bytes.specs.Words.{space};
ghost use Rattle.tko_text.specs.Requests.{line_of_words, noreply_text, noreply_words, request_text, stored_pieces, stored_text};

use super::{Entry, Request};
use crate::{Key, Keys, NoMemory};
use itoa::Buffer;
use tko_bytes::append;

/// Puts the printed form at the end.
#[tactic(auto, unfolding(crate::specs::Requests::request_text))]
pub(crate) fn append_request(request: &Request, out: &mut Vec<u8>) -> Result<(), NoMemory>
    ensures ok { OnOk result (out.new.items ≡ out.old.items ++ request_text request.now) }
    ensures err { OnErr result (out.new.items ≡ out.old.items) }
{
    match request {
        Request::Get { keys } => append_keys(b"get", keys, out),
        Request::Gets { keys } => append_keys(b"gets", keys, out),
        Request::Store {
            verb,
            entry,
            noreply,
        } => { append_entry(verb.word(), entry, None, *noreply, out) }
        Request::Cas {
            entry,
            unique,
            noreply,
        } => append_entry(b"cas", entry, Some(*unique), *noreply, out),
        Request::Delete { key, noreply } => append_delete(key, *noreply, out),
        Request::Incr {
            key,
            amount,
            noreply,
        } => { append_counted(b"incr", key, *amount, *noreply, out) }
        Request::Decr {
            key,
            amount,
            noreply,
        } => { append_counted(b"decr", key, *amount, *noreply, out) }
        Request::Touch {
            key,
            expiry,
            noreply,
        } => append_touch(key, *expiry, *noreply, out),
        Request::Version => append(out, &[b"version\r\n"]),
        Request::Quit => append(out, &[b"quit\r\n"]),
        Request::StatsTko => append(out, &[b"stats tko\r\n"]),
    }
}

/// The word `noreply` and the space before it, or nothing.
fn noreply_text<'a>(noreply: bool) -> &'a [u8]
    ensures { result.now ≡ noreply_text noreply }
{
    if noreply { b" noreply" } else { b"" }
}

/// Puts a `get` or a `gets` at the end. One of a single key, as a server gets it, is put there at
/// once.
fn append_keys<'a>(word: &'a [u8], keys: &'a Keys, out: &mut Vec<u8>) -> Result<(), NoMemory>
    ensures ok { OnOk result
        (out.new.items ≡ out.old.items ++ line_of_words (word.now ∷ keys.now)) }
    ensures err { OnErr result (out.new.items ≡ out.old.items) }
{
    if let [key] = keys.as_slice() {
        return append(out, &[word, b" ", key.as_bytes(), b"\r\n"]);
    }
    let before = out.len();
    let done = push_keys(word, keys.as_slice(), out);
    if done.is_err() {
        out.truncate(before);
    }
    done
}

/// The same, but that a part of it may be there at an `Err`.
#[tactic(auto, using(crate::proofs::PrintLemmas::keys_line))]
fn push_keys(word: &[u8], keys: &[Key], out: &mut Vec<u8>) -> Result<(), NoMemory>
    ensures ok { OnOk result
        (out.new.items ≡ out.old.items ++ line_of_words (word.now ∷ keys.now)) }
    ensures err { OnErr result (take (length out.old.items) out.new.items ≡ out.old.items) }
{
    append(out, &[word])?;
    for key in keys {
        append(out, &[b" ", key.as_bytes()])?;
    }
    append(out, &[b"\r\n"])
}

/// Puts a `delete` at the end.
fn append_delete(key: &Key, noreply: bool, out: &mut Vec<u8>) -> Result<(), NoMemory>
    ensures ok { OnOk result (out.new.items ≡ out.old.items
        ++ line_of_words (codes "delete" ∷ key.now ∷ noreply_words noreply)) }
    ensures err { OnErr result (out.new.items ≡ out.old.items) }
{
    append(
        out,
        &[b"delete ", key.as_bytes(), noreply_text(noreply), b"\r\n"],
    )
}

/// Puts an `incr` or a `decr` at the end.
fn append_counted<'a>(
    word: &'a [u8],
    key: &'a Key,
    amount: u64,
    noreply: bool,
    out: &mut Vec<u8>,
) -> Result<(), NoMemory>
    ensures ok { OnOk result (out.new.items ≡ out.old.items
        ++ line_of_words (word.now ∷ key.now ∷ decimal amount ∷ noreply_words noreply)) }
    ensures err { OnErr result (out.new.items ≡ out.old.items) }
{
    let mut digits = Buffer::new();
    let amount = digits.format(amount).as_bytes();
    append(
        out,
        &[
            word,
            b" ",
            key.as_bytes(),
            b" ",
            amount,
            noreply_text(noreply),
            b"\r\n",
        ],
    )
}

/// Puts a `touch` at the end.
fn append_touch(key: &Key, expiry: i64, noreply: bool, out: &mut Vec<u8>) -> Result<(), NoMemory>
    ensures ok { OnOk result (out.new.items ≡ out.old.items
        ++ line_of_words (codes "touch" ∷ key.now ∷ signed_decimal expiry
        ∷ noreply_words noreply)) }
    ensures err { OnErr result (out.new.items ≡ out.old.items) }
{
    let mut digits = Buffer::new();
    let expiry = digits.format(expiry).as_bytes();
    append(
        out,
        &[
            b"touch ",
            key.as_bytes(),
            b" ",
            expiry,
            noreply_text(noreply),
            b"\r\n",
        ],
    )
}

/// Puts a storage request at the end, with its cas number where it has one.
fn append_entry(
    word: &[u8],
    entry: &Entry,
    unique: Option<u64>,
    noreply: bool,
    out: &mut Vec<u8>,
) -> Result<(), NoMemory>
    ensures ok { OnOk result
        (out.new.items ≡ out.old.items ++ stored_text word.now entry.now unique noreply) }
    ensures err { OnErr result (out.new.items ≡ out.old.items) }
{
    match unique {
        None => append_pieces(word, entry, b"", b"", noreply, out),
        Some(unique) => {
            let mut digits = Buffer::new();
            append_pieces(
                word,
                entry,
                b" ",
                digits.format(unique).as_bytes(),
                noreply,
                out,
            )
        }
    }
}

/// The same with this space and cas number, or two empty texts.
fn append_pieces<'a>(
    word: &'a [u8],
    entry: &'a Entry,
    space: &'a [u8],
    unique: &'a [u8],
    noreply: bool,
    out: &mut Vec<u8>,
) -> Result<(), NoMemory>
    ensures ok { OnOk result (out.new.items ≡ out.old.items
        ++ stored_pieces word.now entry.now (space.now ++ unique.now ++ noreply_text noreply)) }
    ensures err { OnErr result (out.new.items ≡ out.old.items) }
{
    let value = entry.value.as_bytes();
    let (mut flags, mut expiry, mut size) = (Buffer::new(), Buffer::new(), Buffer::new());
    let pieces = [
        word,
        b" ",
        entry.key.as_bytes(),
        b" ",
        flags.format(entry.flags).as_bytes(),
        b" ",
        expiry.format(entry.expiry).as_bytes(),
        b" ",
        size.format(value.len()).as_bytes(),
        space,
        unique,
        noreply_text(noreply),
        b"\r\n",
        value,
        b"\r\n",
    ];
    append(out, &pieces)
}
