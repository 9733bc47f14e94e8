//! Reads the values in a response to a request of several keys.
ghost use Rattle.std.specs.Prelude.{◌≡◌, ◌↔◌, ◌≤◌, ◌<◌, ℕ, ◌++◌, [], ◌∷◌, List, All, true, false, IfOk, IsTrue, MatchOption, MatchResult, OnErr, OnOk, length, map, position, slice_index_or, take};
ghost use Rattle.std.specs.List.{list_any};
ghost use Rattle.std.specs.Str.{bytes_eq};
ghost use Rattle.tko_text.specs.ListingFaults.{IsError, IsErrorLine, IsNextText, IsOtherLine, ErrorFault, ListFault, NotAwaited, ReadsList};
ghost use Rattle.tko_text.specs.ResponseFaults.{ReadsOf, value_line};
ghost use Rattle.tko_text.specs.Places.{keys_at};
ghost use Rattle.tko_text.specs.Responses.{IsHead, IsValueAwaited, Listing, is_among};

use super::line::split_line;
use super::place::ValuePlace;
use super::places::Places;
use super::reader::{Head, head_in, keep_text, split_data, split_end, whole_line};
use super::{Listed, ReadFault, Response};
use crate::{Key, NoMemory};
use bytes::Bytes;
use std::alloc::Global;
use tko_bytes::SpacedWords;

/// The response to a retrieval of several keys, and how many bytes it takes.
pub(super) fn read_list(
    alloc: Global,
    keys: &[Key],
    unique: bool,
    bytes: &[u8],
) -> Result<(Response, usize), ReadFault>
    ensures reads { ReadsOf (Listing keys.now unique) bytes.now result }
    ensures within { IfOk result (λ found. found.1 ≤ length bytes.now) }
{
    match read_places(alloc, keys, unique, bytes) {
        Ok((places, len)) => {
            let text = Bytes::copy_from_slice(alloc, &bytes[..len])?;
            Ok((Response::Listed(Listed::new(text, places)), len))
        }
        Err(ReadFault::Unreadable) => read_error(alloc, bytes),
        Err(ReadFault::Short) => Err(ReadFault::Short),
        Err(ReadFault::Memory) => Err(ReadFault::Memory),
    }
}

/// The same, of bytes that the values may keep.
pub(super) fn take_list(
    alloc: Global,
    keys: &[Key],
    unique: bool,
    bytes: &mut Vec<u8>,
) -> Result<(Response, usize), ReadFault>
    ensures reads { ReadsOf (Listing keys.now unique) bytes.old.items result }
    ensures within { IfOk result (λ found. found.1 ≤ length bytes.old.items) }
    ensures err { OnErr result (bytes.new.items ≡ bytes.old.items) }
{
    match read_places(alloc, keys, unique, bytes.as_slice()) {
        Ok((places, len)) => {
            let mut text = keep_text(alloc, bytes)?;
            text.truncate(len);
            Ok((Response::Listed(Listed::new(text, places)), len))
        }
        Err(ReadFault::Unreadable) => read_error(alloc, bytes.as_slice()),
        Err(ReadFault::Short) => Err(ReadFault::Short),
        Err(ReadFault::Memory) => Err(ReadFault::Memory),
    }
}

/// The response that the first line is, where it is one that any request can have.
fn read_error(alloc: Global, bytes: &[u8]) -> Result<(Response, usize), ReadFault>
    ensures { MatchResult result (λ found. IsErrorLine bytes.now found.0 found.1)
        (λ fault. ErrorFault fault bytes.now) }
{
    let (word, arguments, rest) = split_line(bytes)?;
    let response = whole_line(alloc, word, arguments)?;
    if !is_error(&response) {
        return Err(ReadFault::Unreadable);
    }
    Ok((response, bytes.len() - rest.len()))
}

/// Whether any request can have this response.
fn is_error(response: &Response) -> bool
    ensures { IsTrue result ↔ IsError response.now }
{
    matches!(
        response,
        Response::Error | Response::ClientError(_) | Response::ServerError(_)
    )
}

/// The places of the values, and how many bytes they and the line `END` take.
fn read_places(
    alloc: Global,
    keys: &[Key],
    unique: bool,
    bytes: &[u8],
) -> Result<(Vec<ValuePlace>, usize), ReadFault>
    ensures { MatchResult result
        (λ read. ReadsList keys.now unique bytes.now read.0.items read.1)
        (λ fault. ListFault fault keys.now unique [] bytes.now) }
{
    let mut places = Places::new(alloc, keys.len())?;
    let mut next = 0;
    let mut rest = bytes;
    while let Some(found) = next_value(keys, unique, &places, next, rest)? {
        let begin = bytes.len() - found.rest.len() - BLOCK_END - found.head.size;
        places.push(alloc, &keys[found.index], found.head, begin)?;
        next = found.index + 1;
        rest = found.rest;
    }
    let rest = split_end(rest)?;
    Ok((places.into_vec(), bytes.len() - rest.len()))
}

/// How many bytes follow a value's data: CR LF.
const BLOCK_END: usize = 2;

/// A value that was found: the index of its key, what its first line announces, and what follows
/// its data and their CR LF.
#[derive(Clone, Copy)]
struct Found<'a> {
    index: usize,
    head: Head,
    data: &'a [u8],
    rest: &'a [u8],
}

/// The value that the bytes begin with, if their first word announces one.
fn next_value<'a>(
    keys: &[Key],
    unique: bool,
    had: &Places,
    next: usize,
    bytes: &'a [u8],
) -> Result<Option<Found<'a>>, ReadFault>
    ensures { MatchResult result
        (λ found. MatchOption found (IsOtherLine bytes.now) (λ f. (f.index < length keys.now)
        × IsNextText keys.now unique (keys_at had.now) bytes.now
        (slice_index_or keys.now f.index []) f.head f.data.now f.rest.now))
        (λ fault. ListFault fault keys.now unique (keys_at had.now) bytes.now) }
{
    let (word, arguments, rest) = split_line(bytes)?;
    if word != b"VALUE".as_slice() {
        return Ok(None);
    }
    let Some((index, head)) = awaited_head(keys, unique, had, next, arguments) else {
        return Err(ReadFault::Unreadable);
    };
    let (data, rest) = split_data(rest, head.size)?;
    Ok(Some(Found {
        index,
        head,
        data,
        rest,
    }))
}

/// What the first line of a value announces after the word `VALUE`, and the index of its key, if
/// that was asked for and had no value before.
fn awaited_head(
    keys: &[Key],
    unique: bool,
    had: &Places,
    next: usize,
    arguments: &[u8],
) -> Option<(usize, Head)>
    ensures { MatchOption result
        (NotAwaited keys.now unique (keys_at had.now) (value_line arguments.now))
        (λ found. (found.0 < length keys.now)
        × IsHead (value_line arguments.now) (slice_index_or keys.now found.0 []) found.1.flags
        found.1.size found.1.unique
        × IsValueAwaited keys.now unique (keys_at had.now) (slice_index_or keys.now found.0 [])
        found.1.unique) }
{
    let mut words = SpacedWords::of(arguments);
    let word = words.next()?;
    let index = key_index(keys, next, word)?;
    if had.has(word) {
        return None;
    }
    let Some(head) = head_in(words, unique) else {
        return None;
    };
    Some((index, head))
}

/// The index of a key, which is looked for at the index `next` first, then from there on, and then
/// everywhere.
fn key_index(keys: &[Key], next: usize, key: &[u8]) -> Option<usize>
    ensures { MatchOption result (is_among keys.now key.now ≡ false)
        (λ index. (index < length keys.now) × (slice_index_or keys.now index [] ≡ key.now)) }
{
    let next = next.min(keys.len());
    if let Some(more) = first_index(&keys[next..], key) {
        return Some(next + more);
    }
    first_index(keys, key)
}

/// The first index of a key.
fn first_index(keys: &[Key], key: &[u8]) -> Option<usize>
    ensures { result ≡ position (λ other. bytes_eq other key.now) keys.now }
{
    keys.iter().position(|other| other.as_bytes() == key)
}
