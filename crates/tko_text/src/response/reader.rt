//! Reads a response, a function a form.
ghost use Rattle.std.specs.Prelude.{◌≡◌, ◌≢◌, ℕ, ◌+◌, ◌≤◌, List, [], ◌∷◌, ◌++◌, Option, Some, None, drop, is_some, length, take, Err, IfOk, IfSome, OnErr, MatchOption, MatchResult};
ghost use Rattle.tko_text.specs.ResponseLines.{IsData, IsLineText};
ghost use Rattle.tko_text.specs.ResponseFaults.{BodyFault, DataFault, EndFault, NoHead, Misses, ReadsOf, SplitsBody, SplitsEnd, line_response, value_line, version_response, word_response};
ghost use Rattle.tko_text.specs.Heads.{IsPlaced, value_of};
ghost use Rattle.tko_bytes.specs.Words.{words};
ghost use Rattle.tko_text.specs.ResponseKinds.{kind_seen};
ghost use Rattle.tko_text.specs.Responses.{IsCas, IsHead, Retrieval, block};
ghost use Rattle.tko_text.specs.ResponseReads.{ReadsResponse};

use super::data::DATA_LIMIT;
use super::kind::{Expected, SentKind, kind_of, suits};
use super::line::split_line;
use super::list::{read_list, take_list};
use super::{Data, ReadFault, Response, Text, Value};
use crate::line::{FLAGS_LIMIT, NUMBER_LIMIT};
use crate::{Key, NoMemory, Request};
use bytes::Bytes;
use std::alloc::Global;
use std::mem::replace;
use tko_bytes::{SpacedWords, number, split_word};

/// What the first line of a value announces beside its key.
#[derive(Clone, Copy, Debug)]
pub(super) struct Head {
    pub(super) flags: u32,
    pub(super) size: usize,
    pub(super) unique: Option<u64>,
}

/// The response at the front of the bytes, and how many bytes it takes.
pub(crate) fn read(
    alloc: Global,
    request: &Request,
    bytes: &[u8],
) -> Result<(Response, usize), ReadFault>
    ensures reads { ReadsResponse request.now bytes.now result }
    ensures within { IfOk result (λ found. found.1 ≤ length bytes.now) }
{
    match kind_of(request) {
        Some(Expected::Single(kind)) => read_kind(alloc, kind, bytes),
        Some(Expected::Listing { keys, unique }) => read_list(alloc, keys, unique, bytes),
        None => Err(ReadFault::Unreadable),
    }
}

/// The same, of bytes that a value may keep.
pub(crate) fn take(
    alloc: Global,
    request: &Request,
    bytes: &mut Vec<u8>,
) -> Result<(Response, usize), ReadFault>
    ensures reads { ReadsResponse request.now bytes.old.items result }
    ensures within { IfOk result (λ found. found.1 ≤ length bytes.old.items) }
    ensures err { OnErr result (bytes.new.items ≡ bytes.old.items) }
{
    match kind_of(request) {
        Some(Expected::Single(SentKind::Retrieval { key, unique })) => {
            take_kind(alloc, key, unique, bytes)
        }
        Some(Expected::Listing { keys, unique }) => take_list(alloc, keys, unique, bytes),
        _ => read(alloc, request, bytes.as_slice()),
    }
}

/// The response to a request of the kind.
fn read_kind(alloc: Global, kind: SentKind, bytes: &[u8]) -> Result<(Response, usize), ReadFault>
    ensures reads { ReadsOf (kind_seen kind.entry) bytes.now result }
    ensures within { IfOk result (λ found. found.1 ≤ length bytes.now) }
{
    let (word, arguments, rest) = split_line(bytes)?;
    if word == b"VALUE".as_slice() {
        let (value, rest) = read_value(alloc, kind, arguments, rest)?;
        return Ok((Response::Values(Some(value)), bytes.len() - rest.len()));
    }
    let response = whole_line(alloc, word, arguments)?;
    if !suits(kind, &response) {
        return Err(ReadFault::Unreadable);
    }
    Ok((response, bytes.len() - rest.len()))
}

/// The response that is one line of this first word.
#[tactic(auto, unfolding(crate::specs::ResponseFaults::line_response))]
pub(super) fn whole_line(
    alloc: Global,
    word: &[u8],
    arguments: &[u8],
) -> Result<Response, ReadFault>
    requires { IsLineText arguments.now }
    ensures { MatchResult result
        (λ response. line_response (record { word = word.now; rest = arguments.now })
        ≡ Some response)
        (λ fault. Misses fault (line_response (record { word = word.now; rest = arguments.now }))) }
{
    if word == b"CLIENT_ERROR".as_slice() {
        return Ok(Response::ClientError(copy_text(alloc, arguments)?));
    }
    if word == b"SERVER_ERROR".as_slice() {
        return Ok(Response::ServerError(copy_text(alloc, arguments)?));
    }
    if word == b"VERSION".as_slice() {
        return version(alloc, arguments);
    }
    match SpacedWords::of(arguments).next() {
        None => match word_response(word) {
            Some(response) => Ok(response),
            None => Err(ReadFault::Unreadable),
        },
        Some(_) => Err(ReadFault::Unreadable),
    }
}

/// The version of this text, which has at least one byte.
fn version(alloc: Global, arguments: &[u8]) -> Result<Response, ReadFault>
    requires { IsLineText arguments.now }
    ensures { MatchResult result
        (λ response. version_response (drop 1 arguments.now) ≡ Some response)
        (λ fault. Misses fault (version_response (drop 1 arguments.now))) }
{
    let text = copy_text(alloc, arguments)?;
    if text.as_bytes().is_empty() {
        return Err(ReadFault::Unreadable);
    }
    Ok(Response::Version(text))
}

/// The response that is this word alone.
fn word_response(word: &[u8]) -> Option<Response>
    ensures { result ≡ word_response word.now }
{
    if word == b"END".as_slice() {
        Some(Response::Values(None))
    } else if word == b"STORED".as_slice() {
        Some(Response::Stored)
    } else if word == b"NOT_STORED".as_slice() {
        Some(Response::NotStored)
    } else if word == b"EXISTS".as_slice() {
        Some(Response::Exists)
    } else if word == b"DELETED".as_slice() {
        Some(Response::Deleted)
    } else if word == b"TOUCHED".as_slice() {
        Some(Response::Touched)
    } else if word == b"NOT_FOUND".as_slice() {
        Some(Response::NotFound)
    } else if word == b"ERROR".as_slice() {
        Some(Response::Error)
    } else {
        Some(Response::Number(number(word, NUMBER_LIMIT)?))
    }
}

/// The text that follows the first word: all but one space.
fn copy_text(alloc: Global, arguments: &[u8]) -> Result<Text, NoMemory>
    requires { IsLineText arguments.now }
    ensures { IfOk result (λ copy. copy ≡ drop 1 arguments.now) }
{
    let text = without_first(arguments);
    Ok(Text::new(Vec::from_slice(alloc, text)?))
}

/// The bytes without the first one.
fn without_first(bytes: &[u8]) -> &[u8]
    ensures { result.now ≡ drop 1 bytes.now }
{
    match bytes.split_first() {
        Some((_, rest)) => rest,
        None => bytes,
    }
}

/// What follows the word `VALUE`: the rest of its line, the data, and the line `END`.
fn read_value<'a>(
    alloc: Global,
    kind: SentKind,
    arguments: &[u8],
    rest: &'a [u8],
) -> Result<(Value, &'a [u8]), ReadFault>
    ensures { MatchResult result
        (λ read. SplitsBody (kind_seen kind.entry) (value_line arguments.now) rest.now
        read.0 read.1.now)
        (λ fault. BodyFault fault (kind_seen kind.entry) (value_line arguments.now) rest.now) }
{
    let SentKind::Retrieval { key, unique } = kind else {
        return Err(ReadFault::Unreadable);
    };
    let (head, data, rest) = find_value(key, unique, arguments, rest)?;
    Ok((copy_value(alloc, key, head, data)?, rest))
}

/// The same for a retrieval of this key: what the line announces, the data, and what follows the
/// line `END`.
fn find_value<'a>(
    key: &Key,
    unique: bool,
    arguments: &[u8],
    rest: &'a [u8],
) -> Result<(Head, &'a [u8], &'a [u8]), ReadFault>
    ensures found { MatchResult result
        (λ found. SplitsBody (Retrieval key.now unique) (value_line arguments.now) rest.now
        (value_of key.now found.0 found.1.now) found.2.now)
        (λ fault. BodyFault fault (Retrieval key.now unique) (value_line arguments.now) rest.now) }
    ensures size { IfOk result (λ found. length found.1.now ≡ found.0.size) }
    ensures few { IfOk result (λ found. IsData found.1.now) }
{
    let Some(head) = value_head(arguments, key.as_bytes(), unique) else {
        return Err(ReadFault::Unreadable);
    };
    let (data, rest) = split_data(rest, head.size)?;
    let rest = split_end(rest)?;
    Ok((head, data, rest))
}

/// Where a value is in the bytes that begin with it.
#[derive(Clone, Copy, Debug)]
struct ValueOffsets {
    head: Head,
    /// Where its data begin.
    begin: usize,
    /// How many bytes all of it takes.
    len: usize,
}

/// The place of the value of this key that the bytes begin with, if their first word announces one.
fn place_of_value(key: &Key, unique: bool, bytes: &[u8]) -> Result<Option<ValueOffsets>, ReadFault>
    ensures { MatchResult result
        (λ found. IfSome found (λ place. IsPlaced key.now unique bytes.now place))
        (λ fault. ReadsOf (Retrieval key.now unique) bytes.now (Err fault)) }
{
    let (word, arguments, rest) = split_line(bytes)?;
    if word == b"VALUE".as_slice() {
        let begin = bytes.len() - rest.len();
        let (head, _, rest) = find_value(key, unique, arguments, rest)?;
        let len = bytes.len() - rest.len();
        return Ok(Some(ValueOffsets { head, begin, len }));
    }
    Ok(None)
}

/// The response to a retrieval of this key. A value keeps the bytes.
fn take_kind(
    alloc: Global,
    key: &Key,
    unique: bool,
    bytes: &mut Vec<u8>,
) -> Result<(Response, usize), ReadFault>
    ensures reads { ReadsOf (Retrieval key.now unique) bytes.old.items result }
    ensures within { IfOk result (λ found. found.1 ≤ length bytes.old.items) }
    ensures err { OnErr result (bytes.new.items ≡ bytes.old.items) }
{
    let Some(place) = place_of_value(key, unique, bytes.as_slice())? else {
        return read_kind(alloc, SentKind::Retrieval { key, unique }, bytes.as_slice());
    };
    let key = key.copy(alloc)?;
    let value = Value {
        key,
        flags: place.head.flags,
        data: keep_data(alloc, bytes, place.begin, place.head.size)?,
        unique: place.head.unique,
    };
    Ok((Response::Values(Some(value)), place.len))
}

/// The data of this size that begins there, which keeps all the bytes.
fn keep_data(
    alloc: Global,
    bytes: &mut Vec<u8>,
    begin: usize,
    size: usize,
) -> Result<Data, NoMemory>
    requires within { begin + size ≤ length bytes.old.items }
    requires few { IsData (take size (drop begin bytes.old.items)) }
    ensures ok { IfOk result (λ found. found ≡ take size (drop begin bytes.old.items)) }
    ensures err { OnErr result (bytes.new.items ≡ bytes.old.items) }
{
    let text = keep_text(alloc, bytes)?;
    Ok(Data::part_of(text, begin, size))
}

/// All the bytes as a text, which are not copied. The list is left empty.
pub(super) fn keep_text(alloc: Global, bytes: &mut Vec<u8>) -> Result<Bytes, NoMemory>
    ensures ok { IfOk result (λ text. text ≡ bytes.old.items) }
    ensures err { OnErr result (bytes.new.items ≡ bytes.old.items) }
{
    match Bytes::from_vec(replace(bytes, Vec::new(alloc))) {
        Ok(text) => Ok(text),
        Err(refused) => {
            *bytes = refused.value;
            Err(NoMemory)
        }
    }
}

/// What the first line of a value of this key announces after the word `VALUE`.
pub(super) fn value_head(arguments: &[u8], key: &[u8], unique: bool) -> Option<Head>
    ensures { MatchOption result (NoHead (value_line arguments.now) key.now unique)
        (λ head. (is_some head.unique ≡ unique)
        × IsHead (value_line arguments.now) key.now head.flags head.size head.unique) }
{
    let mut words = SpacedWords::of(arguments);
    if words.next()? != key {
        return None;
    }
    head_in(words, unique)
}

/// What the words behind the key of a value's first line announce.
pub(super) fn head_in(mut rest: SpacedWords, unique: bool) -> Option<Head>
    ensures { (arguments key : List ℕ) → words arguments ≡ key ∷ rest.entry
        → MatchOption result (NoHead (value_line arguments) key unique)
        (λ head. (is_some head.unique ≡ unique)
        × IsHead (value_line arguments) key head.flags head.size head.unique) }
{
    let flags = rest.next()?;
    let size = rest.next()?;
    let flags = number(flags, FLAGS_LIMIT)? as u32;
    let size = number(size, DATA_LIMIT as u64)? as usize;
    let unique = cas_number(rest, unique)?;
    Some(Head {
        flags,
        size,
        unique,
    })
}

/// The cas number that the last words of a value's first line are, where it has one.
fn cas_number(mut words: SpacedWords, unique: bool) -> Option<Option<u64>>
    ensures { MatchOption result
        ((cas : Option ℕ) → is_some cas ≡ unique → IsCas words.entry cas → ⊥)
        (λ cas. (is_some cas ≡ unique) × IsCas words.entry cas) }
{
    let cas = if unique {
        Some(number(words.next()?, NUMBER_LIMIT)?)
    } else {
        None
    };
    if !words.is_done() {
        return None;
    }
    Some(cas)
}

/// The first `size` bytes, which are data, and what follows their CR LF.
pub(super) fn split_data(bytes: &[u8], size: usize) -> Result<(&[u8], &[u8]), ReadFault>
    ensures { MatchResult result
        (λ split. (length split.0.now ≡ size) × (bytes.now ≡ block split.0.now ++ split.1.now))
        (λ fault. DataFault fault size bytes.now) }
{
    if bytes.len() <= size {
        return Err(ReadFault::Short);
    }
    if bytes[size] != b'\r' {
        return Err(ReadFault::Unreadable);
    }
    if bytes.len() == size + 1 {
        return Err(ReadFault::Short);
    }
    if bytes[size + 1] != b'\n' {
        return Err(ReadFault::Unreadable);
    }
    Ok((&bytes[..size], &bytes[size + 2..]))
}

/// What follows the line `END`.
pub(super) fn split_end(bytes: &[u8]) -> Result<&[u8], ReadFault>
    ensures { MatchResult result (λ rest. SplitsEnd bytes.now rest.now)
        (λ fault. EndFault fault bytes.now) }
{
    if let Some(rest) = bytes.strip_prefix(b"END\r\n") {
        return Ok(rest);
    }
    let (word, arguments, rest) = split_line(bytes)?;
    if word != b"END".as_slice() {
        return Err(ReadFault::Unreadable);
    }
    match split_word(arguments) {
        None => Ok(rest),
        Some(_) => Err(ReadFault::Unreadable),
    }
}

fn copy_value(alloc: Global, key: &Key, head: Head, bytes: &[u8]) -> Result<Value, NoMemory>
    requires { IsData bytes.now }
    ensures key { IfOk result (λ value. value.key ≡ key.now) }
    ensures flags { IfOk result (λ value. value.flags ≡ head.flags) }
    ensures bytes { IfOk result (λ value. value.data ≡ bytes.now) }
    ensures unique { IfOk result (λ value. value.unique ≡ head.unique) }
{
    let key = key.copy(alloc)?;
    let data = Data::new(Vec::from_slice(alloc, bytes)?);
    Ok(Value {
        key,
        flags: head.flags,
        data,
        unique: head.unique,
    })
}
