//! Request lines, parsed word by word.
ghost use Rattle.std.specs.Prelude.{◌≡◌, ◌≢◌, ◌∷◌, Some, None, IfOk, MatchOption, true};
ghost use Rattle.tko_text.specs.Commands.{Announced, announced, announced_by, entry_with, keys_of, noreply, parsed, parsed_bare, parsed_form, parsed_stats, with_data};
ghost use Rattle.tko_text.specs.Keys.{is_key};
ghost use Rattle.tko_text.specs.Parsed.{IsWithinLimits, counter_form, meaning, stored_by};

use crate::expiry::expiry_of;
use crate::form::{Form, form_of};
use crate::response::DATA_LIMIT;
use crate::{Key, Keys, NoMemory, Request, TextFault, Verb};
use std::alloc::Global;
use tko_bytes::{SpacedWords, number};

/// How many bytes a line may have before its LF, a CR counted.
pub const LINE_LIMIT: usize = 65_536;

/// The greatest flags.
pub(crate) const FLAGS_LIMIT: u64 = 4_294_967_295;

/// The greatest size, cas number or amount.
pub(crate) const NUMBER_LIMIT: u64 = 18_446_744_073_709_551_615;

/// The command word of a storage request.
#[derive(Clone, Copy, Debug)]
pub(crate) enum StoreWord {
    Verb(Verb),
    Cas(u64),
}

/// A storage request without its data.
#[derive(Debug, Drop)]
pub(crate) struct Header {
    pub word: StoreWord,
    pub key: Key,
    pub flags: u32,
    pub expiry: i64,
    pub size: usize,
    pub noreply: bool,
}

/// What a line is by itself.
#[derive(Debug, Drop)]
pub(crate) enum ParsedLine {
    /// A whole request.
    Asks(Request),
    /// A request that data complete.
    AwaitsData(Header),
    /// A fault, and the size of the data that are skipped with their CR LF.
    Refused(TextFault, Option<u64>),
}

/// What a line announces of an entry.
#[derive(Clone, Copy)]
struct EntryWords<'a> {
    key: &'a [u8],
    flags: u32,
    expiry: i64,
    size: u64,
}

/// Which way a counter moves.
#[derive(Clone, Copy)]
pub(crate) enum Direction {
    Up,
    Down,
}

/// A fault after which the next line follows.
fn refused(fault: TextFault) -> ParsedLine
    ensures { result ≡ ParsedLine.Refused fault None }
{
    ParsedLine::Refused(fault, None)
}

/// The parsed line that holds these bytes.
pub(crate) fn read_line(alloc: Global, line: &[u8]) -> Result<ParsedLine, NoMemory>
    ensures is { IfOk result (λ found. parsed line.now ≡ meaning found) }
    ensures fault { IfOk result IsWithinLimits }
{
    let mut words = SpacedWords::of(line);
    let Some(word) = words.next() else {
        return Ok(refused(TextFault::UnknownCommand));
    };
    match form_of(word) {
        Some(form) => read_form(alloc, form, words),
        None => Ok(refused(TextFault::UnknownCommand)),
    }
}

/// The words that follow a command word of this form.
fn read_form(alloc: Global, form: Form, words: SpacedWords) -> Result<ParsedLine, NoMemory>
    ensures is { IfOk result (λ found. parsed_form form words.entry ≡ meaning found) }
    ensures fault { IfOk result IsWithinLimits }
{
    match form {
        Form::Get => match read_keys(alloc, words)? {
            Ok(keys) => Ok(ParsedLine::Asks(Request::Get { keys })),
            Err(fault) => Ok(refused(fault)),
        },
        Form::Gets => match read_keys(alloc, words)? {
            Ok(keys) => Ok(ParsedLine::Asks(Request::Gets { keys })),
            Err(fault) => Ok(refused(fault)),
        },
        Form::Store(verb) => storage_line(alloc, verb, words),
        Form::Cas => cas_line(alloc, words),
        Form::Delete => delete_line(alloc, words),
        Form::Incr => counter_line(alloc, Direction::Up, words),
        Form::Decr => counter_line(alloc, Direction::Down, words),
        Form::Touch => touch_line(alloc, words),
        Form::Version => Ok(bare_line(Request::Version, words)),
        Form::Quit => Ok(bare_line(Request::Quit, words)),
        Form::Stats => Ok(stats_line(words)),
    }
}

/// The keys that these words are: one or more.
fn read_keys(alloc: Global, mut words: SpacedWords) -> Result<Result<Keys, TextFault>, NoMemory>
    ensures is { IfOk result (λ found. keys_of words.entry ≡ found) }
    ensures fault { IfOk result (λ found. found ≢ Err TextFault.LineTooLong) }
{
    let Some(word) = words.next() else {
        return Ok(Err(TextFault::BadLine));
    };
    let Some(first) = Key::of(alloc, word)? else {
        return Ok(Err(TextFault::BadKey));
    };
    if words.is_done() {
        return Ok(Ok(Keys::one(alloc, first)));
    }
    read_others(alloc, first, words)
}

/// How many keys there is room for at first where there are several.
const KEYS: usize = 16;

/// The keys that the first one and these words are.
fn read_others(
    alloc: Global,
    first: Key,
    mut words: SpacedWords,
) -> Result<Result<Keys, TextFault>, NoMemory>
    requires { is_key first ≡ true }
    ensures is { IfOk result (λ found. keys_of (first ∷ words.entry) ≡ found) }
    ensures fault { IfOk result (λ found. found ≢ Err TextFault.LineTooLong) }
{
    let mut keys = Vec::with_capacity(alloc, KEYS)?;
    keys.push_reserved(first);
    while let Some(word) = words.next() {
        match Key::of(alloc, word)? {
            Some(key) => keys.push(key)?,
            None => return Ok(Err(TextFault::BadKey)),
        }
    }
    Ok(Ok(Keys::new(keys)))
}

/// `<key> <flags> <expiry> <bytes> [noreply]`
fn storage_line(alloc: Global, verb: Verb, mut words: SpacedWords) -> Result<ParsedLine, NoMemory>
    ensures is { IfOk result (λ found. parsed_form (Form.Store verb) words.entry ≡ meaning found) }
    ensures fault { IfOk result IsWithinLimits }
{
    let Some(entry) = announced(&mut words) else {
        return Ok(refused(TextFault::BadLine));
    };
    let Some(noreply) = noreply(words) else {
        return Ok(refused(TextFault::BadLine));
    };
    with_data(alloc, StoreWord::Verb(verb), entry, noreply)
}

/// `<key> <flags> <expiry> <bytes> <cas> [noreply]`
fn cas_line(alloc: Global, mut words: SpacedWords) -> Result<ParsedLine, NoMemory>
    ensures is { IfOk result (λ found. parsed_form Form.Cas words.entry ≡ meaning found) }
    ensures fault { IfOk result IsWithinLimits }
{
    let Some(entry) = announced(&mut words) else {
        return Ok(refused(TextFault::BadLine));
    };
    let Some(unique) = words.next() else {
        return Ok(refused(TextFault::BadLine));
    };
    let Some(unique) = number(unique, NUMBER_LIMIT) else {
        return Ok(refused(TextFault::BadLine));
    };
    let Some(noreply) = noreply(words) else {
        return Ok(refused(TextFault::BadLine));
    };
    with_data(alloc, StoreWord::Cas(unique), entry, noreply)
}

/// `<key> <flags> <expiry> <bytes>` at the front of the words.
fn announced<'a>(words: &mut SpacedWords<'a>) -> Option<EntryWords<'a>>
    ensures { MatchOption result (announced words.old ≡ None) (λ a.
        announced words.old
        ≡ Some (announced_by a.key.now a.flags a.expiry a.size, words.new)) }
{
    let key = words.next()?;
    let flags = words.next()?;
    let expiry = words.next()?;
    let size = words.next()?;
    Some(EntryWords {
        key,
        flags: number(flags, FLAGS_LIMIT)? as u32,
        expiry: expiry_of(expiry)?,
        size: number(size, NUMBER_LIMIT)?,
    })
}

/// A storage request of these parts, which awaits its data.
fn with_data(
    alloc: Global,
    word: StoreWord,
    entry: EntryWords,
    noreply: bool,
) -> Result<ParsedLine, NoMemory>
    ensures fault { IfOk result IsWithinLimits }
    ensures is { IfOk result (λ found.
        with_data entry.entry.key.now entry.entry.size (λ value. stored_by word
        (entry_with (announced_by entry.entry.key.now entry.entry.flags entry.entry.expiry
        entry.entry.size) value) noreply)
        ≡ meaning found) }
{
    if !Key::fits(entry.key) {
        return Ok(ParsedLine::Refused(TextFault::BadKey, Some(entry.size)));
    }
    if entry.size > DATA_LIMIT as u64 {
        return Ok(ParsedLine::Refused(TextFault::TooLarge, Some(entry.size)));
    }
    let key = Key::of_fitting(alloc, entry.key)?;
    Ok(ParsedLine::AwaitsData(Header {
        word,
        key,
        flags: entry.flags,
        expiry: entry.expiry,
        size: entry.size as usize,
        noreply,
    }))
}

/// `<key> [noreply]`
fn delete_line(alloc: Global, mut words: SpacedWords) -> Result<ParsedLine, NoMemory>
    ensures is { IfOk result (λ found. parsed_form Form.Delete words.entry ≡ meaning found) }
    ensures fault { IfOk result IsWithinLimits }
{
    let Some(key) = words.next() else {
        return Ok(refused(TextFault::BadLine));
    };
    let Some(noreply) = noreply(words) else {
        return Ok(refused(TextFault::BadLine));
    };
    match Key::of(alloc, key)? {
        Some(key) => Ok(ParsedLine::Asks(Request::Delete { key, noreply })),
        None => Ok(refused(TextFault::BadKey)),
    }
}

/// `<key> <amount> [noreply]`
fn counter_line(
    alloc: Global,
    direction: Direction,
    mut words: SpacedWords,
) -> Result<ParsedLine, NoMemory>
    ensures is { IfOk result (λ found.
        parsed_form (counter_form direction) words.entry ≡ meaning found) }
    ensures fault { IfOk result IsWithinLimits }
{
    let Some(key) = words.next() else {
        return Ok(refused(TextFault::BadLine));
    };
    let Some(amount) = words.next() else {
        return Ok(refused(TextFault::BadLine));
    };
    let Some(amount) = number(amount, NUMBER_LIMIT) else {
        return Ok(refused(TextFault::BadLine));
    };
    let Some(noreply) = noreply(words) else {
        return Ok(refused(TextFault::BadLine));
    };
    let Some(key) = Key::of(alloc, key)? else {
        return Ok(refused(TextFault::BadKey));
    };
    Ok(ParsedLine::Asks(match direction {
        Direction::Up => Request::Incr {
            key,
            amount,
            noreply,
        },
        Direction::Down => Request::Decr {
            key,
            amount,
            noreply,
        },
    }))
}

/// `<key> <expiry> [noreply]`
fn touch_line(alloc: Global, mut words: SpacedWords) -> Result<ParsedLine, NoMemory>
    ensures is { IfOk result (λ found. parsed_form Form.Touch words.entry ≡ meaning found) }
    ensures fault { IfOk result IsWithinLimits }
{
    let Some(key) = words.next() else {
        return Ok(refused(TextFault::BadLine));
    };
    let Some(expiry) = words.next() else {
        return Ok(refused(TextFault::BadLine));
    };
    let Some(expiry) = expiry_of(expiry) else {
        return Ok(refused(TextFault::BadLine));
    };
    let Some(noreply) = noreply(words) else {
        return Ok(refused(TextFault::BadLine));
    };
    match Key::of(alloc, key)? {
        Some(key) => Ok(ParsedLine::Asks(Request::Touch {
            key,
            expiry,
            noreply,
        })),
        None => Ok(refused(TextFault::BadKey)),
    }
}

/// A request whose command word no other word follows.
fn bare_line(request: Request, words: SpacedWords) -> ParsedLine
    ensures is { parsed_bare request words.entry ≡ meaning result }
    ensures fault { IsWithinLimits result }
{
    if words.is_done() {
        ParsedLine::Asks(request)
    } else {
        refused(TextFault::BadLine)
    }
}

/// The word `tko`.
fn stats_line(mut words: SpacedWords) -> ParsedLine
    ensures is { parsed_stats words.entry ≡ meaning result }
    ensures fault { IsWithinLimits result }
{
    match words.next() {
        Some(word) if word == b"tko".as_slice() && words.is_done() => {
            ParsedLine::Asks(Request::StatsTko)
        }
        _ => refused(TextFault::UnknownCommand),
    }
}

/// Whether `noreply` follows, where nothing else does.
fn noreply(mut words: SpacedWords) -> Option<bool>
    ensures { result ≡ noreply words.entry }
{
    let Some(word) = words.next() else {
        return Some(false);
    };
    if words.is_done() && word == b"noreply".as_slice() {
        Some(true)
    } else {
        None
    }
}
