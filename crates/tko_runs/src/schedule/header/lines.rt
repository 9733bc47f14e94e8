//! The lines of a header, one at a time.
ghost use Rattle.std.specs.Prelude.{◌≡◌, ◌⊎◌, ◌∷◌, Some, None, IfOk, IfErr, MatchOption};
ghost use Rattle.std.specs.Option.{option_map};
ghost use Rattle.tko_runs.specs.Headers.{HasLine, LacksLine};
ghost use Rattle.tko_runs.specs.ScheduleHeaders.{header_number, header_numbers, in_field, values_of, version_in};

use crate::{ScheduleFault, Version};
use std::alloc::Global;
use tko_bytes::{Fields, NoMemory, first_line, number};

/// The version that the first line of a text names, and the text after that line.
pub(crate) fn title(text: &[u8]) -> Result<(Version, &[u8]), ScheduleFault>
    ensures ok { IfOk result (λ read. HasLine version_in text.now read.0 read.1.now) }
    ensures err { IfErr result (λ fault. LacksLine 1 version_in text.now fault) }
{
    if text.is_empty() {
        return Err(ScheduleFault::Line(1));
    }
    let (first, rest) = first_line(text);
    match version_in(first) {
        Some(version) => Ok((version, rest)),
        None => Err(ScheduleFault::Line(1)),
    }
}

/// The version that this line names.
fn version_in(line: &[u8]) -> Option<Version>
    ensures { result ≡ version_in line.now }
{
    if line == b"schedule 1".as_slice() {
        Some(Version::One)
    } else if line == b"schedule 2".as_slice() {
        Some(Version::Two)
    } else if line == b"schedule 3".as_slice() {
        Some(Version::Three)
    } else {
        None
    }
}

/// The number of the header line of this name at the start of a text, and the rest of the text.
pub(crate) fn header_number<'a>(
    line: u32,
    name: &[u8],
    text: &'a [u8],
) -> Result<(u64, &'a [u8]), ScheduleFault>
    ensures ok { IfOk result (λ read.
        HasLine (header_number name.now) text.now read.0 read.1.now) }
    ensures err { IfErr result (λ fault. LacksLine line (header_number name.now) text.now fault) }
{
    if text.is_empty() {
        return Err(ScheduleFault::Line(line));
    }
    let (first, rest) = first_line(text);
    match number_in(name, first) {
        Some(number) => Ok((number, rest)),
        None => Err(ScheduleFault::Line(line)),
    }
}

/// The number of a line `<name> <number>`.
fn number_in(name: &[u8], line: &[u8]) -> Option<u64>
    ensures { result ≡ header_number name.now line.now }
{
    let mut fields = Fields::of(line);
    let (word, value) = (fields.next()?, fields.next()?);
    if fields.next().is_some() || word != name {
        return None;
    }
    number(value, u64::MAX)
}

/// The numbers of the header line of this name at the start of a text, and the rest of the text.
pub(crate) fn header_list<'a>(
    alloc: Global,
    line: u32,
    name: &[u8],
    text: &'a [u8],
) -> Result<(Vec<u32>, &'a [u8]), ScheduleFault>
    ensures ok { IfOk result (λ read.
        HasLine (header_numbers name.now) text.now read.0.items read.1.now) }
    ensures err { IfErr result (λ fault.
        (fault ≡ ScheduleFault.Memory) ⊎ LacksLine line (header_numbers name.now) text.now fault) }
{
    if text.is_empty() {
        return Err(ScheduleFault::Line(line));
    }
    let (first, rest) = first_line(text);
    match numbers_in(alloc, name, first)? {
        Some(numbers) => Ok((numbers, rest)),
        None => Err(ScheduleFault::Line(line)),
    }
}

/// The numbers of a line `<name> <number> <number> ..`.
fn numbers_in(alloc: Global, name: &[u8], line: &[u8]) -> Result<Option<Vec<u32>>, NoMemory>
    ensures { IfOk result (λ found. MatchOption found
        (header_numbers name.now line.now ≡ None)
        (λ numbers. header_numbers name.now line.now ≡ Some numbers.items)) }
{
    let mut fields = Fields::of(line);
    let Some(word) = fields.next() else {
        return Ok(None);
    };
    let Some(first) = fields.next() else {
        return Ok(None);
    };
    if word != name {
        return Ok(None);
    }
    match number(first, u64::MAX) {
        Some(value) => numbers_from(alloc, in_field(value), fields),
        None => Ok(None),
    }
}

/// This number, and those that these words write.
fn numbers_from(alloc: Global, first: u32, mut words: Fields) -> Result<Option<Vec<u32>>, NoMemory>
    ensures { IfOk result (λ found. MatchOption found
        (values_of words.entry ≡ None)
        (λ numbers. option_map (λ others. first ∷ others) (values_of words.entry)
        ≡ Some numbers.items)) }
{
    let mut numbers = vec![in alloc; first; 1]?;
    while let Some(word) = words.next() {
        let Some(value) = number(word, u64::MAX) else {
            return Ok(None);
        };
        numbers.push(in_field(value))?;
    }
    Ok(Some(numbers))
}

/// The number, or the largest `u32` if it is larger.
pub(crate) fn in_field(number: u64) -> u32
    ensures { result ≡ in_field number }
{
    number.min(u64::from(u32::MAX)) as u32
}
