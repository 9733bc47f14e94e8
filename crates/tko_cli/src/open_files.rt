//! The limits that the system sets the process.
ghost use Rattle.std.specs.Prelude.{◌≡◌, MatchOption, None, Some};
ghost use Rattle.tko_bytes.specs.Lines.{lines_of};
ghost use Rattle.tko_bytes.specs.Words.{words};
ghost use Rattle.tko_cli.specs.Limits.{is_unlimited};
ghost use Rattle.tko_cli.specs.OpenFiles.{limit_in, limit_told, told_in};

use std::alloc::Global;
use std::fs::{File, Files};
use std::io::Read;
use tko_bytes::{SpacedWords, first_line, number};

/// Where the system tells the limits of the process.
const LIMITS: &str = "/proc/self/limits";

/// The words before the limit.
const OPEN_FILES: &[u8] = b"Max open files ";

/// How the line on memory begins where there is no limit. All limits stand at the same place of
/// their lines.
const UNLIMITED: &[u8] = b"Max address space         unlimited ";

/// How many files the process may have open, where the system tells it.
pub(crate) fn open_file_limit<R: Files>(rt: &R, alloc: Global) -> Option<u64> {
    limit_in(&limits(rt, alloc)?)
}

/// Whether the system tells that the memory of the process has no limit.
pub(crate) fn has_no_memory_limit<R: Files>(rt: &R, alloc: Global) -> bool {
    match limits(rt, alloc) {
        Some(text) => text.split(|byte| *byte == b'\n').any(is_unlimited),
        None => false,
    }
}

/// What the system tells of the limits.
fn limits<R: Files>(rt: &R, alloc: Global) -> Option<Vec<u8>> {
    let mut text = Vec::new(alloc);
    File::open(rt, LIMITS).ok()?.read_to_end(&mut text).ok()?;
    Some(text)
}

/// Whether a line of the limits tells that memory has none.
fn is_unlimited(line: &[u8]) -> bool
    ensures { result ≡ is_unlimited line.now }
{
    line.starts_with(UNLIMITED)
}

/// The limit that a text of the system tells: the first word after the words before it.
fn limit_in(text: &[u8]) -> Option<u64>
    ensures { result ≡ limit_in (lines_of text.now) }
{
    let mut rest = text;
    while !rest.is_empty() {
        let (line, behind) = first_line(rest);
        if let Some(told) = told_in(line) {
            return limit_told(told);
        }
        rest = behind;
    }
    None
}

/// What a line tells of the limit, if it does.
fn told_in(line: &[u8]) -> Option<&[u8]>
    ensures { MatchOption result (told_in line.now ≡ None)
        (λ told. told_in line.now ≡ Some told.now) }
{
    line.strip_prefix(OPEN_FILES)
}

/// The number that the first word of this writes.
fn limit_told(line: &[u8]) -> Option<u64>
    ensures { result ≡ limit_told (words line.now) }
{
    number(SpacedWords::of(line).next()?, u64::MAX)
}
