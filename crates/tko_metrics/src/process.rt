//! The process: which build it runs, and what the system says of it.
ghost use Rattle.std.specs.Prelude.{◌≡◌};
ghost use Rattle.std.specs.List.{count_by};
ghost use Rattle.tko_metrics.specs.Marks.{ends_name};

use crate::build::Build;
use std::alloc::Global;
use std::fs::{File, Files};
use std::io::{Read, Seek};
use std::os::fd::AsRawFd;
use tko_bytes::{SpacedWords, number};

/// The bytes of a KiB.
const KIBIBYTE: u64 = 1024;

/// How many names each directory has for itself and the one above: `.` and `..`.
const DOTS: u64 = 2;

/// Where the system tells the memory of the process.
const STATUS: &str = "/proc/self/status";

/// Where the system lists the open descriptors of the process.
const DESCRIPTORS: &str = "/proc/self/fd";

/// The words before the resident memory, in KiB.
const RESIDENT: &[u8] = b"VmRSS:\t";

/// A piece of the list of descriptors. The system's call wants room for one name at least.
const LIST_PIECE_BYTES: usize = 4096;

/// How many pieces a list has at most.
const MAX_LIST_PIECES: usize = 100_000;

/// The build that the process runs, and what the system says of the process. Its files are opened
/// once, so that reading them takes no runtime.
#[derive(Drop)]
pub struct Process {
    pub build: Build,
    status: Option<File>,
    descriptors: Option<File>,
    /// How many descriptors it may have open, where that is known.
    pub(crate) limit: Option<u64>,
}

impl Process {
    /// This process, which runs this build and may have so many descriptors open.
    pub fn open<R: Files<File = File>>(rt: &R, build: Build, limit: Option<u64>) -> Process
        ensures { result.build ≡ build }
    {
        Process {
            build,
            status: File::open(rt, STATUS).ok(),
            descriptors: File::open(rt, DESCRIPTORS).ok(),
            limit,
        }
    }

    /// How many bytes of memory it has, where the system tells it.
    pub(crate) fn memory(&self, alloc: Global) -> Option<u64> {
        let mut status = self.status.as_ref()?;
        let mut text = Vec::new(alloc);
        status.rewind().ok()?;
        status.read_to_end(&mut text).ok()?;
        resident_in(&text)
    }

    /// How many descriptors it has open, where the system tells it.
    pub(crate) fn descriptors(&self) -> Option<u64> {
        let mut list = self.descriptors.as_ref()?;
        list.rewind().ok()?;
        Some(names_in(list))
    }
}

/// The bytes that a text of the system tells.
fn resident_in(text: &[u8]) -> Option<u64> {
    text.split(|byte| *byte == b'\n')
        .find_map(|line| line.strip_prefix(RESIDENT))
        .and_then(|words| number(SpacedWords::of(words).next()?, u64::MAX))
        .map(|kibibytes| kibibytes.saturating_mul(KIBIBYTE))
}

/// How many names an open directory has, other than `.` and `..`.
fn names_in(directory: &File) -> u64 {
    let mut piece = [0u8; LIST_PIECE_BYTES];
    let mut names = 0u64;
    for _ in 0..MAX_LIST_PIECES {
        let count = os::read_dir(directory.as_raw_fd(), &mut piece);
        if count == 0 {
            break;
        }
        names = names.saturating_add(ends_in(&piece[..count]));
    }
    names.saturating_sub(DOTS)
}

/// How many names end in this piece of a list.
fn ends_in(piece: &[u8]) -> u64
    ensures { result ≡ count_by ends_name piece.now }
{
    piece.iter().filter(|byte| **byte == 0).count() as u64
}
