//! The places of the standard streams among the open files.

use std::fs::{File, Files, OpenOptions};
use std::mem;
use std::os::fd::{AsRawFd, RawFd};

/// What reads as empty, and takes what is written to it.
const NOWHERE: &str = "/dev/null";

/// Input, output and error have the numbers below this one.
const STREAMS: RawFd = 3;

/// Opens `/dev/null` in the place of each standard stream that is closed, and leaves it open. The
/// system gives each new file the lowest free number, so the first connections would get those of
/// the streams otherwise, and the event log would be written to one of them.
///
/// Where `/dev/null` cannot be opened, the streams stay closed.
pub fn hold_standard_streams<R: Files<File = File>>(rt: &R) {
    for _ in 0..STREAMS {
        match open_nowhere(rt) {
            Ok(file) if file.as_raw_fd() < STREAMS => mem::forget(file),
            _ => return,
        }
    }
}

fn open_nowhere<R: Files<File = File>>(rt: &R) -> std::io::Result<File> {
    OpenOptions::new().read(true).write(true).open(rt, NOWHERE)
}
