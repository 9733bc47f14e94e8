//! Ends over std's readers and writers.
ghost use Rattle.std.specs.Prelude.{◌≡◌, ◌≢◌, ◌+◌, ◌<◌, ◌≤◌, Ok, Err, IfOk, length};
ghost use Rattle.tko_io.specs.Io.{faults_in, idles_in, moved, read_result, read_stop, refusals_in, write_result, write_stop};
ghost use Rattle.tko_io.specs.Calls.{IsReadCall, IsWriteCall};

use crate::stop_counts::StopCounts;
use crate::{Inlet, IoRuntime, Outlet, Readable, Stop, Writable};
use std::io;
use std::io::ErrorKind;
use std::sync::Wait;

/// A reader as an inlet, or a writer as an outlet.
#[derive(Drop)]
pub struct Piped<T> {
    pub inner: T,
    counts: StopCounts,
}

impl<T> Piped<T> {
    pub fn new(inner: T) -> Piped<T>
        ensures { result.inner ≡ inner }
    {
        Piped {
            inner,
            counts: StopCounts::new(),
        }
    }
}

/// Counts a read, and returns what a session makes of it: an interrupted read is made again, and
/// one that would block or timed out is an idle turn.
fn count_read<R: Wait>(
    rt: &R,
    counts: &mut StopCounts,
    read: io::Result<usize>,
) -> Result<usize, Stop>
    ensures result_is { result ≡ read_result read }
    ensures failures { counts.new.failures ≡ counts.old.failures + faults_in result }
    ensures idles { counts.new.idles ≡ counts.old.idles + idles_in result }
{
    match read {
        Ok(count) => Ok(count),
        Err(error) => Err(counts.count(rt, stop_of_read(error.kind()))),
    }
}

/// What a write of this piece is to a session, counted: an interrupted write is made again.
fn count_write<R: Wait>(
    rt: &R,
    counts: &mut StopCounts,
    piece: &[u8],
    write: io::Result<usize>,
) -> Result<usize, Stop>
    ensures result_is { result ≡ write_result write }
    ensures failures { counts.new.failures ≡ counts.old.failures + refusals_in piece.now result }
{
    match write {
        Ok(0) if !piece.is_empty() => {
            let _counted = counts.count(rt, Stop::Fault);
            Ok(0)
        }
        Ok(count) => Ok(count),
        Err(error) => Err(counts.count(rt, stop_of_write(error.kind()))),
    }
}

fn stop_of_read(kind: ErrorKind) -> Stop
    ensures { result ≡ read_stop kind }
{
    match kind {
        ErrorKind::Interrupted => Stop::Again,
        ErrorKind::WouldBlock | ErrorKind::TimedOut => Stop::Idle,
        _ => Stop::Fault,
    }
}

fn stop_of_write(kind: ErrorKind) -> Stop
    ensures { result ≡ write_stop kind }
{
    match kind {
        ErrorKind::Interrupted => Stop::Again,
        _ => Stop::Fault,
    }
}

/// The bytes that were read are those that the reader no longer has, where it reports what it has.
impl<T: Readable> Inlet for Piped<T> {
    ghost use Rattle.std.specs.Io.KnownBytes.{Consumes, IsAtEnd};
    ghost use Rattle.std.proofs.KnownBytes.{Consumes-nil, Consumes-trans};

    ghost gives = { λ a bytes b. Consumes (T.left a.inner) (T.left b.inner) bytes };

    ghost is_ended = { λ a. IsAtEnd (T.left a.inner) };

    ghost failures = { λ a. a.counts.failures };

    ghost idles = { λ a. a.counts.idles };

    ghost nothing = { λ x. Consumes-nil (T.left x.inner) };

    ghost goes_on = { λ x y z bytes more first second.
        Consumes-trans (T.left x.inner) (T.left y.inner) (T.left z.inner)
        bytes more first second };

    /// Makes one call of the reader.
    fn read<R: IoRuntime>(&mut self, rt: &R, buffer: &mut [u8]) -> Result<usize, Stop>
        ensures within { IfOk result (λ count. count ≤ length buffer.new) }
        ensures gives { Consumes (T.left self.old.inner) (T.left self.new.inner)
            (moved result buffer.new) }
        ensures ended { result ≡ Ok 0 → 0 < length buffer.new → IsAtEnd (T.left self.new.inner) }
        ensures failures { self.new.counts.failures
            ≡ self.old.counts.failures + faults_in result }
        ensures idles { self.new.counts.idles ≡ self.old.counts.idles + idles_in result }
        ensures call { IsReadCall T.came self.old.inner result self.new.inner }
    {
        let read = self.inner.read_once(buffer);
        count_read(rt, &mut self.counts, read)
    }
}

/// The bytes that were written are at the end of what the writer has, where it reports what it has.
impl<T: Writable> Outlet for Piped<T> {
    ghost use Rattle.std.specs.Io.KnownBytes.{Appends};
    ghost use Rattle.std.proofs.KnownBytes.{Appends-nil, Appends-trans};

    ghost takes = { λ a bytes b. Appends (T.held a.inner) (T.held b.inner) bytes };

    ghost failures = { λ a. a.counts.failures };

    ghost nothing = { λ x. Appends-nil (T.held x.inner) };

    ghost goes_on = { λ x y z bytes more first second.
        Appends-trans (T.held x.inner) (T.held y.inner) (T.held z.inner)
        bytes more first second };

    /// Makes one call of the writer.
    fn write<R: IoRuntime>(&mut self, rt: &R, piece: &[u8]) -> Result<usize, Stop>
        ensures within { IfOk result (λ count. count ≤ length piece.now) }
        ensures takes { Appends (T.held self.old.inner) (T.held self.new.inner)
            (moved result piece.now) }
        ensures failures { self.new.counts.failures
            ≡ self.old.counts.failures + refusals_in piece.now result }
        ensures never_idle { result ≢ Err Stop.Idle }
        ensures call { IsWriteCall T.came self.old.inner result self.new.inner }
    {
        let write = self.inner.write_once(piece);
        count_write(rt, &mut self.counts, piece, write)
    }
}
