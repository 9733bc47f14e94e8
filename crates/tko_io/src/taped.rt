//! Ends over memory.
ghost use Rattle.std.specs.Prelude.{◌≡◌, ◌<◌, ◌≤◌, ◌+◌, ◌≢◌, ◌++◌, [], Ok, Err, IfOk, length};
ghost use Rattle.tko_io.specs.Io.{faults_in, idles_in, moved, refusals_in};
ghost use Rattle.tko_io.specs.Tape.{first_stop};

use crate::stop_counts::StopCounts;
use crate::{Inlet, IoRuntime, Outlet, Stop, raise};
use std::marker::Model;

/// Bytes in memory: an inlet that gives them, and an outlet that appends to them. A call moves at
/// most `greatest` bytes, and a call whose number is in `stops` comes to that Stop.
#[derive(Drop)]
pub struct Taped {
    bytes: Vec<u8>,
    given: usize,
    greatest: usize,
    stops: Vec<(u64, Stop)>,
    calls: u64,
    counts: StopCounts,
}

impl Model for Taped {
    ghost use Rattle.std.specs.Prelude.{drop, length, vec_capacity, ◌<◌, ◌≤◌};
    ghost use Rattle.tko_io.specs.Tape.{Tape};

    ghost Value = { Tape };

    ghost view = { λ t. record {
      bytes = t.bytes.items;
      room = vec_capacity t.bytes;
      left = drop t.given t.bytes.items;
      greatest = t.greatest;
      stops = t.stops.items;
      calls = t.calls;
      failures = t.counts.failures;
      idles = t.counts.idles;
    } };

    ghost invariant = { λ t. (t.given ≤ length t.bytes.items) × (0 < t.greatest) };
}

impl Taped {
    ghost use Rattle.std.specs.Prelude.{vec_capacity};
    ghost use Rattle.tko_io.specs.Tape.{stop_of, tape_of};

    /// Calls are numbered from 0, reads and writes alike.
    pub fn new(bytes: Vec<u8>, greatest: usize, stops: Vec<(u64, Stop)>) -> Taped
        requires { 0 < greatest }
        ensures { result ≡ tape_of bytes.items (vec_capacity bytes) greatest stops.items }
    {
        Taped {
            bytes,
            given: 0,
            greatest,
            stops,
            calls: 0,
            counts: StopCounts::new(),
        }
    }

    /// All the bytes: those that it began with, and those that were written.
    pub fn bytes(&self) -> &[u8]
        ensures { result.now ≡ self.now.bytes }
    {
        self.bytes.as_slice()
    }

    /// The bytes that were not read yet.
    pub fn left(&self) -> &[u8]
        ensures { result.now ≡ self.now.left }
    {
        &self.bytes[self.given..]
    }

    /// Counts a call, and returns its stop, if it has one.
    fn next_call<R: IoRuntime>(&mut self, rt: &R) -> Option<Stop>
        ensures stop { result ≡ stop_of self.old }
        ensures counted { self.new ≡ record self.old { calls = self.old.calls + 1 } }
    {
        let stop = first_stop_of(self.stops.as_slice(), self.calls);
        raise(rt, &mut self.calls);
        stop
    }
}

/// The first stop in the list for the call of this number.
fn first_stop_of(stops: &[(u64, Stop)], call: u64) -> Option<Stop>
    ensures { result ≡ first_stop stops.now call }
{
    stops.iter().find(|stop| stop.0 == call).map(|stop| stop.1)
}

impl Inlet for Taped {
    ghost use Rattle.std.specs.Prelude.{refl};
    ghost use Rattle.std.proofs.Common.{ap, sym, ◌∙◌, append_assoc};
    ghost use Rattle.tko_io.specs.Tape.{IsTapeRead};

    ghost gives = { λ a bytes b. a.left ≡ bytes ++ b.left };

    ghost is_ended = { λ a. a.left ≡ [] };

    ghost failures = { λ a. a.failures };

    ghost idles = { λ a. a.idles };

    ghost nothing = { λ x. refl };

    ghost goes_on = { λ x y z bytes more first second.
        first ∙ ap (λ rest. bytes ++ rest) second ∙ sym (append_assoc bytes more z.left) };

    fn read<R: IoRuntime>(&mut self, rt: &R, buffer: &mut [u8]) -> Result<usize, Stop>
        ensures within { IfOk result (λ count. count ≤ length buffer.new) }
        ensures gives { self.old.left ≡ moved result buffer.new ++ self.new.left }
        ensures ended { result ≡ Ok 0 → 0 < length buffer.new → self.new.left ≡ [] }
        ensures failures { self.new.failures ≡ self.old.failures + faults_in result }
        ensures idles { self.new.idles ≡ self.old.idles + idles_in result }
        ensures call { IsTapeRead self.old (length buffer.old) result self.new }
    {
        if let Some(stop) = self.next_call(rt) {
            return Err(self.counts.count(rt, stop));
        }
        let left = &self.bytes[self.given..];
        let count = self.greatest.min(buffer.len()).min(left.len());
        buffer[..count].copy_from_slice(&left[..count]);
        self.given += count;
        Ok(count)
    }
}

impl Outlet for Taped {
    ghost use Rattle.std.proofs.Common.{ap, sym, ◌∙◌, append_assoc, append-nil};
    ghost use Rattle.tko_io.specs.Tape.{IsTapeWrite};

    ghost takes = { λ a bytes b. b.bytes ≡ a.bytes ++ bytes };

    ghost failures = { λ a. a.failures };

    ghost nothing = { λ x. sym (append-nil x.bytes) };

    ghost goes_on = { λ x y z bytes more first second.
        second ∙ ap (λ front. front ++ more) first ∙ append_assoc x.bytes bytes more };

    fn write<R: IoRuntime>(&mut self, rt: &R, piece: &[u8]) -> Result<usize, Stop>
        ensures within { IfOk result (λ count. count ≤ length piece.now) }
        ensures takes { self.new.bytes ≡ self.old.bytes ++ moved result piece.now }
        ensures failures { self.new.failures ≡ self.old.failures + refusals_in piece.now result }
        ensures never_idle { result ≢ Err Stop.Idle }
        ensures call { IsTapeWrite self.old (length piece.now) result self.new }
    {
        match self.next_call(rt) {
            Some(Stop::Fault) => return Err(self.counts.count(rt, Stop::Fault)),
            Some(Stop::Again | Stop::Idle) => return Err(Stop::Again),
            None => {}
        }
        let count = self.greatest.min(piece.len());
        match self.bytes.extend_from_slice(&piece[..count]) {
            Ok(()) => Ok(count),
            Err(_) => Err(self.counts.count(rt, Stop::Fault)),
        }
    }
}
