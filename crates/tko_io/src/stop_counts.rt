//! How often an end failed, and how often it was idle.
ghost use Rattle.std.specs.Prelude.{◌≡◌, ◌+◌};
ghost use Rattle.tko_io.specs.Io.{is_fault, is_idle};

use crate::{Stop, raise};
use std::sync::Wait;

/// The two counts of an end.
#[derive(Drop)]
pub(crate) struct StopCounts {
    failures: u64,
    idles: u64,
}

impl StopCounts {
    pub(crate) fn new() -> StopCounts
        ensures { result ≡ record { failures = 0; idles = 0 } }
    {
        StopCounts {
            failures: 0,
            idles: 0,
        }
    }

    /// Counts a stop, and returns it.
    pub(crate) fn count<R: Wait>(&mut self, rt: &R, stop: Stop) -> Stop
        ensures same { result ≡ stop }
        ensures failures { self.new.failures ≡ self.old.failures + is_fault stop }
        ensures idles { self.new.idles ≡ self.old.idles + is_idle stop }
    {
        match stop {
            Stop::Fault => raise(rt, &mut self.failures),
            Stop::Idle => raise(rt, &mut self.idles),
            Stop::Again => {}
        }
        stop
    }
}
