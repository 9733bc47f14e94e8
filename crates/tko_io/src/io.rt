//! The two ends of a session: where a client's bytes come from, and where the replies go.
ghost use Rattle.std.specs.Prelude.{◌≡◌, ◌≢◌, ◌+◌, ◌<◌, ◌≤◌, Ok, Err, IfOk, length};
ghost use Rattle.tko_io.specs.Io.{moved, faults_in, idles_in, refusals_in};

use crate::IoRuntime;

/// Why a call moved no byte.
#[derive(Clone, Copy, Debug, PartialEq, Eq)]
pub enum Stop {
    /// There is nothing now, and the session may do something else.
    Idle,
    /// The call was interrupted, and is to be made again.
    Again,
    /// It failed.
    Fault,
}

/// Where a client's bytes come from.
pub trait Inlet {
    ghost use Rattle.std.specs.Prelude.{ℕ, List, [], ◌++◌};

    /// These bytes were read between the two.
    ghost gives: { Self → List ℕ → Self → Type 0 };

    /// It was read to its end.
    ghost is_ended: { Self → Type 0 };

    /// How often it failed.
    ghost failures: { Self → ℕ };

    /// How often it returned Idle.
    ghost idles: { Self → ℕ };

    /// Puts the next bytes at the front of the buffer, and returns how many. Where the buffer has
    /// room, 0 is the end of input.
    fn read<R: IoRuntime>(&mut self, rt: &R, buffer: &mut [u8]) -> Result<usize, Stop>
        ensures within { IfOk result (λ count. count ≤ length buffer.new) }
        ensures gives { gives self.old (moved result buffer.new) self.new }
        ensures ended { result ≡ Ok 0 → 0 < length buffer.new → is_ended self.new }
        ensures failures { failures self.new ≡ failures self.old + faults_in result }
        ensures idles { idles self.new ≡ idles self.old + idles_in result };

    /// No bytes are read between an object and itself.
    ghost nothing: { (x : Self) → gives x [] x };

    /// Bytes that were read in two parts were read as a whole.
    ghost goes_on: { (x y z : Self) (bytes more : List ℕ)
        → gives x bytes y → gives y more z → gives x (bytes ++ more) z };
}

/// Where replies go.
pub trait Outlet {
    ghost use Rattle.std.specs.Prelude.{ℕ, List, [], ◌++◌};

    /// These bytes were written between the two.
    ghost takes: { Self → List ℕ → Self → Type 0 };

    /// How often it failed.
    ghost failures: { Self → ℕ };

    /// Takes bytes from the front of the piece, and returns how many. To take none of a piece that
    /// isn't empty is a failure too.
    fn write<R: IoRuntime>(&mut self, rt: &R, piece: &[u8]) -> Result<usize, Stop>
        ensures within { IfOk result (λ count. count ≤ length piece.now) }
        ensures takes { takes self.old (moved result piece.now) self.new }
        ensures failures { failures self.new ≡ failures self.old + refusals_in piece.now result }
        ensures never_idle { result ≢ Err Stop.Idle };

    /// No bytes are written between an object and itself.
    ghost nothing: { (x : Self) → takes x [] x };

    /// Bytes that were written in two parts were written as a whole.
    ghost goes_on: { (x y z : Self) (bytes more : List ℕ)
        → takes x bytes y → takes y more z → takes x (bytes ++ more) z };
}
