//! Std's readers and writers, with what their calls returned.
ghost use Rattle.std.specs.Io.{ReadsAtMost, WritesAtMost};
ghost use Rattle.std.specs.Io.KnownBytes.{ReadConsumes, WriteAppends};

use std::io;
use std::io::{Read, Write};

/// A reader of which contracts see what each call returned. Each of std's is one.
pub trait Readable {
    ghost use Rattle.std.specs.Prelude.{ℕ, List, Option, Result};
    ghost use Rattle.std.specs.declared.io.Error.{Error};

    /// The bytes that it still has, where that is known.
    ghost left: { Self → Option (List ℕ) };

    /// A call between the two returned this.
    ghost came: { Self → Result ℕ Error → Self → Type 0 };

    /// Makes one call.
    fn read_once(&mut self, buffer: &mut [u8]) -> io::Result<usize>
        ensures bound { ReadsAtMost result buffer.new }
        ensures bytes { ReadConsumes (left self.old) (left self.new) result buffer.new }
        ensures came { came self.old result self.new };
}

/// A writer of which contracts see what each call returned. Each of std's is one.
pub trait Writable {
    ghost use Rattle.std.specs.Prelude.{ℕ, List, Option, Result};
    ghost use Rattle.std.specs.declared.io.Error.{Error};

    /// The bytes that were written to it, where that is known.
    ghost held: { Self → Option (List ℕ) };

    /// A call between the two returned this.
    ghost came: { Self → Result ℕ Error → Self → Type 0 };

    /// Makes one call.
    fn write_once(&mut self, piece: &[u8]) -> io::Result<usize>
        ensures bound { WritesAtMost result piece.now }
        ensures bytes { WriteAppends (held self.old) (held self.new) result piece.now }
        ensures came { came self.old result self.new };
}

impl<T: Read> Readable for T {
    ghost left = { λ reader. T.remaining reader };

    ghost came = { λ old result new. Unit {0} };

    fn read_once(&mut self, buffer: &mut [u8]) -> io::Result<usize> {
        self.read(buffer)
    }
}

impl<T: Write> Writable for T {
    ghost held = { λ writer. T.contents writer };

    ghost came = { λ old result new. Unit {0} };

    fn write_once(&mut self, piece: &[u8]) -> io::Result<usize> {
        self.write(piece)
    }
}
