//! How a client's bytes are read.
ghost use Rattle.std.specs.Prelude.{◌≡◌, ◌<◌, ◌+◌, ℕ, [], IfOk, IfSome, OnSome, IfNone, length, vec_len};
ghost use Rattle.tko_io.specs.Pieces.{IsPiece, IsRead, fails_in, idle_in};

use crate::{Inlet, IoRuntime, Stop};
use std::alloc::{AllocError, Global};

/// The greatest piece that is read at once.
const MAX_PIECE_BYTES: usize = 16_384;

/// What a read came to.
#[derive(Clone, Copy, Debug, PartialEq, Eq)]
pub enum Piece {
    /// This number of bytes is at the front of the buffer; 0 is the end of input.
    Bytes(usize),
    /// There is nothing to read now.
    Idle,
    /// The reader failed.
    Failed,
}

/// Room for the greatest piece that is read at once.
pub fn piece_buffer(alloc: Global) -> Result<Vec<u8>, AllocError>
    ensures { IfOk result (λ buffer. 0 < vec_len buffer) }
{
    vec![in alloc; 0u8; MAX_PIECE_BYTES]
}

/// Reads the next piece. An interrupted read is made again.
pub fn read_piece<R: IoRuntime, I: Inlet>(rt: &R, reader: &mut I, buffer: &mut [u8]) -> Piece
    requires { 0 < length buffer.old }
    ensures piece { IsPiece I.gives I.is_ended reader.old result buffer.new reader.new }
    ensures failures { I.failures reader.new ≡ I.failures reader.old + fails_in result }
    ensures idles { I.idles reader.new ≡ I.idles reader.old + idle_in result }
{
    for _ in rt.forever() {
        match reader.read(rt, buffer) {
            Ok(count) => return Piece::Bytes(count),
            Err(Stop::Fault) => return Piece::Failed,
            Err(Stop::Idle) => return Piece::Idle,
            Err(Stop::Again) => {}
        }
    }
    unreachable!()
}

/// Reads the next piece, and reads again while the reader is idle. Returns how many bytes it has;
/// `None` is a failure.
pub fn wait_for_piece<R: IoRuntime, I: Inlet>(
    rt: &R,
    reader: &mut I,
    buffer: &mut [u8],
) -> Option<usize>
    requires { 0 < length buffer.old }
    ensures some { IfSome result (λ count.
        IsRead I.gives I.is_ended reader.old count buffer.new reader.new) }
    ensures calm { OnSome result (I.failures reader.new ≡ I.failures reader.old) }
    ensures none { IfNone result (I.gives reader.old [] reader.new) }
    ensures failed { IfNone result (I.failures reader.old < I.failures reader.new) }
{
    for _ in rt.forever() {
        match read_piece(rt, reader, buffer) {
            Piece::Bytes(count) => return Some(count),
            Piece::Failed => return None,
            Piece::Idle => {}
        }
    }
    unreachable!()
}
