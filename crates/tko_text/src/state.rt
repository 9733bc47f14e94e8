//! What a reader awaits.
ghost use Rattle.std.specs.Prelude.{◌≡◌, ◌<◌, [], IfOk, OnErr};
ghost use Rattle.tko_text.specs.Reading.{Pass, PassLine, passed};
ghost use Rattle.tko_text.specs.States.{IsState, reading_of};

use crate::buffer::Buffer;
use crate::pending::Pending;
use memchr::memchr;
use std::alloc::AllocError;

/// What a reader awaits. But for a line that is awaited, its buffer is empty.
#[derive(Debug, Drop)]
pub(crate) enum ReaderState {
    /// A line, or the rest of one.
    Line,
    /// The data of a request.
    Data(Pending),
    /// This number of bytes is skipped.
    Skip(u128),
    /// All bytes up to the first LF, which are skipped.
    SkipLine,
    /// Nothing, after a line too long.
    Never,
}

/// The state once `count` bytes of the input are skipped, of which a piece has come.
pub(crate) fn feed_skipped(
    buffer: &mut Buffer,
    count: u128,
    piece: &[u8],
) -> Result<ReaderState, AllocError>
    requires some { 0 < count }
    requires empty { buffer.old ≡ [] }
    ensures is { IfOk result (λ state. IsState state buffer.new) }
    ensures ok { IfOk result (λ state.
        reading_of state buffer.new ≡ passed (Pass count) piece.now) }
    ensures err { OnErr result (buffer.new ≡ buffer.old) }
{
    if (piece.len() as u128) < count {
        return Ok(ReaderState::Skip(count - piece.len() as u128));
    }
    buffer.push(&piece[count as usize..])?;
    Ok(ReaderState::Line)
}

/// The state once the input up to its first LF is skipped, of which a piece has come.
pub(crate) fn feed_skipped_line(
    buffer: &mut Buffer,
    piece: &[u8],
) -> Result<ReaderState, AllocError>
    requires { buffer.old ≡ [] }
    ensures is { IfOk result (λ state. IsState state buffer.new) }
    ensures ok { IfOk result (λ state. reading_of state buffer.new ≡ passed PassLine piece.now) }
    ensures err { OnErr result (buffer.new ≡ buffer.old) }
{
    match memchr(b'\n', piece) {
        Some(end) => {
            buffer.push(&piece[end + 1..])?;
            Ok(ReaderState::Line)
        }
        None => Ok(ReaderState::SkipLine),
    }
}

/// The state once `count` bytes are skipped, of which some may be unread.
pub(crate) fn skip(buffer: &mut Buffer, count: u128) -> ReaderState
    requires { 0 < count }
    ensures is { IsState result buffer.new }
    ensures reading { reading_of result buffer.new ≡ passed (Pass count) buffer.old }
{
    let len = buffer.len();
    if (len as u128) < count {
        buffer.consume(len);
        buffer.compact();
        ReaderState::Skip(count - len as u128)
    } else {
        buffer.consume(count as usize);
        ReaderState::Line
    }
}

/// The state once all bytes up to the first LF are skipped, of which some may be unread.
pub(crate) fn skip_line(buffer: &mut Buffer) -> ReaderState
    ensures is { IsState result buffer.new }
    ensures reading { reading_of result buffer.new ≡ passed PassLine buffer.old }
{
    match buffer.line_end() {
        Some(end) => {
            buffer.consume(end + 1);
            ReaderState::Line
        }
        None => {
            let len = buffer.len();
            buffer.consume(len);
            buffer.compact();
            ReaderState::SkipLine
        }
    }
}
