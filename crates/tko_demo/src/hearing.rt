//! What the client hears, up to where it is clear which reply it is.
ghost use Rattle.std.specs.Prelude.{◌≡◌, ◌<◌, Ok, false, true, IfOk, OnOk, length};
ghost use Rattle.tko_demo.specs.Hearing.{HasHeard, HasHeardNoMore, verdict_of};

use std::alloc::Global;
use tko_bytes::NoMemory;
use tko_io::{Inlet, IoRuntime, Piece, piece_buffer, read_piece};

/// Which reply was heard.
#[derive(Drop)]
pub(crate) enum Heard {
    /// The one that is due.
    Due,
    /// The other one that may come.
    Other,
    /// These bytes, which are neither.
    Wrong(Vec<u8>),
}

/// Which reply the bytes so far are.
#[derive(Clone, Copy)]
pub(crate) enum Verdict {
    Due,
    Other,
    /// They may become one.
    Open,
    Wrong,
}

/// Which of the two replies these bytes are.
pub(crate) fn judge(due: &[u8], other: &[u8], bytes: &[u8]) -> Verdict
    ensures { result ≡ verdict_of due.now other.now bytes.now }
{
    if bytes == due {
        Verdict::Due
    } else if bytes == other {
        Verdict::Other
    } else if due.starts_with(bytes) || other.starts_with(bytes) {
        Verdict::Open
    } else {
        Verdict::Wrong
    }
}

/// Hears bytes until they are one of the two replies, or can become neither, or none follow.
pub(crate) fn hear<R: IoRuntime, I: Inlet>(
    rt: &R,
    alloc: Global,
    inlet: &mut I,
    due: &[u8],
    other: &[u8],
) -> Result<Heard, NoMemory>
    ensures { IfOk result (λ heard. HasHeard I.Inlet due.now other.now inlet.old heard inlet.new) }
{
    let mut buffer = piece_buffer(alloc)?;
    let mut bytes = Vec::new(alloc);
    for _ in rt.forever() {
        match judge(due, other, &bytes) {
            Verdict::Due => return Ok(Heard::Due),
            Verdict::Other => return Ok(Heard::Other),
            Verdict::Wrong => return Ok(Heard::Wrong(bytes)),
            Verdict::Open => {}
        }
        if !read_more(rt, inlet, &mut buffer, &mut bytes)? {
            return Ok(Heard::Wrong(bytes));
        }
    }
    unreachable!()
}

/// Appends the next piece to the bytes, and returns whether there was one.
fn read_more<R: IoRuntime, I: Inlet>(
    rt: &R,
    inlet: &mut I,
    buffer: &mut [u8],
    bytes: &mut Vec<u8>,
) -> Result<bool, NoMemory>
    requires { 0 < length buffer.old }
    ensures gives { (start : I) → I.gives start bytes.old.items inlet.old
        → OnOk result (I.gives start bytes.new.items inlet.new) }
    ensures some { result ≡ Ok true → (I.failures inlet.new ≡ I.failures inlet.old)
        × (I.idles inlet.new ≡ I.idles inlet.old) }
    ensures none { result ≡ Ok false → (bytes.new.items ≡ bytes.old.items)
        × HasHeardNoMore I.Inlet inlet.old inlet.new }
{
    match read_piece(rt, inlet, buffer) {
        Piece::Bytes(0) => Ok(false),
        Piece::Idle => Ok(false),
        Piece::Failed => Ok(false),
        Piece::Bytes(count) => {
            bytes.extend_from_slice(&buffer[..count])?;
            Ok(true)
        }
    }
}
