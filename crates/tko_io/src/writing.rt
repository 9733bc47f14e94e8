//! How replies are written.
ghost use Rattle.std.specs.Prelude.{◌≡◌, ◌<◌, ◌≤◌, [], IfSome, OnSome, IfNone, length, take};
ghost use Rattle.std.specs.Bool.{OnTrue, OnFalse};
ghost use Rattle.tko_io.specs.Io.{Writes, WritesPart};

use crate::{IoRuntime, Outlet, Stop};

/// Writes the text, and returns whether all of it was written. The count rises by the bytes that
/// were written, and stays at 2^64 - 1.
pub fn write_all<R: IoRuntime, O: Outlet>(
    rt: &R,
    writer: &mut O,
    text: &[u8],
    written: &mut u64,
) -> bool
    ensures all { OnTrue result
        (Writes O.takes (writer.old, written.old) text.now (writer.new, written.new)) }
    ensures part { OnFalse result
        (WritesPart O.takes (writer.old, written.old) text.now (writer.new, written.new)) }
    ensures calm { OnTrue result (O.failures writer.new ≡ O.failures writer.old) }
    ensures failed { OnFalse result (O.failures writer.old < O.failures writer.new) }
{
    let mut at = 0;
    for _ in rt.forever() {
        if at == text.len() {
            return true;
        }
        let Some(count) = write_some(rt, writer, &text[at..]) else {
            return false;
        };
        at += count;
        *written = written.saturating_add(count as u64);
    }
    unreachable!()
}

/// Writes from the front of a piece, and returns how many bytes were written; `None` is a failure.
fn write_some<R: IoRuntime, O: Outlet>(rt: &R, writer: &mut O, piece: &[u8]) -> Option<usize>
    requires { 0 < length piece.now }
    ensures within { IfSome result (λ count. count ≤ length piece.now) }
    ensures takes { IfSome result (λ count. O.takes writer.old (take count piece.now) writer.new) }
    ensures calm { OnSome result (O.failures writer.new ≡ O.failures writer.old) }
    ensures none { IfNone result (O.takes writer.old [] writer.new) }
    ensures failed { IfNone result (O.failures writer.old < O.failures writer.new) }
{
    match writer.write(rt, piece) {
        Ok(0) | Err(Stop::Fault | Stop::Idle) => None,
        Ok(count) => Some(count),
        Err(Stop::Again) => Some(0),
    }
}
