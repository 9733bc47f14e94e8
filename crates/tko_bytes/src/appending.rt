//! Appending to a buffer, and emptying it.
ghost use Rattle.std.specs.Prelude.{◌≡◌, ◌++◌, ◌+◌, ◌≤◌, [], flat_map, sum_by, length, IfSome, OnOk, OnErr};
ghost use Rattle.std.specs.Vec.{vec_len, vec_capacity};

use crate::NoMemory;

/// The greatest capacity that an empty buffer keeps for the next bytes.
pub const KEPT_CAPACITY: usize = 65_536;

/// Puts the pieces at the end of the buffer, one after another. At an `Err` the buffer holds what
/// it held.
pub fn append(out: &mut Vec<u8>, pieces: &[&[u8]]) -> Result<(), NoMemory>
    ensures ok { OnOk result
        (out.new.items ≡ out.old.items ++ flat_map (λ piece. piece.now) pieces.now) }
    ensures err { OnErr result (out.new.items ≡ out.old.items) }
{
    out.reserve(total(pieces).ok_or(NoMemory)?)?;
    for piece in pieces {
        put(out, piece);
    }
    Ok(())
}

/// How many bytes the pieces have together, where a `usize` can say so.
fn total(pieces: &[&[u8]]) -> Option<usize>
    ensures { IfSome result (λ len. len ≡ sum_by (λ piece. length piece.now) pieces.now) }
{
    let mut len = 0usize;
    for piece in pieces {
        len = len.checked_add(piece.len())?;
    }
    Some(len)
}

/// Puts a piece at the end, where there is room for it.
fn put(out: &mut Vec<u8>, piece: &[u8])
    requires { vec_len out.old + length piece.now ≤ vec_capacity out.old }
    ensures items { out.new.items ≡ out.old.items ++ piece.now }
    ensures len { vec_len out.new ≡ vec_len out.old + length piece.now }
    ensures capacity { vec_capacity out.old ≤ vec_capacity out.new }
{
    let done = out.extend_from_slice(piece);
    prove!(done.is_ok());
}

/// Empties a buffer, and releases its capacity where that is greater than `kept`.
pub fn clear(bytes: &mut Vec<u8>, kept: usize)
    ensures items { bytes.new.items ≡ [] }
    ensures capacity { vec_capacity bytes.new ≤ kept }
    ensures kept { vec_capacity bytes.old ≤ kept → vec_capacity bytes.new ≡ vec_capacity bytes.old }
{
    bytes.clear();
    if bytes.capacity() > kept {
        bytes.shrink_to(0);
    }
}
