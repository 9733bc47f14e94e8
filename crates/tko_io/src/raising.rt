//! A count that contracts see as a whole number.
ghost use Rattle.std.specs.Prelude.{◌≡◌, ◌+◌};

use std::sync::Wait;

/// Raises a count by 1. It blocks forever at 2^64 - 1, which no run reaches.
pub fn raise<R: Wait>(rt: &R, count: &mut u64)
    ensures { count.new ≡ count.old + 1 }
{
    for _ in rt.forever() {
        if *count < u64::MAX {
            *count += 1;
            return;
        }
    }
    unreachable!()
}
