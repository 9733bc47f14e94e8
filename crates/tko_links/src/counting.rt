//! Counts of what failed, which contracts see as whole numbers.
ghost use Rattle.std.specs.Prelude.{◌≡◌, ◌+◌};
ghost use Rattle.tko_links.specs.Wires.{wire_faults_in, wire_refusals_in};

use crate::wire::WireFault;
use std::sync::Wait;
use tko_io::raise;

/// Counts the result of a connect or a read, and returns it.
pub fn counted<R: Wait, T>(
    rt: &R,
    failures: &mut u64,
    called: Result<T, WireFault>,
) -> Result<T, WireFault>
    ensures same { result ≡ called }
    ensures failures { failures.new ≡ failures.old + wire_faults_in called }
{
    match called {
        Ok(done) => Ok(done),
        Err(fault) => {
            raise(rt, failures);
            Err(fault)
        }
    }
}

/// Counts the result of a write of this piece, and returns it.
pub fn counted_write<R: Wait>(
    rt: &R,
    failures: &mut u64,
    piece: &[u8],
    written: Result<usize, WireFault>,
) -> Result<usize, WireFault>
    ensures same { result ≡ written }
    ensures failures { failures.new ≡ failures.old + wire_refusals_in piece.now written }
{
    match written {
        Ok(0) if !piece.is_empty() => {
            raise(rt, failures);
            Ok(0)
        }
        Ok(count) => Ok(count),
        Err(fault) => {
            raise(rt, failures);
            Err(fault)
        }
    }
}
