//! Delays of probes that are refused.
ghost use Rattle.std.specs.Prelude.{◌≡◌, ◌++◌, IfOk, OnOk};
ghost use Rattle.tko_commands.specs.OutsideRanges.{delays_line, delays_rule};

use std::alloc::Global;
use tko_bytes::NoMemory;
use tko_model::append_number;

/// Delays of probes, in milliseconds, of which the first is 0, or above the greatest.
#[derive(Clone, Copy, Debug, PartialEq, Eq)]
pub struct RefusedDelays {
    pub first: u32,
    pub greatest: u32,
}

/// The line that says why they are refused.
pub(crate) fn delays_line(alloc: Global, delays: RefusedDelays) -> Result<Vec<u8>, NoMemory>
    ensures { IfOk result (λ line. line.items ≡ delays_line delays) }
{
    let mut line = Vec::new(alloc);
    let first = u64::from(delays.first);
    append_number(&mut line, b"delays: --first-delay ", first)?;
    append_rule(&mut line, delays)?;
    line.extend_from_slice(b"\n")?;
    Ok(line)
}

/// Appends what the first delay has to be.
fn append_rule(out: &mut Vec<u8>, delays: RefusedDelays) -> Result<(), NoMemory>
    ensures { OnOk result (out.new.items ≡ out.old.items ++ delays_rule delays) }
{
    if delays.first == 0 {
        out.extend_from_slice(b": at least 1")?;
    } else {
        let greatest = u64::from(delays.greatest);
        append_number(out, b": not above --greatest-delay ", greatest)?;
    }
    Ok(())
}
