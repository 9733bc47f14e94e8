//! The totals of the workers as lines of text.
ghost use Rattle.std.specs.Prelude.{◌≡◌, ◌++◌, OnOk, IfOk};
ghost use Rattle.tko_cli.specs.Demos.{totals_note};
ghost use Rattle.tko_cli.specs.Totals.{total_text, totals_of, totals_text};

use std::alloc::Global;
use tko_bytes::NoMemory;
use tko_desk::Totals;
use tko_model::{Counts, Kind, append_number};

const NOTE: &[u8] = b"The client leaves, and the proxy ends with its totals:\n";

/// A line for each kind, as `total request 4`.
pub(crate) fn totals_lines(alloc: Global, totals: &Totals) -> Result<Vec<u8>, NoMemory>
    ensures { IfOk result (λ lines. lines.items ≡ totals_text totals.now.counts) }
{
    let mut out = Vec::new(alloc);
    append_totals(&mut out, &Kind::ALL, &totals.counts)?;
    Ok(out)
}

/// The same after the note of `demo`.
pub(crate) fn noted_totals(alloc: Global, totals: &Totals) -> Result<Vec<u8>, NoMemory>
    ensures { IfOk result (λ text. text.items ≡ totals_note ++ totals_text totals.now.counts) }
{
    let mut out = Vec::from_slice(alloc, NOTE)?;
    append_totals(&mut out, &Kind::ALL, &totals.counts)?;
    Ok(out)
}

fn append_totals(out: &mut Vec<u8>, kinds: &[Kind], counts: &Counts) -> Result<(), NoMemory>
    ensures { OnOk result (out.new.items ≡ out.old.items ++ totals_of kinds.now counts.now) }
{
    for kind in kinds {
        append_total(out, *kind, counts)?;
    }
    Ok(())
}

fn append_total(out: &mut Vec<u8>, kind: Kind, counts: &Counts) -> Result<(), NoMemory>
    ensures { OnOk result (out.new.items ≡ out.old.items ++ total_text kind counts.now) }
{
    out.extend_from_slice(b"total ")?;
    out.extend_from_slice(kind.word().as_bytes())?;
    append_number(out, b" ", counts.of(kind))?;
    out.extend_from_slice(b"\n")?;
    Ok(())
}
