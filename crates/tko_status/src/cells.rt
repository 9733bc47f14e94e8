//! The cells of tables.
ghost use Rattle.std.specs.Prelude.{◌≡◌, ◌++◌, OnOk};
ghost use Rattle.tko_status.specs.Cells.{count_cells, in_flight_cell, number_cell, outcome_cells, quantile_cell};

use crate::quantile::{Share, add_quantile};
use tko_bytes::{NoMemory, append};
use tko_metrics::{ServerReading, add_digits};

/// Appends a cell with a number.
#[tactic(auto, unfolding(crate::specs::Cells::number_cell))]
pub(crate) fn add_number_cell(out: &mut Vec<u8>, number: u64) -> Result<(), NoMemory>
    ensures { OnOk result (out.new.items ≡ out.old.items ++ number_cell number) }
{
    append(out, &[b"<td>"])?;
    add_digits(out, number)?;
    append(out, &[b"</td>"])
}

/// Appends a cell that says how long a part of all answers took at most.
#[tactic(auto, unfolding(crate::specs::Cells::quantile_cell))]
pub(crate) fn add_quantile_cell(
    out: &mut Vec<u8>,
    share: Share,
    up_to: &[u64],
) -> Result<(), NoMemory>
    ensures { OnOk result (out.new.items ≡ out.old.items ++ quantile_cell share up_to.now) }
{
    append(out, &[b"<td>"])?;
    add_quantile(out, share, up_to)?;
    append(out, &[b"</td>"])
}

/// Appends how many requests are in flight to a server, which event-driven workers tell.
pub(crate) fn add_in_flight_cell(
    out: &mut Vec<u8>,
    is_event_driven: bool,
    number: u64,
) -> Result<(), NoMemory>
    ensures { OnOk result
        (out.new.items ≡ out.old.items ++ in_flight_cell is_event_driven number) }
{
    if is_event_driven {
        add_number_cell(out, number)
    } else {
        append(out, &[b"<td>&ndash;</td>"])
    }
}

/// Appends what was sent to a server, and how much of it was answered.
#[tactic(auto, unfolding(crate::specs::Cells::count_cells))]
pub(crate) fn add_count_cells(out: &mut Vec<u8>, reading: ServerReading) -> Result<(), NoMemory>
    ensures { OnOk result (out.new.items ≡ out.old.items ++ count_cells reading) }
{
    add_number_cell(out, reading.sends)?;
    add_number_cell(out, reading.replies)
}

/// Appends how often what was sent to a server failed, and how.
#[tactic(auto, unfolding(crate::specs::Cells::outcome_cells))]
pub(crate) fn add_outcome_cells(out: &mut Vec<u8>, reading: ServerReading) -> Result<(), NoMemory>
    ensures { OnOk result (out.new.items ≡ out.old.items ++ outcome_cells reading) }
{
    add_number_cell(out, reading.timeouts)?;
    add_number_cell(out, reading.refused)?;
    add_number_cell(out, reading.broken)?;
    add_number_cell(out, reading.aborted)
}
