//! The row of a server.
ghost use Rattle.std.specs.Prelude.{◌≡◌, ◌++◌, OnOk};
ghost use Rattle.tko_status.specs.Rows.{row_of_mark, mark_cells, next_probe_text, number_cells, probe_text, row_front, row_text, state_cells, worker_cell};

use crate::cells::{add_count_cells, add_in_flight_cell, add_outcome_cells, add_quantile_cell};
use crate::durations::{add_duration, add_wait};
use crate::escaping::add_escaped;
use crate::pieces::{Piece, add_piece};
use crate::quantile::Share;
use tko_bytes::{NoMemory, append};
use tko_metrics::{Marking, ServerReading, Shown, add_digits};

/// Appends the row of a server at this moment, with the answers that are counted for its times.
/// Event-driven workers tell what they have to do with it.
#[tactic(auto, unfolding(crate::specs::Rows::row_text))]
pub(crate) fn add_row(
    out: &mut Vec<u8>,
    server: &Shown<'_>,
    moment: u64,
    is_event_driven: bool,
    up_to: &[u64],
) -> Result<(), NoMemory>
    ensures { OnOk result (out.new.items ≡ out.old.items
        ++ row_text server.now moment is_event_driven up_to.now) }
{
    add_front(out, server)?;
    add_state(out, is_event_driven, server.reading, moment)?;
    add_in_flight_cell(out, is_event_driven, server.reading.in_flight)?;
    add_numbers(out, server.reading, up_to)?;
    append(out, &[b"</tr>\n"])
}

/// Appends the beginning of the row of a server, and its address.
#[tactic(auto, unfolding(crate::specs::Rows::row_front))]
fn add_front(out: &mut Vec<u8>, server: &Shown<'_>) -> Result<(), NoMemory>
    ensures { OnOk result (out.new.items ≡ out.old.items ++ row_front server.now) }
{
    add_piece(out, row_of_mark(server.reading.mark))?;
    add_escaped(out, server.address)
}

/// Appends the state of a server, since when it is so, which worker probes it, and when.
fn add_state(
    out: &mut Vec<u8>,
    is_event_driven: bool,
    reading: ServerReading,
    moment: u64,
) -> Result<(), NoMemory>
    ensures { OnOk result
        (out.new.items ≡ out.old.items ++ state_cells is_event_driven reading moment) }
{
    match reading.mark {
        Marking::Up => add_piece(out, Piece::Up),
        Marking::Soft => add_mark(out, Piece::Soft, is_event_driven, reading, moment),
        Marking::Hard => add_mark(out, Piece::Hard, is_event_driven, reading, moment),
    }
}

/// Appends a mark in words, since when a server has it, which worker probes it, and when.
#[tactic(auto, unfolding(crate::specs::Rows::mark_cells))]
fn add_mark(
    out: &mut Vec<u8>,
    words: Piece,
    is_event_driven: bool,
    reading: ServerReading,
    moment: u64,
) -> Result<(), NoMemory>
    ensures { OnOk result
        (out.new.items ≡ out.old.items ++ mark_cells words is_event_driven reading moment) }
{
    add_piece(out, words)?;
    add_duration(out, moment.saturating_sub(reading.since))?;
    add_worker_cell(out, is_event_driven, reading)
}

/// Appends which worker has the mark on a server, and when it probes the server next.
#[tactic(auto, unfolding(crate::specs::Rows::worker_cell))]
fn add_worker_cell(
    out: &mut Vec<u8>,
    is_event_driven: bool,
    reading: ServerReading,
) -> Result<(), NoMemory>
    ensures { OnOk result
        (out.new.items ≡ out.old.items ++ worker_cell is_event_driven reading) }
{
    add_piece(out, Piece::ProbedBy)?;
    add_digits(out, reading.worker)?;
    add_probe(out, is_event_driven, reading.next_probe)?;
    append(out, &[b"</td>"])
}

/// Appends when the next probe comes, in how many milliseconds, which event-driven workers tell.
fn add_probe(out: &mut Vec<u8>, is_event_driven: bool, next: Option<u64>) -> Result<(), NoMemory>
    ensures { OnOk result (out.new.items ≡ out.old.items ++ probe_text is_event_driven next) }
{
    if !is_event_driven {
        return Ok(());
    }
    match next {
        Some(milliseconds) => add_next_probe(out, milliseconds),
        None => append(out, &[b", probe under way"]),
    }
}

/// Appends that the next probe comes in so many milliseconds.
#[tactic(auto, unfolding(crate::specs::Rows::next_probe_text))]
fn add_next_probe(out: &mut Vec<u8>, milliseconds: u64) -> Result<(), NoMemory>
    ensures { OnOk result (out.new.items ≡ out.old.items ++ next_probe_text milliseconds) }
{
    append(out, &[b", next probe "])?;
    add_wait(out, milliseconds)
}

/// Appends the numbers of a server.
#[tactic(auto, unfolding(crate::specs::Rows::number_cells))]
fn add_numbers(out: &mut Vec<u8>, reading: ServerReading, up_to: &[u64]) -> Result<(), NoMemory>
    ensures { OnOk result (out.new.items ≡ out.old.items ++ number_cells reading up_to.now) }
{
    add_count_cells(out, reading)?;
    add_outcome_cells(out, reading)?;
    add_quantile_cell(out, Share::Half, up_to)?;
    add_quantile_cell(out, Share::NearlyAll, up_to)
}

/// The beginning of the row of a server with this mark.
fn row_of_mark(mark: Marking) -> Piece
    ensures { result ≡ row_of_mark mark }
{
    match mark {
        Marking::Up => Piece::UpRow,
        Marking::Soft => Piece::SoftRow,
        Marking::Hard => Piece::HardRow,
    }
}
