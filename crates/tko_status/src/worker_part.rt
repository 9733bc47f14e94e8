//! The event-driven workers of a page.
ghost use Rattle.std.specs.Prelude.{◌≡◌, ◌++◌, OnOk, flat_map};
ghost use Rattle.tko_status.specs.Pages.{load_cells, worker_row, worker_table, workers_part};

use crate::cells::add_number_cell;
use crate::page::StatusPage;
use crate::pieces::{Piece, add_piece};
use tko_bytes::{NoMemory, append};
use tko_metrics::{WorkerLoad, WorkerReading, add_digits};

impl StatusPage<'_> {
    /// Appends the workers, if they are event-driven.
    pub(crate) fn add_workers(&self, out: &mut Vec<u8>) -> Result<(), NoMemory>
        ensures { OnOk result (out.new.items ≡ out.old.items ++ workers_part self.now) }
    {
        match &self.status.workers {
            Some(workers) => add_worker_table(out, workers),
            None => Ok(()),
        }
    }
}

/// Appends a table of these workers.
#[tactic(auto, unfolding(crate::specs::Pages::worker_table))]
fn add_worker_table(out: &mut Vec<u8>, workers: &[WorkerReading]) -> Result<(), NoMemory>
    ensures { OnOk result (out.new.items ≡ out.old.items ++ worker_table workers.now) }
{
    add_piece(out, Piece::WorkersFront)?;
    add_rows(out, workers)?;
    add_piece(out, Piece::TableEnd)
}

/// Appends a row for each of these workers.
fn add_rows(out: &mut Vec<u8>, workers: &[WorkerReading]) -> Result<(), NoMemory>
    ensures { OnOk result
        (out.new.items ≡ out.old.items ++ flat_map worker_row workers.now) }
{
    for each in workers {
        add_worker_row(out, *each)?;
    }
    Ok(())
}

#[tactic(auto, unfolding(crate::specs::Pages::worker_row))]
fn add_worker_row(out: &mut Vec<u8>, each: WorkerReading) -> Result<(), NoMemory>
    ensures { OnOk result (out.new.items ≡ out.old.items ++ worker_row each) }
{
    add_piece(out, Piece::WorkerRow)?;
    add_digits(out, each.worker)?;
    append(out, &[b"</th>"])?;
    add_load(out, each.load)?;
    append(out, &[b"</tr>\n"])
}

/// Appends the load of a worker.
#[tactic(auto, unfolding(crate::specs::Pages::load_cells))]
fn add_load(out: &mut Vec<u8>, load: WorkerLoad) -> Result<(), NoMemory>
    ensures { OnOk result (out.new.items ≡ out.old.items ++ load_cells load) }
{
    add_number_cell(out, load.clients)?;
    add_number_cell(out, load.connections)?;
    add_number_cell(out, load.waiting)
}
