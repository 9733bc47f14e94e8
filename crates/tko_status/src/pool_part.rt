//! The pools of a page, each with a table of its servers.
ghost use Rattle.std.specs.Prelude.{◌≡◌, ◌++◌, IfOk, OnOk, flat_map};
ghost use Rattle.tko_status.specs.Rows.{row_text};
ghost use Rattle.tko_status.specs.Pages.{caption_text, is_event_driven, member_row, past_counts, pool_table, pool_tables, recent_counts, pool_use_text};

use crate::counts::grown;
use crate::escaping::add_escaped;
use crate::page::StatusPage;
use crate::past::counts_of;
use crate::pieces::{Piece, add_piece};
use crate::server_row::add_row;
use std::alloc::{AllocError, Global};
use tko_bytes::{NoMemory, append};
use tko_metrics::{Shown, ShownPool, add_digits, used_of};

impl StatusPage<'_> {
    /// Appends the pools, in order.
    pub(crate) fn add_pools(&self, alloc: Global, out: &mut Vec<u8>) -> Result<(), NoMemory>
        ensures { OnOk result (out.new.items ≡ out.old.items ++ pool_tables self.now) }
    {
        for pool in self.pools {
            self.add_pool(alloc, out, pool)?;
        }
        Ok(())
    }

    /// Appends a pool.
    #[tactic(auto, unfolding(crate::specs::Pages::pool_table))]
    fn add_pool(&self, alloc: Global, out: &mut Vec<u8>, pool: &ShownPool) -> Result<(), NoMemory>
        ensures { OnOk result (out.new.items ≡ out.old.items ++ pool_table self.now pool.now) }
    {
        let used = used_of(&self.status.servers, &pool.servers);
        add_caption(out, pool.name.as_str(), used, pool.servers.len())?;
        self.add_members(alloc, out, &pool.servers)?;
        add_piece(out, Piece::TableEnd)
    }

    /// Appends a row for each server of these numbers.
    fn add_members(
        &self,
        alloc: Global,
        out: &mut Vec<u8>,
        numbers: &[usize],
    ) -> Result<(), NoMemory>
        ensures { OnOk result
            (out.new.items ≡ out.old.items ++ flat_map (member_row self.now) numbers.now) }
    {
        for number in numbers {
            self.add_member(alloc, out, *number)?;
        }
        Ok(())
    }

    /// Appends the row of the server of this number.
    fn add_member(&self, alloc: Global, out: &mut Vec<u8>, number: usize) -> Result<(), NoMemory>
        ensures { OnOk result (out.new.items ≡ out.old.items ++ member_row self.now number) }
    {
        match self.status.servers.get(number) {
            Some(server) => self.add_server(alloc, out, number, server),
            None => Ok(()),
        }
    }

    /// Appends the row of this server, which has this number.
    fn add_server(
        &self,
        alloc: Global,
        out: &mut Vec<u8>,
        number: usize,
        server: &Shown<'_>,
    ) -> Result<(), NoMemory>
        ensures { OnOk result (out.new.items ≡ out.old.items
            ++ row_text server.now self.now.moment (is_event_driven self.now)
            (recent_counts self.now number)) }
    {
        let up_to = self.recent_counts(alloc, number)?;
        let is_event_driven = self.status.workers.is_some();
        add_row(out, server, self.moment, is_event_driven, &up_to)
    }

    /// The answers of the last minute of the server of this number, by the bounds that they took
    /// at most.
    fn recent_counts(&self, alloc: Global, number: usize) -> Result<Vec<u64>, AllocError>
        ensures { IfOk result (λ counts. counts.items ≡ recent_counts self.now number) }
    {
        match self.status.timed.get(number) {
            Some(server) => {
                let counts = counts_of(alloc, &server.times.buckets)?;
                grown(alloc, &counts, self.past_counts(number))
            }
            None => Ok(Vec::new(alloc)),
        }
    }

    /// The same of all answers until a minute ago.
    fn past_counts(&self, number: usize) -> &[u64]
        ensures { result.now ≡ past_counts self.now number }
    {
        match self.past.first() {
            Some(first) => match first.times.get(number) {
                Some(counts) => counts,
                None => &[],
            },
            None => &[],
        }
    }
}

/// Appends the beginning of a table of servers: the pool, and how many of its servers are in use.
#[tactic(auto, unfolding(crate::specs::Pages::caption_text))]
fn add_caption(out: &mut Vec<u8>, name: &str, used: usize, all: usize) -> Result<(), NoMemory>
    ensures { OnOk result (out.new.items ≡ out.old.items ++ caption_text name.now used all) }
{
    add_piece(out, Piece::PoolFront)?;
    add_escaped(out, name)?;
    append(out, &[b"</b>: "])?;
    add_use(out, used, all)
}

/// Appends how many servers of a pool are in use, and the columns of its table.
#[tactic(auto, unfolding(crate::specs::Pages::pool_use_text))]
fn add_use(out: &mut Vec<u8>, used: usize, all: usize) -> Result<(), NoMemory>
    ensures { OnOk result (out.new.items ≡ out.old.items ++ pool_use_text used all) }
{
    add_digits(out, used as u64)?;
    append(out, &[b" of "])?;
    add_digits(out, all as u64)?;
    add_piece(out, Piece::CaptionEnd)
}
