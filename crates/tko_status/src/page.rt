//! The page: what it shows, and its text.
ghost use Rattle.std.specs.Prelude.{◌≡◌, ◌++◌, IfOk, OnOk};
ghost use Rattle.tko_status.specs.Pages.{status_page_text, tables_text};

use crate::past::PastReading;
use crate::pieces::{Piece, add_piece};
use std::alloc::Global;
use tko_bytes::NoMemory;
use tko_metrics::{Build, ShownPool, Status};

/// What a page shows.
#[derive(Drop)]
pub struct StatusPage<'a> {
    pub build: Build,
    /// For how long the server runs, in milliseconds.
    pub uptime: u64,
    /// The moment of the page, in milliseconds since 1970.
    pub moment: u64,
    /// Whether a browser asks for it again after 2 seconds.
    pub is_refreshed: bool,
    pub status: Status<'a>,
    pub pools: &'a [ShownPool],
    /// What was counted until moments of the last minute.
    pub past: &'a [PastReading],
}

impl StatusPage<'_> {
    /// Its text.
    pub fn text(&self, alloc: Global) -> Result<Vec<u8>, NoMemory>
        ensures { IfOk result (λ text. text.items ≡ status_page_text self.now) }
    {
        let mut out = Vec::new(alloc);
        self.add_head(&mut out)?;
        self.add_header(&mut out)?;
        self.add_overview(&mut out)?;
        self.add_tables(alloc, &mut out)?;
        Ok(out)
    }

    /// Appends the tables, and the end of the page.
    #[tactic(auto, unfolding(crate::specs::Pages::tables_text))]
    fn add_tables(&self, alloc: Global, out: &mut Vec<u8>) -> Result<(), NoMemory>
        ensures { OnOk result (out.new.items ≡ out.old.items ++ tables_text self.now) }
    {
        self.add_pools(alloc, out)?;
        self.add_workers(out)?;
        add_piece(out, Piece::PageEnd)
    }
}
