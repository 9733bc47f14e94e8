//! What a page shows of all clients together.
ghost use Rattle.std.specs.Prelude.{◌≡◌, ◌++◌, OnOk};
ghost use Rattle.tko_status.specs.Pages.{client_items, number_item, overview_text, rate_item, recent_rate, traffic_items};

use crate::durations::add_rate;
use crate::page::StatusPage;
use crate::pieces::{Piece, add_piece};
use tko_bytes::{NoMemory, append};
use tko_metrics::add_digits;

impl StatusPage<'_> {
    /// Appends what is counted of all clients.
    #[tactic(auto, unfolding(crate::specs::Pages::overview_text))]
    pub(crate) fn add_overview(&self, out: &mut Vec<u8>) -> Result<(), NoMemory>
        ensures { OnOk result (out.new.items ≡ out.old.items ++ overview_text self.now) }
    {
        self.add_clients(out)?;
        self.add_traffic(out)?;
        add_piece(out, Piece::ItemsEnd)
    }

    /// Appends how many clients there are, and how often they ask.
    #[tactic(auto, unfolding(crate::specs::Pages::client_items))]
    fn add_clients(&self, out: &mut Vec<u8>) -> Result<(), NoMemory>
        ensures { OnOk result (out.new.items ≡ out.old.items ++ client_items self.now) }
    {
        add_item(out, b"Clients connected", self.status.connected)?;
        self.add_rate_item(out)?;
        add_item(out, b"Requests", self.status.sums.requests)
    }

    /// Appends what became of what the clients asked.
    #[tactic(auto, unfolding(crate::specs::Pages::traffic_items))]
    fn add_traffic(&self, out: &mut Vec<u8>) -> Result<(), NoMemory>
        ensures { OnOk result (out.new.items ≡ out.old.items ++ traffic_items self.now) }
    {
        add_item(out, b"Hits", self.status.sums.hits)?;
        add_item(out, b"Misses", self.status.sums.misses)?;
        add_item(out, b"Refused", self.status.refused)
    }

    /// Appends how many requests a second there are.
    #[tactic(auto, unfolding(crate::specs::Pages::rate_item))]
    fn add_rate_item(&self, out: &mut Vec<u8>) -> Result<(), NoMemory>
        ensures { OnOk result (out.new.items ≡ out.old.items ++ rate_item self.now) }
    {
        add_piece(out, Piece::RateFront)?;
        self.add_recent_rate(out)?;
        add_piece(out, Piece::ItemEnd)
    }

    /// Appends how many requests a second there were in the last minute.
    fn add_recent_rate(&self, out: &mut Vec<u8>) -> Result<(), NoMemory>
        ensures { OnOk result (out.new.items ≡ out.old.items ++ recent_rate self.now) }
    {
        match self.past.first() {
            Some(first) => add_rate(
                out,
                self.status.sums.requests.saturating_sub(first.requests),
                self.uptime.saturating_sub(first.moment),
            ),
            None => add_rate(out, 0, 0),
        }
    }
}

/// Appends a number with what it counts.
#[tactic(auto, unfolding(crate::specs::Pages::number_item))]
fn add_item(out: &mut Vec<u8>, label: &[u8], number: u64) -> Result<(), NoMemory>
    ensures { OnOk result (out.new.items ≡ out.old.items ++ number_item label.now number) }
{
    append(out, &[b"<div><dt>", label, b"</dt><dd>"])?;
    add_digits(out, number)?;
    add_piece(out, Piece::ItemEnd)
}
