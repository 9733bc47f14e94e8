//! The head of the page, and what it says of itself.
ghost use Rattle.std.specs.Prelude.{◌≡◌, ◌++◌, OnOk};
ghost use Rattle.tko_status.specs.Pages.{head_text, header_text, refresh_note, refresh_text};

use crate::durations::add_duration;
use crate::escaping::add_escaped;
use crate::page::StatusPage;
use crate::pieces::{Piece, add_piece};
use tko_bytes::NoMemory;

impl StatusPage<'_> {
    /// Appends the head of the page.
    #[tactic(auto, unfolding(crate::specs::Pages::head_text))]
    pub(crate) fn add_head(&self, out: &mut Vec<u8>) -> Result<(), NoMemory>
        ensures { OnOk result (out.new.items ≡ out.old.items ++ head_text self.now) }
    {
        add_piece(out, Piece::HeadFront)?;
        add_refresh(out, self.is_refreshed)?;
        add_piece(out, Piece::Style)?;
        add_piece(out, Piece::HeadEnd)
    }

    /// Appends the version, for how long it runs, and whether the page is refreshed.
    #[tactic(auto, unfolding(crate::specs::Pages::header_text))]
    pub(crate) fn add_header(&self, out: &mut Vec<u8>) -> Result<(), NoMemory>
        ensures { OnOk result (out.new.items ≡ out.old.items ++ header_text self.now) }
    {
        add_escaped(out, self.build.version)?;
        add_piece(out, Piece::Running)?;
        add_duration(out, self.uptime)?;
        add_piece(out, refresh_note(self.is_refreshed))
    }
}

/// Appends what lets a browser ask again, if it is to.
fn add_refresh(out: &mut Vec<u8>, is_refreshed: bool) -> Result<(), NoMemory>
    ensures { OnOk result (out.new.items ≡ out.old.items ++ refresh_text is_refreshed) }
{
    if is_refreshed {
        add_piece(out, Piece::Refresh)
    } else {
        Ok(())
    }
}

/// What the page says of being refreshed.
fn refresh_note(is_refreshed: bool) -> Piece
    ensures { result ≡ refresh_note is_refreshed }
{
    if is_refreshed {
        Piece::RefreshOn
    } else {
        Piece::RefreshOff
    }
}
