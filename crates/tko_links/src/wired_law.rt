//! What the record of links over a wire means.
ghost use Rattle.std.specs.Prelude.{List};
ghost use Rattle.tko_model.specs.Records.{Gains};
ghost use Rattle.tko_links.specs.Links.{LinksItem};
ghost use Rattle.tko_links.specs.WireRecords.{IsWireRecord};
ghost use Rattle.tko_links.specs.Wired.{WiredState};

use crate::links::Links;
use crate::wire::Wire;
use crate::wired::Wired;

/// Over a record of links over a wire, the wire did exactly the calls of one exchange for each
/// item, at that item's server alone, and wrote a beginning of what was asked there.
pub fn wired_records<W: Wire>()
    ensures { (old new : WiredState W) (items : List LinksItem)
        → Gains ⟦<Wired<W> as Links>⟧.exchanges old items new → IsWireRecord W.steps old items new }
{}
