//! What the record of this crate's own links means.
ghost use Rattle.std.specs.Prelude.{List};
ghost use Rattle.tko_model.specs.Records.{Gains};
ghost use Rattle.tko_links.specs.Links.{LinksItem};
ghost use Rattle.tko_links.specs.Scripted.{IsScriptReplay, ScriptedState};

use crate::links::Links;
use crate::scripted::Scripted;

/// A record of scripted links plays the scripts in order, counts each send, and keeps the
/// bytes of each request.
pub fn scripted_replays()
    ensures { (old new : ScriptedState) (items : List LinksItem)
        → Gains ⟦<Scripted as Links>⟧.exchanges old items new → IsScriptReplay old items new }
{}
