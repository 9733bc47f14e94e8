//! What holds of every roster.
ghost use Rattle.std.specs.Prelude.{List};
ghost use Rattle.tko_model.specs.Records.{Gains};
ghost use Rattle.tko_roster.specs.Rosters.{IsRosterStep, IsServed};

use crate::Driven;

/// What the acts of a roster mean, number by number.
pub fn own_acts<P, S: Driven<P>>()
    ensures { (old : _) (items : List _) (new : _)
        → Gains (IsRosterStep S.acts S.awaited) old items new
        → IsServed S.acts S.awaited old items new }
{}
