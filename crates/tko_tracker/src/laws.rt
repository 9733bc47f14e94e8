//! What `open` and `close` say together.
ghost use Rattle.std.specs.Prelude.{◌≡◌, List, length};
ghost use Rattle.tko_model.specs.Tracker.{opened};
ghost use Rattle.tko_table.specs.Closing.{ClosedContents};
ghost use Rattle.tko_tracker.specs.Closing.{IsFinal};
ghost use Rattle.tko_tracker.specs.Seated.{ArePasses, Seated, TrackerId};

/// A tracker that is closed with the passes as `open` gave them has changed no server: each is up,
/// at the opening stamp.
pub fn opened_tracker_is_up()
    ensures { (tracker : TrackerId) (passes : List Seated) (left : ClosedContents)
        → ArePasses tracker passes
        → length passes ≡ tracker.settings.threads → IsFinal tracker passes left
        → left.shared.servers ≡ (opened tracker.settings).servers }
{}
