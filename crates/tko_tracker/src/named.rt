//! A name for one tracker.

use std::marker::Brand;

/// Names one tracker for contracts: a type that works with any tracker's passes takes `N: Named`,
/// and each pass that it holds is one of `N.tracker`. It has no calls.
pub trait Named {
    ghost use Rattle.tko_tracker.specs.Seated.{TrackerId};

    ghost tracker: { TrackerId };
}

impl Named for Brand {
    ghost use Rattle.std.specs.Prelude.{[], ◌∷◌};

    ghost tracker = { record {
      settings = record {
        servers = 1;
        threads = 1;
        failures = 1;
        limits = 0 ∷ [];
        group_of = 0 ∷ [];
        tries = 1;
        opening_stamp = 0;
      };
      table = record {
        words = 3;
        slots = 0;
        views_name = 0;
        atom = 0;
        block = 0;
        offset = 0;
        slot_names = [];
      };
    } };
}
