//! A request that was dropped because memory ran out.
ghost use Rattle.std.specs.Prelude.{◌≡◌};

use std::marker::Model;
use tko_bytes::NoMemory;
use tko_route::{Attempt, AwaitedSend, Trail};

/// Memory ran out, and the request was dropped. It has the attempts of whose marks nobody was told;
/// contracts see their list.
#[derive(Drop)]
pub struct Dropped {
    trail: Option<Trail>,
}

impl Model for Dropped {
    ghost use Rattle.std.specs.Prelude.{[], List, unwrap_or};
    ghost use Rattle.tko_route.specs.declared.attempt.Attempt.{Attempt};

    ghost Value = { List Attempt };

    ghost view = { λ d. unwrap_or d.trail [] };
}

impl Dropped {
    pub(crate) fn after(trail: Trail) -> Dropped
        ensures { result ≡ trail }
    {
        Dropped { trail: Some(trail) }
    }

    /// The attempts whose marks are to be noted; they are no trail that is recorded.
    pub fn attempts(&self) -> &[Attempt]
        ensures { result.now ≡ self.now }
    {
        match &self.trail {
            Some(trail) => trail.attempts(),
            None => &[],
        }
    }
}

impl From<NoMemory> for Dropped {
    ghost use Rattle.std.specs.Prelude.{◌≡◌, []};

    ghost from_gives = { λ _ dropped. dropped ≡ [] };

    fn from(_: NoMemory) -> Dropped {
        Dropped { trail: None }
    }
}

/// Drops a request where memory ran out at its send.
pub fn stop(awaited: AwaitedSend, fault: tko_links::ExchangeNoMemory) -> Dropped
    ensures { result ≡ awaited.attempts }
{
    Dropped::after(awaited.stop(fault).trail)
}
