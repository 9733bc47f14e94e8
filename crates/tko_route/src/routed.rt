//! What came of a routed request.
ghost use Rattle.std.specs.Option.{option_copied};
ghost use Rattle.std.specs.Prelude.{◌≡◌, [], false};
ghost use Rattle.tko_route.specs.Trail.{answer_of};

use crate::attempt::Trail;
use std::alloc::Global;
use tko_text::Response;

/// A routed request.
#[derive(Debug, Drop)]
pub struct Routed {
    pub trail: Trail,
}

impl Routed {
    /// The response of the last attempt, if it got one.
    pub fn response(&self) -> Option<&Response>
        ensures { option_copied result ≡ answer_of self.now.trail }
    {
        self.trail.response()
    }
}

/// Memory ran out: the attempts until then, and whether one more request was sent.
#[derive(Debug, Drop)]
pub struct RouteFault {
    pub trail: Trail,
    pub sent: bool,
}

impl RouteFault {
    /// Memory ran out before the first attempt.
    pub(crate) fn untried(alloc: Global) -> RouteFault
        ensures trail { result.trail ≡ [] }
        ensures sent { result.sent ≡ false }
    {
        let trail = Trail::of(Vec::new(alloc));
        RouteFault { trail, sent: false }
    }
}
