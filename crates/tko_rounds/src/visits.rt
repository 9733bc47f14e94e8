//! What a round does with the parts that all clients of a worker share.

use crate::coming::{probed_by, result_of};
use tko_client::Lent;
use tko_io::IoRuntime;
use tko_model::{Duty, Reply};
use tko_mux::Came;
use tko_prober::ProbeEnd;
use tko_roster::PartsVisit;
use tko_route::Health;
use tko_session::Trails;

/// Begins a prober for each server that was marked.
#[derive(Drop)]
pub(crate) struct BeginProbers {
    pub moment: u64,
}

impl<'r, R: IoRuntime, H: Health, T: Trails, C> PartsVisit<Lent<'r, R, H, T, C>> for BeginProbers {
    ghost use Rattle.std.specs.Prelude.{◌≡◌};
    ghost use Rattle.tko_client.specs.Steps.{HasStayed};
    ghost use Rattle.tko_rounds.specs.Parts.{with_begun};

    type Output = ();

    ghost does = { λ it old _ new. new.parts ≡ with_begun it.moment old.parts };

    ghost stays = { λ old new. HasStayed H.servers old.parts new.parts };

    fn visit(self, lent: &mut Lent<'r, R, H, T, C>) {
        lent.parts.backend.probers.begin(self.moment);
    }
}

/// Finds whether a probe of a server is due, and gets the right to send it.
#[derive(Drop)]
pub(crate) struct FindDue {
    pub server: usize,
    pub moment: u64,
}

impl<'r, R: IoRuntime, H: Health, T: Trails, C> PartsVisit<Lent<'r, R, H, T, C>> for FindDue {
    ghost use Rattle.std.specs.Prelude.{◌≡◌, ◌<◌};
    ghost use Rattle.tko_client.specs.Steps.{HasStayed};
    ghost use Rattle.tko_rounds.specs.Parts.{FindsDue};

    type Output = Option<Duty>;

    ghost does = { λ it old duty new. it.server < H.servers old.parts.backend.health
        → FindsDue H.Health it.moment it.server old.parts duty new.parts };

    ghost stays = { λ old new. HasStayed H.servers old.parts new.parts };

    fn visit(self, lent: &mut Lent<'r, R, H, T, C>) -> Option<Duty> {
        if self.server >= lent.parts.backend.health.servers() {
            return None;
        }
        match lent.parts.backend.due(lent.rt, self.server, self.moment) {
            Some(duty) => Some(duty),
            None => None,
        }
    }
}

/// Takes what came of a probe: it is recorded as the prober asks, and told.
#[derive(Drop)]
pub(crate) struct TakeResult {
    pub server: usize,
    pub moment: u64,
    pub came: Came,
    /// How often the server was probed.
    pub probes: u64,
}

impl<'r, R: IoRuntime, H: Health, T: Trails, C> PartsVisit<Lent<'r, R, H, T, C>> for TakeResult {
    ghost use Rattle.std.specs.Prelude.{◌≡◌, ◌<◌};
    ghost use Rattle.tko_client.specs.Steps.{HasStayed};
    ghost use Rattle.tko_rounds.specs.Parts.{TakesResult};

    type Output = Option<Reply>;

    ghost does = { λ it old reply new. it.server < H.servers old.parts.backend.health
        → TakesResult H.Health it.moment it.server it.came old.parts reply new.parts };

    ghost stays = { λ old new. HasStayed H.servers old.parts new.parts };

    fn visit(self, lent: &mut Lent<'r, R, H, T, C>) -> Option<Reply> {
        let TakeResult {
            server,
            moment,
            came,
            probes,
        } = self;
        if server >= lent.parts.backend.health.servers() {
            return None;
        }
        let probed = probed_by(&came);
        let reply = lent.parts.backend.came(lent.rt, server, moment, probed);
        let came = result_of(came);
        let probe = ProbeEnd {
            server,
            came,
            reply,
            probes,
        };
        lent.parts.trails.probed(lent.rt, &probe);
        reply
    }
}
