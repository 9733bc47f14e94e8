//! What holds of each client of a worker, whatever is done for others between.
ghost use Rattle.std.specs.Prelude.{◌≡◌, ℕ, List};
ghost use Rattle.tko_model.specs.Records.{Gains};
ghost use Rattle.tko_roster.specs.Rosters.{IsRosterStep, RosterAct, RosterState, nobody};
ghost use Rattle.tko_roster.specs.Tagged.{Tagged};
ghost use Rattle.tko_pools.specs.Configs.{Configuration};
ghost use Rattle.tko_text.specs.declared.request.Request.{Request};
ghost use Rattle.tko_reply.specs.Ghosts.{parts_ghosts};
ghost use Rattle.tko_reply.specs.Interactions.{Interaction};
ghost use Rattle.tko_reply.specs.declared.parts.Parts.{Parts};
ghost use Rattle.tko_keys.specs.declared.plan.KeyPlan.{KeyPlan};
ghost use Rattle.tko_session.specs.Acts.{IsAct};
ghost use Rattle.tko_session.specs.Clients.{ClientState, IsClient, Life, lived, new_client, no_life};
ghost use Rattle.tko_session.specs.ManyClients.{ActsOn, AreNew, AreServed};
ghost use Rattle.tko_session.specs.Turns.{IsRequestCut, IsRequestCutWithin, IsSessionTurn, IsTurnWithin, SessionTurn};

use crate::Trails;
use tko_io::Clock;
use tko_links::Links;
use tko_route::Health;

/// A client that comes has no life yet.
pub fn client_begins()
    ensures { (config : _) (plan : KeyPlan) → IsClient config no_life (new_client plan) }
{}

/// Each act for a client goes on with its life, and adds to it what was done.
pub fn client_acts()
    ensures { (config : _) (it : Life) (old : ClientState) (adds : Life) (new : ClientState)
        → IsClient config it old → IsAct config old adds new
        → IsClient config (lived it adds) new }
{}

/// Where at most one key of a request is under way at a time, the keys are asked for one after
/// another.
pub fn keys_in_turn()
    ensures turns { (plan : KeyPlan) (config : Configuration) (turn : SessionTurn)
        (done : List Interaction) → plan.most ≡ 1
        → IsTurnWithin plan config turn done → IsSessionTurn config turn done }
    ensures cuts { (plan : KeyPlan) (config : Configuration) (request : Request)
        (done : List Interaction) → plan.most ≡ 1
        → IsRequestCutWithin plan config request done → IsRequestCut config request done }
{}

/// Many clients are served on one thread over the same parts, and each has a life of its own acts.
pub fn served<H: Health, L: Links, T: Trails, C: Clock>()
    ensures { (awaited : ClientState → List ℕ) (plan : KeyPlan) (old : Parts H L T C)
        (acts : List (Tagged (RosterAct ClientState Life)))
        (new : RosterState ClientState (Parts H L T C)) → AreNew plan acts
        → Gains (IsRosterStep
        (ActsOn (parts_ghosts H.Health L.Links T.Trails C.Clock) old.config) awaited)
        (nobody old) acts new
        → AreServed (parts_ghosts H.Health L.Links T.Trails C.Clock) plan old acts new }
{}
