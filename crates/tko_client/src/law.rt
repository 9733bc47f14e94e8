//! What the calls of a client are, whatever is done for others between.
ghost use Rattle.std.specs.Prelude.{List};
ghost use Rattle.tko_model.specs.Records.{Gains};
ghost use Rattle.tko_keys.specs.declared.plan.KeyPlan.{KeyPlan};
ghost use Rattle.tko_session.specs.Clients.{ClientState, new_client};
ghost use Rattle.tko_port.specs.Talks.{TalkItem};
ghost use Rattle.tko_client.specs.Clients.{HasLife, IsOwnTalk};
ghost use Rattle.tko_client.specs.Steps.{client_ghosts};

use tko_health::Health;
use tko_session::Trails;

/// What is done with a client since it came is one session's life.
pub fn each_lives<H: Health, T: Trails, C>()
    ensures { (config : _) (plan : KeyPlan) (items : List TalkItem) (now : ClientState)
        → Gains (IsOwnTalk (client_ghosts {C = C} H.Health T.Trails) config) (new_client plan)
        items now
        → HasLife config items now }
{}
