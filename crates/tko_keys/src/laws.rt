//! What the keys of a request come to, over all calls of them.
ghost use Rattle.std.specs.Prelude.{◌≡◌, ◌<◌, ◌++◌, ℕ, [], List, true, false, length};
ghost use Rattle.tko_pools.specs.Configs.{Configuration};
ghost use Rattle.tko_text.specs.declared.request.Request.{Request};
ghost use Rattle.tko_reply.specs.Answers.{request_keys};
ghost use Rattle.tko_reply.specs.Interactions.{Interaction};
ghost use Rattle.tko_reply.specs.Replies.{RoutedKey};
ghost use Rattle.tko_keys.specs.AtOnce.{AnswersAtOnce, IsCutAtOnce};
ghost use Rattle.tko_keys.specs.KeysActs.{KeysAct};
ghost use Rattle.tko_keys.specs.declared.plan.KeyPlan.{KeyPlan};
ghost use Rattle.tko_keys.specs.KeysSoFar.{KeysSoFar};
ghost use Rattle.tko_keys.specs.KeysState.{IsComplete, IsNew, KeysState, reply_in};

/// From where no key was begun, each call takes the keys on; once they are complete the request was
/// answered, or memory ran out for it.
pub fn keys_life()
    ensures new { (config : Configuration) (request : Request) (plan : KeyPlan) (state : KeysState)
        → 1 < length (request_keys request) → 0 < plan.most → IsNew request plan state
        → KeysSoFar config request state [] }
    ensures on { (config : Configuration) (request : Request) (old new : KeysState)
        (done adds : List Interaction) → KeysSoFar config request old done
        → KeysAct config old adds new → KeysSoFar config request new (done ++ adds) }
    ensures answers { (config : Configuration) (request : Request) (state : KeysState)
        (done : List Interaction) → KeysSoFar config request state done → IsComplete state
        → state.lost ≡ false → (routed : List RoutedKey)
        × AnswersAtOnce state.plan config request routed (reply_in state.slots) done }
    ensures cut { (config : Configuration) (request : Request) (state : KeysState)
        (done : List Interaction) → KeysSoFar config request state done → IsComplete state
        → state.lost ≡ true → IsCutAtOnce state.plan config request done }
{}
