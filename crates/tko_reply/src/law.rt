//! What a reply to a request is where its keys are routed one after another.
ghost use Rattle.std.specs.Prelude.{List};
ghost use Rattle.tko_reply.specs.Replies.{IsReply, IsReplyInTurn};

/// With at most one key under way, no key is routed behind the first whose response is no list of
/// values, and all keys are where each response is one.
pub fn in_turn()
    ensures to { (keys : List _) (routed : List _) (reply : List _)
        → IsReply 1 keys routed reply → IsReplyInTurn keys routed reply }
    ensures from { (keys : List _) (routed : List _) (reply : List _)
        → IsReplyInTurn keys routed reply → IsReply 1 keys routed reply }
{}
