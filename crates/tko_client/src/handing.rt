//! A request for several keys is handed over by the session, and its reply is taken back.
ghost use Rattle.std.specs.Prelude.{◌≡◌, IfNone, IfSome};
ghost use Rattle.tko_client.specs.Handings.{AreKeysComplete, HasEndedKeys, HasHanded};

use crate::answering::Answering;
use crate::boxed_keys::BoxedKeys;
use crate::calls::Went;
use std::alloc::Global;

/// Hands over the request that was read, where it is one for several keys of which more than one
/// may be under way at once.
pub(crate) fn hand_over(alloc: Global, it: &mut Answering) -> Option<Went>
    ensures handed { IfSome result (λ went. HasHanded went it.old it.new) }
    ensures none { IfNone result (it.new ≡ it.old) }
{
    if it.plan.most <= 1 {
        return None;
    }
    let Some(request) = it.session.hand_over() else {
        return None;
    };
    match BoxedKeys::new(alloc, request, it.plan) {
        Ok(keys) => {
            it.keys = Some(keys);
            Some(Went::On)
        }
        Err(_) => {
            it.session.drop_request();
            Some(Went::Short)
        }
    }
}

/// Ends a request whose keys are complete: its reply is taken, or memory ran out for one of them
/// and it is dropped.
pub(crate) fn end_keys(it: &mut Answering) -> Went
    requires { AreKeysComplete it.old }
    ensures { HasEndedKeys result it.old it.new }
{
    let Some(keys) = it.keys.take() else {
        unreachable!();
    };
    let keys = keys.into_inner();
    if keys.is_lost() {
        it.session.drop_request();
        return Went::Short;
    }
    match it.session.take_reply(keys) {
        Ok(()) => Went::On,
        Err(_) => Went::Short,
    }
}
