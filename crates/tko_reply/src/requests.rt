//! Requests by their keys.
ghost use Rattle.std.specs.Prelude.{◌≡◌, ◌<◌, ◌↔◌, [], ◌∷◌, ℕ, Bool, List, IfOk, IsTrue, length};
ghost use Rattle.std.specs.Prelude.{slice_get};
ghost use Rattle.std.specs.Option.{option_copied};
ghost use Rattle.tko_reply.specs.Answers.{IsKeyed, request_keys};
ghost use Rattle.tko_reply.specs.Answering.{IsSplit, retrieval};

use crate::keys_left::KeysLeft;
use std::alloc::Global;
use tko_bytes::NoMemory;
use tko_text::{Key, Request};

/// The first key of a request, if it has one.
pub(crate) fn first_key(request: &Request) -> Option<&Key>
    ensures { option_copied result ≡ slice_get (request_keys request.now) 0 }
{
    match request {
        Request::Get { keys } => keys.as_slice().first(),
        Request::Gets { keys } => keys.as_slice().first(),
        Request::Store { entry, .. } => Some(&entry.key),
        Request::Cas { entry, .. } => Some(&entry.key),
        Request::Delete { key, .. } => Some(key),
        Request::Incr { key, .. } => Some(key),
        Request::Decr { key, .. } => Some(key),
        Request::Touch { key, .. } => Some(key),
        Request::Version => None,
        Request::Quit => None,
        Request::StatsTko => None,
    }
}

/// Whether it is a request for the values of several keys.
pub fn has_several(request: &Request) -> bool
    ensures several { IsTrue result ↔ (1 < length (request_keys request.now)) }
    ensures some { IsKeyed request.now → 0 < length (request_keys request.now) }
{
    match request {
        Request::Get { keys } => keys.as_slice().len() > 1,
        Request::Gets { keys } => keys.as_slice().len() > 1,
        _ => false,
    }
}

/// Leaves its first key alone to a request for the values of several, and returns the others.
pub fn split_keys(request: &mut Request, alloc: Global) -> Result<KeysLeft, NoMemory>
    requires { 1 < length (request_keys request.old) }
    ensures { IfOk result (λ left. IsSplit request.old request.new left) }
{
    match request {
        Request::Get { keys } => Ok(KeysLeft::of(keys.split_first(alloc)?)),
        Request::Gets { keys } => Ok(KeysLeft::of(keys.split_first(alloc)?)),
        _ => unreachable!(),
    }
}

/// Puts another key into a request for values.
pub(crate) fn set_key(request: &mut Request, key: Key)
    ensures { (keys : List (List ℕ)) (unique : Bool)
        → request.old ≡ retrieval keys unique → request.new ≡ retrieval (key ∷ []) unique }
{
    match request {
        Request::Get { keys } => keys.set_only(key),
        Request::Gets { keys } => keys.set_only(key),
        _ => {}
    }
}
