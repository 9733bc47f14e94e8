//! The keys of a request that was handed over, where a client keeps them.
ghost use Rattle.std.specs.Borrow.{Lends, sem};
ghost use Rattle.std.specs.Prelude.{◌≡◌, ◌<◌, IfOk, IfSome, length};
ghost use Rattle.tko_reply.specs.Answers.{request_keys};
ghost use Rattle.tko_keys.specs.KeysState.{IsNew};
ghost use Rattle.tko_client.specs.contracts.boxed_keys.BoxedKeys.{the_row};
ghost use Rattle.tko_keys.specs.contracts.keys_at_once.KeysAtOnce.{the_row as keys_row};

use std::alloc::Global;
use std::marker::Model;
use tko_bytes::NoMemory;
use tko_keys::{KeyPlan, KeysAtOnce};
use tko_text::Request;

/// Such keys, in memory of their own: a client that has none has room for a pointer alone.
#[derive(Drop)]
pub(crate) struct BoxedKeys {
    keys: Box<TimedKeys>,
}

/// Such keys, and for an observer that times responses when each request of them that is under way
/// was sent, in this order. The model of the box leaves the moments out.
#[derive(Drop)]
struct TimedKeys {
    keys: KeysAtOnce,
    moments: Vec<SentMoment>,
}

/// A request was sent to this server at this moment.
#[derive(Clone, Copy)]
struct SentMoment {
    server: usize,
    moment: u64,
}

impl Model for BoxedKeys {
    ghost use Rattle.tko_keys.specs.KeysState.{KeysState};

    ghost Value = { KeysState };

    ghost view = { λ boxed. boxed.keys.value.keys };
}

impl BoxedKeys {
    /// The keys of a request for several, and how they are to be sent.
    pub(crate) fn new(alloc: Global, request: Request, plan: KeyPlan) -> Result<BoxedKeys, NoMemory>
        requires several { 1 < length (request_keys request) }
        requires some { 0 < plan.most }
        ensures { IfOk result (λ keys. IsNew request plan keys) }
    {
        let room = key_count(&request).min(plan.most);
        let keys = KeysAtOnce::new(alloc, request, plan)?;
        let moments = Vec::with_capacity(alloc, room)?;
        let keys = Box::new(alloc, TimedKeys { keys, moments })?;
        Ok(BoxedKeys { keys })
    }

    pub(crate) fn get(&self) -> &KeysAtOnce
        ensures { result.now ≡ self.now }
    {
        &self.keys.keys
    }

    pub(crate) fn get_mut(&mut self) -> &mut KeysAtOnce
        ensures* lends { sem 𝓛 (Lends the_row keys_row self.entry result (λ keys. keys)) }
        ensures value { result.now ≡ self.old }
    {
        &mut self.keys.keys
    }

    pub(crate) fn into_inner(self) -> KeysAtOnce
        ensures { result ≡ self }
    {
        Box::into_inner(self.keys).keys
    }

    /// A request was sent to this server at this moment. There is room, since each of the requests
    /// under way is for a key of its own.
    pub(crate) fn note_sent(&mut self, server: usize, moment: u64)
        ensures { self.new ≡ self.old }
    {
        let _ = self.keys.moments.push(SentMoment { server, moment });
    }

    /// When the first of the requests under way to this server was sent, or the last of them, which
    /// is then forgotten.
    pub(crate) fn take_sent(&mut self, server: usize, last: bool) -> Option<u64>
        ensures { self.new ≡ self.old }
    {
        let place = place_of(self.keys.moments.as_slice(), server, last)?;
        Some(self.keys.moments.remove(place).moment)
    }
}

/// Where the first or the last of these is that was sent to this server.
fn place_of(moments: &[SentMoment], server: usize, last: bool) -> Option<usize>
    ensures { IfSome result (λ place. place < length moments.now) }
{
    if last {
        moments.iter().rposition(|sent| sent.server == server)
    } else {
        moments.iter().position(|sent| sent.server == server)
    }
}

/// How many keys a request for values has.
fn key_count(request: &Request) -> usize {
    match request {
        Request::Get { keys } => keys.as_slice().len(),
        Request::Gets { keys } => keys.as_slice().len(),
        _ => 1,
    }
}
