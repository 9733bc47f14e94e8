//! What a client's requests are answered by: its session, and the keys of a request that was handed
//! over.
ghost use Rattle.std.specs.Prelude.{◌≡◌, ◌≢◌, ◌<◌, [], IsSome, Some};
ghost use Rattle.std.specs.Bool.{OnFalse, OnTrue};
ghost use Rattle.tko_mux.specs.Awaits.{times_due};
ghost use Rattle.tko_pools.specs.Configs.{Configuration};
ghost use Rattle.tko_session.specs.Clients.{Open, new_client};
ghost use Rattle.tko_client.specs.Answerings.{IsAnsweringReady, IsClientIdle, MayCallClient};
ghost use Rattle.tko_client.specs.Answerings.{asked_by, awaited_by_client, client_at};
ghost use Rattle.tko_client.specs.Answerings.{has_next_by, held_by_client, waited_by};

use crate::boxed_keys::BoxedKeys;
use std::alloc::Global;
use tko_keys::KeyPlan;
use tko_session::Session;
use tko_text::Request;

/// A client's session. Where several keys of a request may be under way at once, a request for
/// several is handed over by the session, and its keys are here until the reply is complete.
#[derive(Drop)]
pub(crate) struct Answering {
    pub session: Session,
    pub keys: Option<BoxedKeys>,
    /// How the keys of a request may be sent.
    pub plan: KeyPlan,
    /// How many of the attempts at the session's key were told.
    pub told: usize,
}

impl Answering {
    /// Nothing came yet.
    pub(crate) fn new(alloc: Global, plan: KeyPlan) -> Answering
        ensures client { client_at Open result ≡ new_client plan }
        ensures here { awaited_by_client result ≡ [] }
        ensures idle { IsClientIdle result }
        ensures ready { (config : Configuration) → IsAnsweringReady config result }
    {
        Answering {
            session: Session::new(alloc),
            keys: None,
            plan,
            told: 0,
        }
    }

    /// Whether a request is under way.
    pub(crate) fn is_asking(&self) -> bool
        ensures some { OnTrue result (awaited_by_client self.now ≢ []) }
        ensures none { OnFalse result (awaited_by_client self.now ≡ []) }
    {
        match &self.keys {
            Some(keys) => keys.get().is_asking(),
            None => self.session.awaited().is_some(),
        }
    }

    /// Whether more can be done while requests are under way.
    pub(crate) fn may_do_more(&self) -> bool
        ensures { OnTrue result (MayCallClient self.now) }
    {
        match &self.keys {
            Some(keys) => keys.get().next_send().is_some() || keys.get().may_begin(),
            None => false,
        }
    }

    /// The request that is to be sent.
    pub(crate) fn request(&self) -> &Request
        requires { IsSome (asked_by self.now) }
        ensures { asked_by self.now ≡ Some result.now }
    {
        match &self.keys {
            Some(keys) => keys.get().request(),
            None => self.session.request(),
        }
    }

    /// The first request that is under way to this server.
    pub(crate) fn request_to(&self, server: usize) -> &Request
        requires { 0 < times_due (awaited_by_client self.now) server }
        ensures { waited_by self.now server ≡ Some result.now }
    {
        match &self.keys {
            Some(keys) => keys.get().request_to(server),
            None => self.session.request(),
        }
    }

    /// Whether the first request that is under way to this server may go on to another target: each
    /// of its keys has one. Without keys, whether the send that is out may.
    pub(crate) fn has_next_to(&self, server: usize) -> bool
        ensures { result ≡ has_next_by self.now server }
    {
        match &self.keys {
            Some(keys) => keys.get().has_next_to(server),
            None => self.session.has_next_target(),
        }
    }

    /// How many bytes of replies are held: of those that may be written, and of the one under way.
    pub(crate) fn held(&self) -> usize
        ensures { result ≡ held_by_client self.now }
    {
        let held = self.session.held();
        match &self.keys {
            Some(keys) => held.saturating_add(keys.get().held()),
            None => held,
        }
    }
}
