//! The routing of one request as a value that sends nothing itself: its caller sends. A look-up or
//! a record of an outcome may wait for a lock of the health.
//!
//! - `Stage`: how far a routing came. `begin` looks for the first server that is up.
//! - `AwaitedSend`: a request was sent. `answered` records what came of it, and goes on; `recorded`
//!   goes on where a call that other requests share recorded it.
ghost use Rattle.std.specs.Prelude.{◌≡◌, ◌+◌, ◌-◌, ◌<◌, ◌≤◌, ◌∷◌, ◌++◌, ℕ, All, IfOk, List, OnErr, length, vec_capacity};
ghost use Rattle.tko_route.specs.Calls.{RoutedCall};
ghost use Rattle.tko_route.specs.Routing.{FindsUp, GoesOn, IsAwaited, IsBrought, IsUnbegun};
ghost use Rattle.tko_route.specs.Routing.{MayTryOn, Reached, came_of, last_place, tries};
ghost use Rattle.tko_route.specs.Trail.{MakesTrail, form_at};
ghost use Rattle.tko_route.specs.Underway.{has_next};
ghost use Rattle.tko_text.specs.SentRequests.{without_noreply};
ghost use Rattle.tko_text.specs.declared.request.Request.{Request};

use crate::attempt::{Attempt, Trail};
use crate::recording::record_outcome;
use crate::routed::RouteFault;
use std::alloc::Global;
use std::marker::Model;
use std::sync::Wait;
use tko_bytes::NoMemory;
use tko_health::Health;
use tko_links::Outcome;
use tko_model::{Clear, Look};
use tko_text::Request;

mod recorded;

/// A routed request that was sent to a server, until its outcome is recorded.
#[derive(Debug, Drop)]
pub struct AwaitedSend {
    attempts: Vec<Attempt>,
    server: usize,
}

/// How far a routing came.
#[derive(Debug, Drop)]
pub enum Stage {
    /// The request, as it is now, may be sent once to the server that the permission names.
    Away(Clear, AwaitedSend),
    /// A target answered, or none is left: these are all attempts.
    Done(Trail),
}

impl Model for AwaitedSend {
    ghost use Rattle.std.specs.Prelude.{◌<◌, length, vec_capacity};
    ghost use Rattle.tko_route.specs.Underway.{Awaited};

    ghost Value = { Awaited };

    ghost view = { λ w. record {
      attempts = w.attempts.items;
      room = vec_capacity w.attempts;
      server = w.server;
    } };

    ghost invariant = { λ w. length w.attempts.items < vec_capacity w.attempts };
}

impl Stage {
    /// Begins to route a request: drops its `noreply`, and looks for the first server to send to.
    pub fn begin<R: Wait, H: Health>(
        rt: &R,
        alloc: Global,
        health: &mut H,
        targets: &[usize],
        request: &mut Request,
        exptime: u32,
    ) -> Result<Stage, NoMemory>
        requires health { All (λ target. target < H.servers health.old) targets.now }
        ensures calls { IfOk result (λ stage. GoesOn H.steps health.old
            (λ calls. (form : ℕ → Request) → Reached targets.now form calls stage) health.new) }
        ensures ok_request { IfOk result (λ stage.
            request.new ≡ form_at exptime (without_noreply request.old) (last_place stage)) }
        ensures err { OnErr result (IsUnbegun targets.now (health.old, request.old)
            (health.new, request.new)) }
        ensures servers { H.servers health.new ≡ H.servers health.old }
    {
        request.drop_noreply();
        let attempts = Vec::with_capacity(alloc, targets.len())?;
        Ok(look_on(rt, health, targets, request, exptime, attempts))
    }
}

impl AwaitedSend {
    /// The server that the request was sent to.
    pub fn server(&self) -> usize
        ensures { result ≡ self.now.server }
    {
        self.server
    }

    /// The attempts before this send.
    pub fn attempts(&self) -> &[Attempt]
        ensures { result.now ≡ self.now.attempts }
    {
        self.attempts.as_slice()
    }

    /// Whether another of these targets is left after this send.
    pub fn has_next(&self, targets: &[usize]) -> bool
        ensures { result ≡ has_next self.now targets.now }
    {
        self.attempts.len() + 1 < targets.len()
    }

    /// Records what came of the send, and goes on to the next target unless it was answered.
    pub fn answered<R: Wait, H: Health>(
        self,
        rt: &R,
        health: &mut H,
        targets: &[usize],
        request: &mut Request,
        exptime: u32,
        outcome: Outcome,
    ) -> Stage
        requires health { All (λ target. target < H.servers health.old) targets.now }
        requires awaited { IsAwaited targets.now self }
        ensures calls { GoesOn H.steps health.old (λ more.
            (form : ℕ → Request) (calls : List RoutedCall)
            → FindsUp form calls self.attempts self.server
            → Reached targets.now form (calls ++ came_of form self outcome ∷ more) result)
            health.new }
        ensures request { IsBrought exptime (request.old, length self.attempts)
            (request.new, last_place result) }
        ensures grown { length self.attempts < tries result }
        ensures servers { H.servers health.new ≡ H.servers health.old }
    {
        let reply = record_outcome(rt, health, self.server, &outcome);
        self.recorded(rt, health, targets, request, exptime, outcome, reply)
    }

    /// Ends the routing where memory ran out at the send.
    pub fn stop(self, fault: tko_links::ExchangeNoMemory) -> RouteFault
        ensures trail { result.trail ≡ self.attempts }
        ensures sent { result.sent ≡ fault.sent }
    {
        let trail = Trail::of(self.attempts);
        let sent = fault.sent;
        RouteFault { trail, sent }
    }
}

/// Brings a request from the form of the place before into the form of this place.
fn prepare(request: &mut Request, place: usize, exptime: u32)
    ensures { IsBrought exptime (request.old, place - 1) (request.new, place) }
{
    if place == 1 {
        request.replace_expiry(exptime);
    }
}

/// Looks up the targets after those tried, in order, until one is up, and skips marked ones. Brings
/// the request into the form in which that server gets it: from the second target of the list on,
/// its expiry is replaced.
#[inline(always)]
fn look_on<R: Wait, H: Health>(
    rt: &R,
    health: &mut H,
    targets: &[usize],
    request: &mut Request,
    exptime: u32,
    mut attempts: Vec<Attempt>,
) -> Stage
    requires health { All (λ target. target < H.servers health.old) targets.now }
    requires attempts { MayTryOn targets.now attempts.items (vec_capacity attempts) }
    ensures calls { GoesOn H.steps health.old
        (λ more. (form : ℕ → Request) (calls : List RoutedCall)
        → MakesTrail form calls attempts.items
        → Reached targets.now form (calls ++ more) result) health.new }
    ensures request { IsBrought exptime (request.old, length attempts.items - 1)
        (request.new, last_place result) }
    ensures grown { length attempts.items ≤ tries result }
    ensures servers { H.servers health.new ≡ H.servers health.old }
{
    while attempts.len() < targets.len() {
        let server = targets[attempts.len()];
        prepare(request, attempts.len(), exptime);
        match health.look_up(rt, server) {
            Look::Up(_, clear) => return Stage::Away(clear, AwaitedSend { attempts, server }),
            Look::Marked(mark) => attempts.push_reserved(Attempt::Skipped(server, mark)),
        }
    }
    Stage::Done(Trail::of(attempts))
}
