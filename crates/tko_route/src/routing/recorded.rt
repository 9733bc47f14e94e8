//! A send that is out ends where what came of it was recorded.
ghost use Rattle.std.specs.Prelude.{◌≡◌, ◌↔◌, ◌+◌, ◌<◌, ◌≤◌, ◌∷◌, ◌++◌, ℕ, All, IsSome, List, length, vec_capacity};
ghost use Rattle.tko_route.specs.Calls.{RoutedCall};
ghost use Rattle.tko_route.specs.Routing.{FindsUp, GoesOn, IsAwaited, IsAwaitedAndRecorded};
ghost use Rattle.tko_route.specs.Routing.{IsBrought, IsConcluded, Reached, came_of, last_place};
ghost use Rattle.tko_route.specs.Routing.{told_of, tries};
ghost use Rattle.tko_route.specs.Trail.{MakesTrail, op_of};
ghost use Rattle.tko_text.specs.declared.request.Request.{Request};

use crate::attempt::{Attempt, Trail};
use crate::recording::{conclude, is_answered};
use crate::routing::{AwaitedSend, Stage, look_on};
use std::sync::Wait;
use tko_health::Health;
use tko_links::Outcome;
use tko_model::Reply;
use tko_text::Request;

impl AwaitedSend {
    /// The attempts before this send, and its own.
    fn attempts_with(self, outcome: Outcome, reply: Option<Reply>) -> Vec<Attempt>
        requires { IsSome reply ↔ IsSome (op_of outcome) }
        ensures calls { (form : ℕ → Request) (calls : List RoutedCall)
            → FindsUp form calls self.attempts self.server
            → MakesTrail form (calls ++ came_of form self outcome ∷ told_of self outcome reply)
            result.items }
        ensures one { length result.items ≡ length self.attempts + 1 }
        ensures room { vec_capacity result ≡ self.room }
        ensures concluded { (targets : List ℕ) → IsAwaited targets self
            → IsConcluded targets result.items }
    {
        let mut attempts = self.attempts;
        attempts.push_reserved(conclude(self.server, outcome, reply));
        attempts
    }

    /// Makes the attempt of a send of which this came, where a call that other requests may share
    /// recorded it already and got this reply. Goes on to the next target unless it was answered.
    #[inline(always)]
    pub fn recorded<R: Wait, H: Health>(
        self,
        rt: &R,
        health: &mut H,
        targets: &[usize],
        request: &mut Request,
        exptime: u32,
        outcome: Outcome,
        reply: Option<Reply>,
    ) -> Stage
        requires health { All (λ target. target < H.servers health.old) targets.now }
        requires sent { IsAwaitedAndRecorded targets.now self outcome reply }
        ensures calls { GoesOn H.steps health.old (λ more.
            (form : ℕ → Request) (calls : List RoutedCall)
            → FindsUp form calls self.attempts self.server
            → Reached targets.now form
            (calls ++ came_of form self outcome ∷ (told_of self outcome reply ++ more)) result)
            health.new }
        ensures request { IsBrought exptime (request.old, length self.attempts)
            (request.new, last_place result) }
        ensures grown { length self.attempts < tries result }
        ensures servers { H.servers health.new ≡ H.servers health.old }
    {
        let attempts = self.attempts_with(outcome, reply);
        if is_answered(&attempts) {
            return Stage::Done(Trail::of(attempts));
        }
        look_on(rt, health, targets, request, exptime, attempts)
    }
}
