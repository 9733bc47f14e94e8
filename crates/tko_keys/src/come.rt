//! What came of a request, for its keys.
ghost use Rattle.std.specs.Prelude.{◌≡◌, ◌≢◌, ◌∷◌, ◌↔◌, ℕ, [], true, IfNone, IfSome, IsTrue, List};
ghost use Rattle.std.specs.Prelude.{MatchOption, Some};
ghost use Rattle.tko_route.specs.Trail.{op_of};
ghost use Rattle.tko_keys.specs.KeysDriven.{keys_came_of};
ghost use Rattle.tko_keys.specs.KeysState.{nothing_came};
ghost use Rattle.tko_keys.specs.Lines.{key_in_request, outcome_for, part_for_key};
ghost use Rattle.tko_keys.specs.SlotCalls.{IsLeftForOthers};

use crate::line::key_of;
use crate::under_way::UnderWay;
use std::alloc::Global;
use std::marker::Model;
use std::mem::replace;
use std::vec::IntoIter;
use tko_links::Outcome;
use tko_model::Reply;
use tko_text::{Key, Request};

/// What came of a request, and the places of its keys that have not gone on with it yet.
#[derive(Drop)]
pub(crate) struct Come {
    first: Option<usize>,
    others: IntoIter<usize>,
    /// Whether the request was for several keys, each of which takes its part of the response.
    shared: bool,
    /// What came of the request; `None` where memory ran out.
    outcome: Option<Outcome>,
    /// What health replied to the call that recorded the outcome.
    reply: Option<Reply>,
}

impl Model for Come {
    ghost use Rattle.std.specs.Prelude.{◌++◌, option_to_list};
    ghost use Rattle.std.specs.Vec.Iter.{into_iter_items};
    ghost use Rattle.tko_keys.specs.KeysState.{KeysCame};

    ghost Value = { KeysCame };

    ghost view = { λ c. record {
      places = option_to_list c.first ++ into_iter_items c.others;
      shared = c.shared;
      outcome = c.outcome;
      reply = c.reply;
    } };
}

impl Come {
    /// Nothing came of any request.
    pub(crate) fn none(alloc: Global) -> Come
        ensures { result ≡ nothing_came }
    {
        Come {
            first: None,
            others: Vec::new(alloc).into_iter(),
            shared: false,
            outcome: None,
            reply: None,
        }
    }

    /// What came of a request, and the reply to the call that recorded it.
    pub(crate) fn of(
        alloc: Global,
        send: UnderWay,
        outcome: Option<Outcome>,
        reply: Option<Reply>,
    ) -> Come
        ensures { result ≡ keys_came_of send outcome reply }
    {
        let first = Some(send.first);
        match send.line {
            Some(line) => Come {
                first,
                others: line.others.into_iter(),
                shared: true,
                outcome,
                reply,
            },
            None => Come {
                first,
                others: Vec::new(alloc).into_iter(),
                shared: false,
                outcome,
                reply,
            },
        }
    }

    /// Whether a key is to be taken on.
    pub(crate) fn is_some(&self) -> bool
        ensures { IsTrue result ↔ (self.now.places ≢ []) }
    {
        self.first.is_some() || self.others.len() > 0
    }

    /// Takes the place of the next key.
    pub(crate) fn next_place(&mut self) -> Option<usize>
        ensures place { MatchOption result (self.old.places ≡ [])
            (λ place. self.old.places ≡ place ∷ self.new.places) }
        ensures same { self.new ≡ record self.old { places = self.new.places } }
    {
        if let Some(place) = replace(&mut self.first, None) {
            return Some(place);
        }
        self.others.next()
    }

    /// The reply to the call that recorded it.
    pub(crate) fn reply(&self) -> Option<Reply>
        ensures { result ≡ self.now.reply }
    {
        self.reply
    }

    /// Takes the part of a key, which is asked for by a request of its own, unless memory ran out.
    pub(crate) fn part(&mut self, alloc: Global, request: &Request) -> Option<Outcome>
        ensures value { IfSome result (λ part.
            part_for_key self.old (key_in_request request.now) ≡ Some part) }
        ensures left { IfSome result (λ part.
            IsLeftForOthers (key_in_request request.now) self.old self.new) }
        ensures none { IfNone result (self.new ≡ self.old) }
    {
        if !self.shared {
            return replace(&mut self.outcome, None);
        }
        let key = key_of(request)?;
        match &mut self.outcome {
            Some(outcome) => part_for(alloc, outcome, key),
            None => None,
        }
    }
}

/// The part of an outcome that this key has.
fn part_for(alloc: Global, outcome: &mut Outcome, key: &Key) -> Option<Outcome>
    ensures value { IfSome result (λ part. part ≡ outcome_for key.now outcome.old) }
    ensures others { (other : List ℕ) → other ≢ key.now
        → outcome_for other outcome.new ≡ outcome_for other outcome.old }
    ensures op { op_of outcome.new ≡ op_of outcome.old }
    ensures none { IfNone result (outcome.new ≡ outcome.old) }
{
    match outcome {
        Outcome::Reply(response) => match response.part(alloc, key) {
            Ok(part) => Some(Outcome::Reply(part)),
            Err(_) => None,
        },
        Outcome::Refused => Some(Outcome::Refused),
        Outcome::Timeout => Some(Outcome::Timeout),
        Outcome::Broken => Some(Outcome::Broken),
        Outcome::Aborted => Some(Outcome::Aborted),
        Outcome::Spent => Some(Outcome::Spent),
    }
}
