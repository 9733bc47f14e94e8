//! Attempts at a target, and the trail of a request.
ghost use Rattle.std.specs.Prelude.{◌≡◌};

use std::marker::Model;
use tko_links::Outcome;
use tko_model::{Mark, Reply};
use tko_text::Response;

/// One attempt at a target.
#[derive(Debug, Drop)]
pub enum Attempt {
    /// The server has this mark, so nothing was sent.
    Skipped(usize, Mark),
    /// The request was sent, this came of it and was recorded, and the tracker answered so.
    Sent(usize, Outcome, Reply),
    /// The request was sent, and the connection failed while the answer to another request was
    /// awaited. The tracker was told nothing.
    Aborted(usize),
    /// The server's count of sends is used up, so nothing was sent.
    Spent(usize),
}

impl Attempt {
    ghost use Rattle.std.specs.Prelude.{◌↔◌, IsTrue};
    ghost use Rattle.tko_route.specs.Trail.{IsAnswer};

    /// Whether the server gave a response.
    pub fn is_answer(&self) -> bool
        ensures { IsTrue result ↔ IsAnswer self.now }
    {
        matches!(self, Attempt::Sent(_, Outcome::Reply(_), _))
    }
}

/// The attempts of one request, in order. Contracts see the list.
#[derive(Debug, Drop)]
pub struct Trail {
    attempts: Vec<Attempt>,
}

impl Model for Trail {
    ghost use Rattle.std.specs.Prelude.{List};
    ghost use Rattle.tko_route.specs.declared.attempt.Attempt.{Attempt};

    ghost Value = { List Attempt };

    ghost view = { λ trail. trail.attempts.items };
}

impl Trail {
    ghost use Rattle.std.specs.Option.{option_copied};
    ghost use Rattle.tko_route.specs.Trail.{answer_of};

    pub(crate) fn of(attempts: Vec<Attempt>) -> Trail
        ensures { result ≡ attempts.items }
    {
        Trail { attempts }
    }

    pub fn attempts(&self) -> &[Attempt]
        ensures { result.now ≡ self.now }
    {
        self.attempts.as_slice()
    }

    /// The response of the last attempt, if it got one.
    pub fn response(&self) -> Option<&Response>
        ensures { option_copied result ≡ answer_of self.now }
    {
        match self.attempts.last() {
            Some(Attempt::Sent(_, Outcome::Reply(response), _)) => Some(response),
            _ => None,
        }
    }
}
