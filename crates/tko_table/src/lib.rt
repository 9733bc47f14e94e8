//! The words that threads share, each changed in single atomic steps, under one rule.
//!
//! - A *pass* is what one thread knows: its state, the servers that it owns, the history as far as
//!   it has seen it, and the calls that it made. It is data of the proofs alone.
//! - A *seat* is a token of no bytes with which a thread takes steps. It has the pass of one
//!   thread, or those of several.
//! - `Words`: a health word for each server, the soft word and the enrolment word. Each step
//!   function takes one atomic step on one word with one seat.
//! - `ClosedWords`: the words once no thread uses them any more, which can only be read.
//! - The *history* is the list of all changes of the servers' marks, oldest first.
//! - The *rule* holds between any two steps: words and passes are a state of the core of
//!   `tko_steps`, the servers are the replay of the history by the sequential tracker, and the
//!   changes by each thread are those that its pass says it made.

#![tactic(auto)]

mod closed;
mod pass;
mod plays;
mod rule;
mod steps;
mod values;
mod words;

pub use closed::ClosedWords;
pub use pass::{Change, Made, PassView, Seat, View};
pub use rule::WordsRule;
pub use words::Words;
