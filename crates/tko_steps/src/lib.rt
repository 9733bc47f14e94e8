//! Every interleaving of the calls of several threads, as the steps of one core.
//!
//! - `Core`: the words that the threads share, packed, and the state of each thread.
//! - A *call* is one operation of one thread on one server: it begins, takes steps and is answered.
//! - A *step* is one load or one exchange by one thread on one word: `Stepped` has what it found
//!   and left.
//! - `Phase`: how far a call under way is; its `Action` is the one step that it takes next. `next`
//!   is the one decision, from what that step read to the phase after it or the answer.
//! - A *turn* is a begin or a step of any thread; a *run* is any list of turns from the opened
//!   core.
//! - `every_run`: every interleaving is linearizable; the linearization point of a call is one of
//!   its own steps. `one_thread_alone`: the runs in which one thread takes all steps of calls.

#![tactic(auto)]

mod atomic;
mod law;
mod phase;
mod step;
mod table;
mod words;

pub use atomic::Core;
pub use law::{every_run, one_thread_alone, one_word_a_step};
pub use phase::{Call, Phase, Slots, ThreadState};
pub use step::{BeginFault, Place, StepKind, Stepped, Word};
pub use table::{Action, Decision, Observed, next};
