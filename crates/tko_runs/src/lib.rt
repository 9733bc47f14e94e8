//! Schedules of what threads do with a tracker, the runs that they name, and the check of runs.
//!
//! - `schedule`: a text is read as settings and commands. `Command`: one line: a thread begins a
//!   call, takes steps, or runs until its call is answered. `ScheduleFault`: why a text is no
//!   schedule. `Version`: which header a text has, what ranges its settings have, and how its run
//!   is printed.
//! - `run`: a `Run` is the list of its events, and of the turns that were skipped. An `Event` is a
//!   begin of a call or one atomic step, as the core of tko_steps reports it. `Run::of` makes any
//!   claimed run. What events do to the words and threads is one fold, which claiming, checking
//!   and printing share.
//! - `playing`: the run that a schedule names.
//! - `checking`: whether each step of a run finds the word that the steps before it left and leaves
//!   one that its kind can leave, and whether all calls are legal. `Order`: the linearization point
//!   of each call.
//! - `printing`: the text of a run.
#![tactic(auto)]

mod checking;
mod playing;
mod printing;
mod run;
mod schedule;
mod version;

pub use checking::order::{Order, Point};
pub use checking::{RunFault, check};
pub use playing::play;
pub use run::Run;
pub use run::claim::ClaimFault;
pub use run::event::{Event, SkippedTurn};
pub use schedule::Schedule;
pub use schedule::command::Command;
pub use schedule::fault::ScheduleFault;
pub use version::Version;
