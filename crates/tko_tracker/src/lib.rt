//! The tracker that threads share without a lock.
//!
//! - `Tracker`: the words of `tko_table`, and the calls that threads make on them.
//! - `IdlePass`: a thread's place at the tracker, for which it does nothing and owns no server.
//! - `Pass`: the same for a thread that makes calls. It has the thread's number and a bit for each
//!   server that the thread owns.
//! - `Final`: the marks and stamps of a tracker that was closed with the passes of all its threads.
//! - `Named`: names one tracker for contracts.
//!
//! What a pass knows in contracts is a `tko_table::PassView`.

#![tactic(auto)]

mod calls;
mod closing;
mod laws;
mod named;
mod owned;
mod pass;
mod run;
mod step;
mod tracker;

pub use closing::{Final, close};
pub use laws::opened_tracker_is_up;
pub use named::Named;
pub use pass::{IdlePass, Pass, wake};
pub use tracker::{Tracker, open};
