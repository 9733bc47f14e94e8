//! When a marked server is probed, and the servers as one worker uses them: their health, the links
//! to them, and the probers of those that its failures marked.
//!
//! - `Delays`: how long the first probe waits, and how long any may wait.
//! - `Prober`: one marked server's probes, of which at most one is out at a time. It has no clock
//!   and no socket: moments come in as milliseconds, and each call says what to do next.
//! - `ProbeTurn`: whether to send a probe now; `Probed`: what came of it; `AfterProbe`: what to
//!   record then.
//! - `Probers`: which servers the worker's failures marked, and when each is probed; a `ProbeSlot`
//!   is what a server is to them.
//! - `Backend`: health, links, probers and clock of a worker; `begin_round` and `visit` are the
//!   parts of a round, which sends the probes that are due and waits for their results; a
//!   `ProbeEnd` is what one came to. `due` and `came` are the two halves of a probe, for a worker
//!   that does not wait.
#![tactic(auto)]

mod backend;
mod delays;
mod halves;
mod prober;
mod probers;
mod rounds;

pub use backend::Backend;
pub use delays::Delays;
pub use prober::{AfterProbe, ProbeTurn, Probed, Prober, ProberStage};
pub use probers::{ProbeSlot, Probers};
pub use rounds::ProbeEnd;

#[cfg(test)]
mod tests;
