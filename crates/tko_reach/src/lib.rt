//! The servers of a configuration, asked once: which of them answer with their version.
//!
//! - `Reach`: what came when a server was asked for its version; `Reached` says it of a server.
//! - `reach_all`: asks all servers of a list of addresses at once, each within the time limit of
//!   an exchange.
//! - `append_servers`: what is printed of them, a line each and a line of totals.
//! - `gave_versions`: whether each of them gave its version.
#![tactic(auto)]

mod asking;
mod connecting;
mod hearing;
mod printing;
mod reach;
mod reaching;
mod shown;
mod unobserved;

pub use connecting::run_connected;
pub use printing::append_servers;
pub use reach::{Reach, Reached, gave_versions};
pub use reaching::reach_all;

#[cfg(test)]
mod tests;
