//! The clients of a worker by number: their sessions, and what these share.
//!
//! - `Driven`: a session as its roster sees it; `Roster`: the sessions by number, over the parts
//!   that they share; `PartsVisit`: what is done with these between two calls.
#![tactic(auto)]

mod driven;
mod law;
mod roster;
mod visit;

pub use driven::Driven;
pub use law::own_acts;
pub use roster::Roster;
pub use visit::PartsVisit;

#[cfg(test)]
mod tests;
