//! What a configuration's text says, for an operator to read.
//!
//! - `report`: what a configuration means, with its warnings.
//! - `warnings_of`: these warnings alone.
//! - `odd_address`: the warning on an address that an option gives.
//! - `reason`: why a text is no configuration.
//! - `KeyCounts`: how many keys of a list each server of each pool of a route gets, and how many go
//!   to another address than in another configuration; `KeysFault`: why nothing is counted.
#![tactic(auto)]

mod counts;
mod key_counts;
mod key_report;
mod key_tally;
mod keys_fault;
mod moves;
mod odd_addresses;
mod parts;
mod placing;
mod printing;
mod reading;
mod reasons;
mod repeats;
mod reporting;
mod rings;
mod warnings;

pub use key_counts::KeyCounts;
pub use keys_fault::KeysFault;
pub use odd_addresses::odd_address;
pub use reasons::reason;
pub use reporting::{report, warnings_of};
