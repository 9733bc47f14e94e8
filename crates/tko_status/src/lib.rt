//! The page for people: what a server does at this moment, as HTML.
//!
//! - `Past`: what was counted until moments of the last minute, one each 5 seconds.
//! - `StatusPage`: what a page shows, and its text.
#![tactic(auto)]

mod cells;
mod counts;
mod durations;
mod escaping;
mod head;
mod overview;
mod page;
mod past;
mod pieces;
mod pool_part;
mod quantile;
mod server_row;
mod style;
mod worker_part;

pub use page::StatusPage;
pub use past::{Past, PastReading};
