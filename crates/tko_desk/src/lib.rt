//! What workers share beside the health of the servers: the passes that no worker uses, and ledgers
//! of what they counted.
//!
//! - `Desk`: the idle passes of one tracker, which workers take and give back.
//! - `Book`: the totals of a ledger; `Share`: one worker's part of it. Each number is counted
//!   twice, in the book and in the share of the worker that counted it. `Kind` and `Counts` are
//!   those of tko_model.
//! - `Totals`: what a book comes to once all its shares are back.
#![tactic(auto)]

mod book;
mod desk;
mod gathering;
mod held;

pub use book::{Book, LedgerFull, Share};
pub use desk::Desk;
pub use gathering::{Totals, gather};
pub use tko_bytes::NoMemory;
pub use tko_model::{Counts, Kind};

#[cfg(test)]
mod tests;
