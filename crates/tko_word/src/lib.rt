//! The words of 64 bits that the threads of a tracker share. No other crate knows their bits.
//!
//! - The *health word* of a server holds its mark and its stamp: `pack`, `unpack`, `is_word`,
//!   `is_word_in`.
//! - The *soft word* holds the two counts of soft marks: `pack_soft`, `unpack_soft`.
//!
//! `one_reading` is the law that a word has one reading, `one_in_two` that it has the same one in
//! both layouts, `changed_counts` what the steps on the soft word add to it and take from it.
#![tactic(auto)]

mod health;
mod law;
mod soft;

pub use health::{STAMP_END, is_word, is_word_in, pack, unpack};
pub use law::{changed_counts, one_in_two, one_reading};
pub use soft::{ONE_SLOT, SLOT_OVER_MARK, pack_soft, unpack_soft};
