//! Bytes of text formats, as every crate above reads and writes them.
//!
//! - `NoMemory`: memory ran out.
//! - `number`: the number that a word of decimal digits writes.
//! - `split_line`, `content`, `first_line`: lines, which end with LF or CR LF.
//! - `split_word`, `is_word`, `SpacedWords`: words, which any number of spaces separate.
//! - `Fields`: fields, which single spaces separate.
//! - `fnv1a_from`: the hash FNV-1a of bytes.
//! - `MAX_PORT`: the greatest port of an address.
//! - `append`: puts several pieces at the end of a buffer, or none of them; `clear`: empties a
//!   buffer; `KEPT_CAPACITY`: the greatest capacity that an empty one keeps.
#![tactic(auto)]

mod addresses;
mod appending;
mod fields;
mod hashes;
mod lines;
mod memory;
mod numbers;
mod words;

pub use addresses::MAX_PORT;
pub use appending::{KEPT_CAPACITY, append, clear};
pub use fields::Fields;
pub use hashes::fnv1a_from;
pub use lines::{content, first_line, split_line};
pub use memory::NoMemory;
pub use numbers::number;
pub use words::{SpacedWords, is_word, split_word};
