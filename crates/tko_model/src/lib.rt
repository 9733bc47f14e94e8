//! The words that every other crate uses, and the sequential tracker.
//!
//! - `Settings`: how many servers and threads there are, when a server is marked, and in what
//!   groups soft marks are limited. `OneGroup`: settings without groups. `Layout`: how high the
//!   numbers of threads and failures may be.
//! - `Mark`: what is known of a server's health, and which thread marked it.
//! - `Op` and `Reply`: the operations of a tracker, and its replies.
//! - `Transition`: what an operation answers and changes, decided for one server.
//! - `Look` and `Clear`: what a look-up found, and the permission to send one request.
//! - `Duty`: the right of the thread that marked a server to probe it.
//! - `Plain`: the sequential tracker, which defines what all other trackers do.
//! - `Kind`: what is counted of the clients' requests, with the word that it is printed as.
//! - `Counts`: a number for each kind. A session and a ledger count in it: the one stays at
//!   2^64 - 1, the other fails above it.
//! - `append_mark`, `append_reply`, `op_word`: marks, replies and operations as text.
#![tactic(auto)]

mod counts;
mod duty;
mod kind;
mod layout;
mod look;
mod mark;
mod one_group;
mod plain;
mod settings;
mod state;
mod text;
mod transition;

pub use counts::Counts;
pub use duty::Duty;
pub use kind::Kind;
pub use layout::Layout;
pub use look::{Clear, Look};
pub use mark::{Mark, Op, Reply};
pub use one_group::OneGroup;
pub use plain::{OpenFault, Plain};
pub use settings::{
    MAX_GROUPS, MAX_LIMIT, MAX_SERVERS, MAX_TRIES, Settings, SettingsFault, WORN_STAMP,
};
pub use state::{ServerState, count_softs, has_room, opened_servers};
pub use text::{append_mark, append_number, append_reply, op_word};
pub use transition::Transition;
