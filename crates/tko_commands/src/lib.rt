//! The commands that need no server, and what all commands share: faults, files and texts.
//!
//! - `Fault`: why a command ended with status 1; it prints as the line on standard error. `fail`
//!   reports it, and `refuse_config`, `refuse_settings`, `refuse_delays`, `refuse_listen` and
//!   `refuse_metrics` also why it came.
//! - `run_dry`, `run_replay`, `run_check`: each runs a command and returns its status.
//! - `loaded_check`, `check_loaded`: the two parts of `run_check`, for `check --connect`.
//! - `loaded_server`, `settings_over`, `write_text`: what `serve` shares with them.
#![tactic(auto)]

mod causes;
mod checking;
mod configured;
mod dry;
mod fault;
mod grouped;
mod key_lists;
mod listen_fault;
mod loading;
mod outcomes;
mod outside_range;
mod reading;
mod reasons;
mod refused_delays;
mod refusing;
mod replay;
mod status;
mod trail_lines;
mod unread_keys;
mod writing;

pub use fault::Fault;
pub use grouped::settings_over;
pub use listen_fault::ListenFault;
pub use loading::{loaded_check, loaded_server};
pub use outside_range::{OptionRange, OutsideRange};
pub use refused_delays::RefusedDelays;
pub use refusing::{
    fail, refuse_config, refuse_delays, refuse_listen, refuse_metrics, refuse_settings,
};
pub use status::{DONE, check_loaded, run_check, run_dry, run_replay, status_of};
pub use unread_keys::UnreadKeys;
pub use writing::{WriteFault, write_text};
