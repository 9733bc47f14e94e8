//! The program `tkoproxy` over its arguments and its standard ends: words and bytes in, bytes and a
//! status out.
//!
//! - `command`: reads the words, runs the command that they name, and returns the status.
//! - `hold_standard_streams`: for the program to call first.
//! - `serve` of serving.rt is the command that serves clients, and `run_demo` of demo.rt shows it
//!   at work; the others are those of tko_commands.
#![tactic(auto)]

mod announcement;
mod demo;
mod demo_proxy;
mod notice;
mod odd_options;
mod open_files;
mod planned;
mod prepared;
mod program;
mod serving;
mod standard_streams;
mod totals;

pub use program::command;
pub use standard_streams::hold_standard_streams;
