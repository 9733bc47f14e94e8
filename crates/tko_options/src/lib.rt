//! The words of the command line: the commands and options as clap reads them, and the values that
//! it finds.
//!
//! - `Asked`: what the words ask for; `Refusal`: why they ask for nothing, or the help.
//! - `Mode`: how a server serves its clients.
//! - `DryOptions`, `ServeOptions`, `CheckOptions`, `DemoOptions`: the options of the commands, a
//!   field for each.
//! - `VERSION`: that of the program.
#![tactic(auto)]

mod asked;
mod check_command;
mod check_options;
mod command_line;
mod demo_command;
mod demo_options;
mod dry_command;
mod dry_options;
mod fits;
mod found;
mod mode;
mod refusal;
mod serve_clients;
mod serve_command;
mod serve_options;

pub use asked::Asked;
pub use check_options::CheckOptions;
pub use command_line::VERSION;
pub use demo_options::DemoOptions;
pub use dry_options::DryOptions;
pub use mode::Mode;
pub use refusal::Refusal;
pub use serve_options::ServeOptions;
