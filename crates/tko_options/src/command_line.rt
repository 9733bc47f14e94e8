//! The program as clap reads it, and the options that several commands have.
ghost use Rattle.std.specs.Prelude.{◌≡◌, false, IfOk};
ghost use Rattle.clap.specs.Words.{App, rule_of};
ghost use Rattle.tko_options.specs.CommandLine.{IsOption, ReadsAs, config_file_option, number_option, replay_command, switch_option, text_option, with_tracker};
ghost use Rattle.tko_options.specs.Program.{named_program, program_app, titled_program};

use crate::check_command::check;
use crate::demo_command::demo;
use crate::dry_command::dry;
use crate::serve_command::serve;
use clap::{Arg, ArgAction, Command, value_parser};
use std::alloc::{AllocError, Global};

const DEFAULT_FAILURES: &str = "3";

const DEFAULT_LIMIT: &str = "40";

const DEFAULT_TRIES: &str = "8";

/// The version of the program, as CHANGELOG.md has it.
pub const VERSION: &str = "1.1.0";

const PROGRAM_HELP: &str = "\
Exit status:
  0  done, also for --help and --version
  1  a fault, with a line `fault: ..` on standard error
  2  the command line is invalid

`tkoproxy COMMAND --help` prints the options of a command.";

const REPLAY_ABOUT: &str =
    "Plays a schedule from standard input, checks that each call is legal, and prints the run";

const REPLAY_HELP: &str = "\
Example:
  tkoproxy replay < schedule.txt

Exit status:
  0  the run was printed
  1  a fault, with a line `fault: ..` on standard error
  2  the command line is invalid";

/// The program, which wants one of its commands.
pub(crate) fn program<'a>(alloc: Global) -> Result<Command<'a>, AllocError>
    ensures { IfOk result (ReadsAs program_app) }
{
    named(alloc)?
        .subcommand(demo(alloc)?)?
        .subcommand(dry(alloc)?)?
        .subcommand(replay(alloc))?
        .subcommand(serve(alloc)?)?
        .subcommand(check(alloc)?)
}

/// The program without its commands. Its usage has this name, whatever its file is called.
fn named<'a>(alloc: Global) -> Result<Command<'a>, AllocError>
    ensures { IfOk result (ReadsAs named_program) }
{
    titled(alloc).subcommand_required(true).bin_name("tkoproxy")
}

fn titled<'a>(alloc: Global) -> Command<'a>
    ensures { ReadsAs titled_program result }
{
    Command::new(alloc, "tkoproxy")
        .about("A failover cache proxy with shared server health")
        .after_help(PROGRAM_HELP)
        .version(VERSION)
}

fn replay<'a>(alloc: Global) -> Command<'a>
    ensures { ReadsAs replay_command result }
{
    Command::new(alloc, "replay")
        .about(REPLAY_ABOUT)
        .after_help(REPLAY_HELP)
}

/// With the options of the tracker.
pub(crate) fn with_tracker<'a>(
    alloc: Global,
    command: Command<'a>,
) -> Result<Command<'a>, AllocError>
    ensures { (app : App) → ReadsAs app command.entry → IfOk result (ReadsAs (with_tracker app)) }
{
    let failures = "Number of consecutive soft failures that mark a server, 1 to 4096";
    let limit = "Maximum number of soft-marked servers of a pool without a soft_limit, 0 to 256";
    let tries = "Maximum number of retries of a health update under contention, 1 to 1000";
    command
        .arg(number(alloc, "failures", DEFAULT_FAILURES, failures))?
        .arg(number(alloc, "limit", DEFAULT_LIMIT, limit))?
        .arg(number(alloc, "tries", DEFAULT_TRIES, tries))
}

/// `--config-file PATH`, in place of `--config`.
pub(crate) fn config_file<'a>(alloc: Global) -> Result<Arg<'a>, AllocError>
    ensures { IfOk result (IsOption config_file_option) }
{
    Arg::new(alloc, "config-file")
        .long("config-file")
        .value_name("PATH")
        .help("File with the configuration, instead of --config")
        .conflicts_with("config")
}

/// `--name VALUE`, a text that may be left out.
pub(crate) fn text<'a>(alloc: Global, name: &'a str, value: &'a str) -> Arg<'a>
    ensures rule { rule_of result ≡ text_option name.now }
    ensures local { result.global ≡ false }
{
    Arg::new(alloc, name).long(name).value_name(value)
}

/// `--name`, a switch that is off where it is not given.
pub(crate) fn switch<'a>(alloc: Global, name: &'a str) -> Arg<'a>
    ensures rule { rule_of result ≡ switch_option name.now }
    ensures local { result.global ≡ false }
{
    Arg::new(alloc, name).long(name).action(ArgAction::SetTrue)
}

/// `--name N`, a number of 32 bits.
pub(crate) fn number<'a>(alloc: Global, name: &'a str, default: &'a str, help: &'a str) -> Arg<'a>
    ensures rule { rule_of result ≡ number_option name.now default.now }
    ensures local { result.global ≡ false }
{
    text(alloc, name, "N")
        .value_parser(value_parser!(u32))
        .default_value(default)
        .help(help)
}
