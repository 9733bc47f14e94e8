//! The command `serve` as clap reads it.
ghost use Rattle.std.specs.Prelude.{◌≡◌, false, IfOk, codes};
ghost use Rattle.clap.specs.Words.{App, rule_of};
ghost use Rattle.tko_options.specs.CommandLine.{IsOption, ReadsAs, config_file_option, number_option, required_config};
ghost use Rattle.tko_options.specs.ServeCommand.{default_timeout, from_one, limit_option, listen_option, log_option, metrics_option, only_check_option, serve_command, with_address_options, with_reports, with_server_options, with_times};

use crate::command_line::{number, switch, text, with_tracker};
use crate::serve_clients::{with_clients, with_patience};
use clap::builder::ValueParser;
use clap::{Arg, Command};
use std::alloc::{AllocError, Global};

const DEFAULT_LOG: &str = "stderr";

pub(crate) const DEFAULT_TIMEOUT: &str = "1000";

const DEFAULT_FIRST_DELAY: &str = "10000";

const DEFAULT_GREATEST_DELAY: &str = "60000";

/// The least and the greatest number of 32 bits that is not 0.
const FROM_ONE: (i64, i64) = (1, 4_294_967_295);

const SERVE_HELP: &str = "\
Times are in milliseconds.

Example:
  tkoproxy serve --listen 127.0.0.1:11300 --config-file pools.json
  tkoproxy serve --check --listen 127.0.0.1:11300 --config-file pools.json

Exit status:
  0  the last of --connections has ended, or --check has found no fault
  1  a fault, with a line `fault: ..` on standard error
  2  the command line is invalid";

pub(crate) fn serve<'a>(alloc: Global) -> Result<Command<'a>, AllocError>
    ensures { IfOk result (ReadsAs serve_command) }
{
    let serve = Command::new(alloc, "serve")
        .about("Serves clients over memcached servers")
        .after_help(SERVE_HELP);
    with_server_options(alloc, serve)?.arg(only_check(alloc))
}

/// With the options of a server that runs.
fn with_server_options<'a>(alloc: Global, command: Command<'a>) -> Result<Command<'a>, AllocError>
    ensures { (app : App) → ReadsAs app command.entry
        → IfOk result (ReadsAs (with_server_options app)) }
{
    let serve = with_ends(alloc, command)?;
    let serve = with_clients(alloc, serve)?;
    let serve = with_patience(alloc, serve)?;
    let serve = with_times(alloc, serve)?;
    let serve = with_tracker(alloc, serve)?;
    with_reports(alloc, serve)
}

/// With its address and its configuration.
fn with_ends<'a>(alloc: Global, command: Command<'a>) -> Result<Command<'a>, AllocError>
    ensures { (app : App) → ReadsAs app command.entry
        → IfOk result (ReadsAs (with_address_options app)) }
{
    command
        .arg(listen(alloc))?
        .arg(config(alloc)?)?
        .arg(required_file(alloc)?)
}

/// With the options that are times.
fn with_times<'a>(alloc: Global, command: Command<'a>) -> Result<Command<'a>, AllocError>
    ensures { (app : App) → ReadsAs app command.entry → IfOk result (ReadsAs (with_times app)) }
{
    let first = "Delay of the first probe of a marked server, in milliseconds, from 1";
    let greatest = "Maximum delay between two probes, in milliseconds, at least --first-delay";
    command
        .arg(timeout(alloc))?
        .arg(delay(alloc, "first-delay", DEFAULT_FIRST_DELAY, first))?
        .arg(delay(alloc, "greatest-delay", DEFAULT_GREATEST_DELAY, greatest))
}

/// With the options on what it says of itself.
fn with_reports<'a>(alloc: Global, command: Command<'a>) -> Result<Command<'a>, AllocError>
    ensures { (app : App) → ReadsAs app command.entry → IfOk result (ReadsAs (with_reports app)) }
{
    command.arg(log(alloc))?.arg(metrics(alloc))
}

/// `--log stderr` or `--log off`.
fn log<'a>(alloc: Global) -> Arg<'a>
    ensures rule { rule_of result ≡ log_option }
    ensures local { result.global ≡ false }
{
    text(alloc, "log", "WHERE")
        .default_value(DEFAULT_LOG)
        .help("Destination of the event log: stderr or off")
}

/// `--metrics ADDRESS`, which may be left out.
fn metrics<'a>(alloc: Global) -> Arg<'a>
    ensures rule { rule_of result ≡ metrics_option }
    ensures local { result.global ≡ false }
{
    text(alloc, "metrics", "ADDRESS").help(
        "Address of a page for people, `/metrics` and `/health`: <host>:<port>, as 127.0.0.1:9311",
    )
}

/// `--check`, a switch.
fn only_check<'a>(alloc: Global) -> Arg<'a>
    ensures rule { rule_of result ≡ only_check_option }
    ensures local { result.global ≡ false }
{
    switch(alloc, "check").help(
        "Reads the configuration and all options, prints what it would before it listens, and ends",
    )
}

fn listen<'a>(alloc: Global) -> Arg<'a>
    ensures rule { rule_of result ≡ listen_option }
    ensures local { result.global ≡ false }
{
    text(alloc, "listen", "ADDRESS")
        .required(true)
        .help("Address to listen on, <host>:<port>")
}

/// `--config JSON`, without which `--config-file` is wanted.
pub(crate) fn config<'a>(alloc: Global) -> Result<Arg<'a>, AllocError>
    ensures { IfOk result (IsOption required_config) }
{
    Arg::new(alloc, "config")
        .long("config")
        .value_name("JSON")
        .help("Pools and route, as JSON")
        .required_unless_present("config-file")
}

/// `--config-file PATH`, without which `--config` is wanted. So clap names both where there is
/// none.
pub(crate) fn required_file<'a>(alloc: Global) -> Result<Arg<'a>, AllocError>
    ensures { IfOk result (IsOption config_file_option) }
{
    Arg::new(alloc, "config-file")
        .long("config-file")
        .value_name("PATH")
        .help("File with the configuration, instead of --config")
        .required_unless_present("config")?
        .conflicts_with("config")
}

fn timeout<'a>(alloc: Global) -> Arg<'a>
    ensures rule { rule_of result ≡ limit_option (codes "timeout") default_timeout }
    ensures local { result.global ≡ false }
{
    let help = "Time limit of an exchange with a server, in milliseconds, from 1";
    limit(alloc, "timeout", DEFAULT_TIMEOUT, help)
}

/// `--name MS`, a number of milliseconds from 1.
pub(crate) fn limit<'a>(alloc: Global, name: &'a str, default: &'a str, help: &'a str) -> Arg<'a>
    ensures rule { rule_of result ≡ limit_option name.now default.now }
    ensures local { result.global ≡ false }
{
    from_one(number(alloc, name, default, help).value_name("MS"))
}

/// The option with its numbers from 1.
pub(crate) fn from_one<'a>(arg: Arg<'a>) -> Arg<'a>
    ensures rule { rule_of result ≡ from_one (rule_of arg.entry) }
    ensures local { result.global ≡ arg.entry.global }
{
    arg.value_parser(ValueParser::signed(FROM_ONE.0, FROM_ONE.1))
}

/// `--name MS`, a number of milliseconds.
pub(crate) fn delay<'a>(alloc: Global, name: &'a str, default: &'a str, help: &'a str) -> Arg<'a>
    ensures rule { rule_of result ≡ number_option name.now default.now }
    ensures local { result.global ≡ false }
{
    number(alloc, name, default, help).value_name("MS")
}
