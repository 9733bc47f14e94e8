//! The command `check` as clap reads it.
ghost use Rattle.std.specs.Prelude.{◌≡◌, false, IfOk};
ghost use Rattle.clap.specs.Words.{App, rule_of};
ghost use Rattle.tko_options.specs.CheckCommand.{against_option, check_command, connect_option, key_option, keys_from_option, with_connecting, with_keys};
ghost use Rattle.tko_options.specs.CommandLine.{ReadsAs};

use crate::command_line::{switch, text};
use crate::serve_command::{DEFAULT_TIMEOUT, config, limit, required_file};
use clap::{Arg, ArgAction, Command};
use std::alloc::{AllocError, Global};

const CHECK_HELP: &str = "\
Example:
  tkoproxy check --config-file pools.json --key a --key b
  tkoproxy check --config-file new.json --keys-from keys.txt --against pools.json
  tkoproxy check --config-file pools.json --connect

Exit status:
  0  the configuration is valid, and is printed, with its warnings
  1  it is not: lines on standard error say why, the last one `fault: ..`
  2  the command line is invalid
  3  it is valid, and with --connect a server did not answer with its version";

pub(crate) fn check<'a>(alloc: Global) -> Result<Command<'a>, AllocError>
    ensures { IfOk result (ReadsAs check_command) }
{
    let check = Command::new(alloc, "check")
        .about("Checks a configuration and prints its servers, its pools and its route")
        .after_help(CHECK_HELP)
        .arg(config(alloc)?)?
        .arg(required_file(alloc)?)?;
    let check = with_keys(alloc, check)?;
    with_connecting(alloc, check)
}

/// With the keys whose servers are asked for.
fn with_keys<'a>(alloc: Global, command: Command<'a>) -> Result<Command<'a>, AllocError>
    ensures { (app : App) → ReadsAs app command.entry → IfOk result (ReadsAs (with_keys app)) }
{
    command
        .arg(key(alloc))?
        .arg(keys_from(alloc))?
        .arg(against(alloc))
}

/// With the options on asking its servers.
fn with_connecting<'a>(alloc: Global, command: Command<'a>) -> Result<Command<'a>, AllocError>
    ensures { (app : App) → ReadsAs app command.entry
        → IfOk result (ReadsAs (with_connecting app)) }
{
    let time = "Time limit of asking a server with --connect, in milliseconds, from 1";
    command
        .arg(connect(alloc))?
        .arg(limit(alloc, "timeout", DEFAULT_TIMEOUT, time))
}

/// `--key KEY`, as often as there are keys.
fn key<'a>(alloc: Global) -> Arg<'a>
    ensures rule { rule_of result ≡ key_option }
    ensures local { result.global ≡ false }
{
    text(alloc, "key", "KEY").action(ArgAction::Append).help(
        "Also prints the servers that this key tries, in order; may be given several times",
    )
}

/// `--keys-from FILE`.
fn keys_from<'a>(alloc: Global) -> Arg<'a>
    ensures rule { rule_of result ≡ keys_from_option }
    ensures local { result.global ≡ false }
{
    text(alloc, "keys-from", "FILE").help(
        "Also counts the keys of this file, one a line, by the server that each pool has for them; \
             - is standard input",
    )
}

/// `--against FILE`.
fn against<'a>(alloc: Global) -> Arg<'a>
    ensures rule { rule_of result ≡ against_option }
    ensures local { result.global ≡ false }
{
    text(alloc, "against", "FILE").help(
        "Also counts, with --keys-from, the keys that each pool has at another server than the \
             pool of that name in this configuration",
    )
}

/// `--connect`.
fn connect<'a>(alloc: Global) -> Arg<'a>
    ensures rule { rule_of result ≡ connect_option }
    ensures local { result.global ≡ false }
{
    switch(alloc, "connect").help(
        "Also asks each server for its version, all at once, and prints what came of each",
    )
}
