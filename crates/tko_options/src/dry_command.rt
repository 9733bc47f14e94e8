//! The command `dry` as clap reads it.
ghost use Rattle.std.specs.Prelude.{◌≡◌, false, IfOk};
ghost use Rattle.clap.specs.Words.{App, rule_of};
ghost use Rattle.tko_options.specs.CommandLine.{ReadsAs, config_option, dry_command, outcomes_option, servers_option, trail_option, with_script};

use crate::command_line::{config_file, number, switch, text, with_tracker};
use clap::{Arg, Command};
use std::alloc::{AllocError, Global};

const DEFAULT_SERVERS: &str = "1";

const DRY_HELP: &str = "\
Example:
  printf 'get a\\r\\n' | tkoproxy dry --servers 2 --outcomes refused,miss --trail

Exit status:
  0  the input was answered to its end
  1  a fault, with a line `fault: ..` on standard error
  2  the command line is invalid";

pub(crate) fn dry<'a>(alloc: Global) -> Result<Command<'a>, AllocError>
    ensures { IfOk result (ReadsAs dry_command) }
{
    let dry = Command::new(alloc, "dry")
        .about("Answers requests on standard input from scripted servers")
        .after_help(DRY_HELP)
        .arg(servers(alloc))?;
    with_script(alloc, with_tracker(alloc, dry)?)
}

/// With the configuration and what the servers do.
fn with_script<'a>(alloc: Global, command: Command<'a>) -> Result<Command<'a>, AllocError>
    ensures { (app : App) → ReadsAs app command.entry → IfOk result (ReadsAs (with_script app)) }
{
    command
        .arg(config(alloc))?
        .arg(config_file(alloc)?)?
        .arg(outcomes(alloc))?
        .arg(trail(alloc))
}

fn servers<'a>(alloc: Global) -> Arg<'a>
    ensures rule { rule_of result ≡ servers_option }
    ensures local { result.global ≡ false }
{
    let help = "Number of servers if there is no configuration, 1 to 256";
    number(alloc, "servers", DEFAULT_SERVERS, help)
}

fn config<'a>(alloc: Global) -> Arg<'a>
    ensures rule { rule_of result ≡ config_option }
    ensures local { result.global ≡ false }
{
    text(alloc, "config", "JSON").help(
        "Pools and route, as JSON; without it every key tries all servers in order",
    )
}

fn outcomes<'a>(alloc: Global) -> Arg<'a>
    ensures rule { rule_of result ≡ outcomes_option }
    ensures local { result.global ≡ false }
{
    text(alloc, "outcomes", "LIST").default_value("").help(
        "Outcome of each send, separated by commas: refused, timeout, broken, miss, hit:<text>, \
             line:<text>, bytes:<hex>; each later send is refused",
    )
}

fn trail<'a>(alloc: Global) -> Arg<'a>
    ensures rule { rule_of result ≡ trail_option }
    ensures local { result.global ≡ false }
{
    switch(alloc, "trail").help("Prints a line for each attempt after the replies")
}
