//! The command `demo` as clap reads it.
ghost use Rattle.std.specs.Prelude.{◌≡◌, false, IfOk};
ghost use Rattle.clap.specs.Words.{App, rule_of};
ghost use Rattle.tko_options.specs.CommandLine.{ReadsAs};
ghost use Rattle.tko_options.specs.DemoCommand.{demo_command, stay_option};

use crate::command_line::switch;
use clap::{Arg, Command};
use std::alloc::{AllocError, Global};

const DEMO_HELP: &str = "\
It needs no memcached and no configuration: it starts two servers that keep values in memory, and
uses free ports of 127.0.0.1.

Example:
  tkoproxy demo

Exit status:
  0  each reply was the expected one
  1  a reply was not, or another fault, with a line `fault: ..` on standard error
  2  the command line is invalid";

pub(crate) fn demo<'a>(alloc: Global) -> Result<Command<'a>, AllocError>
    ensures { IfOk result (ReadsAs demo_command) }
{
    Command::new(alloc, "demo")
        .about("Shows the proxy at work: a client sends requests while a server fails and returns")
        .after_help(DEMO_HELP)
        .arg(stay(alloc))
}

/// `--stay`, a switch.
fn stay<'a>(alloc: Global) -> Arg<'a>
    ensures rule { rule_of result ≡ stay_option }
    ensures local { result.global ≡ false }
{
    switch(alloc, "stay").help(
        "Keeps running until standard input ends, for requests of your own, with the event log \
             on standard error",
    )
}
