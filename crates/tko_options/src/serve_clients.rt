//! The options of `serve` on its clients, as clap reads them.
ghost use Rattle.std.specs.Prelude.{◌≡◌, false, IfOk};
ghost use Rattle.clap.specs.Words.{App, rule_of};
ghost use Rattle.tko_options.specs.CommandLine.{ReadsAs};
ghost use Rattle.tko_options.specs.ServeCommand.{clients_option, connections_option, group_option, keys_option, mode_option, threads_option, with_clients, with_patience};

use crate::command_line::{number, switch, text};
use crate::serve_command::{delay, from_one, limit};
use clap::builder::ValueParser;
use clap::{Arg, Command, value_parser};
use std::alloc::{AllocError, Global};

const DEFAULT_MODE: &str = "events";

const DEFAULT_KEYS_AT_ONCE: &str = "1";

/// The least and the greatest number of keys of a request that may be asked for at once.
const KEYS_AT_ONCE: (i64, i64) = (1, 256);

const DEFAULT_CONNECTIONS: &str = "0";

const DEFAULT_WRITE_TIMEOUT: &str = "5000";

const DEFAULT_IDLE_TIMEOUT: &str = "0";

/// With the options of the clients.
pub(crate) fn with_clients<'a>(
    alloc: Global,
    command: Command<'a>,
) -> Result<Command<'a>, AllocError>
    ensures { (app : App) → ReadsAs app command.entry → IfOk result (ReadsAs (with_clients app)) }
{
    command
        .arg(mode(alloc))?
        .arg(threads(alloc))?
        .arg(clients(alloc))?
        .arg(keys_at_once(alloc))?
        .arg(group_keys(alloc))?
        .arg(connections(alloc))
}

/// With the options on how long it waits for a client.
pub(crate) fn with_patience<'a>(
    alloc: Global,
    command: Command<'a>,
) -> Result<Command<'a>, AllocError>
    ensures { (app : App) → ReadsAs app command.entry → IfOk result (ReadsAs (with_patience app)) }
{
    let write =
        "Time in which a client must read 64 KiB of its replies or all, in milliseconds, from 1";
    let idle = "Time in which a client must complete a request, in milliseconds; 0 for no limit";
    command
        .arg(limit(alloc, "write-timeout", DEFAULT_WRITE_TIMEOUT, write))?
        .arg(delay(alloc, "idle-timeout", DEFAULT_IDLE_TIMEOUT, idle))
}

/// `--mode threads` or `--mode events`.
fn mode<'a>(alloc: Global) -> Arg<'a>
    ensures rule { rule_of result ≡ mode_option }
    ensures local { result.global ≡ false }
{
    text(alloc, "mode", "MODE").default_value(DEFAULT_MODE).help(
        "What a worker serves: one client at a time (threads), or many at once (events)",
    )
}

/// `--threads N`, whose default follows from the mode.
fn threads<'a>(alloc: Global) -> Arg<'a>
    ensures rule { rule_of result ≡ threads_option }
    ensures local { result.global ≡ false }
{
    text(alloc, "threads", "N")
        .value_parser(value_parser!(u32))
        .help("Number of workers, 1 to 1024 [default: 4 in threads, 2 in events]")
}

/// `--clients N`, which may be left out.
fn clients<'a>(alloc: Global) -> Arg<'a>
    ensures rule { rule_of result ≡ clients_option }
    ensures local { result.global ≡ false }
{
    let help = "Maximum number of clients at once in events, from 1; without it as many as the \
        descriptors allow";
    from_one(text(alloc, "clients", "N").help(help))
}

/// `--keys-at-once N`.
fn keys_at_once<'a>(alloc: Global) -> Arg<'a>
    ensures rule { rule_of result ≡ keys_option }
    ensures local { result.global ≡ false }
{
    let help = "Maximum number of keys of a request in flight at once in events, 1 to 256";
    let keys = number(alloc, "keys-at-once", DEFAULT_KEYS_AT_ONCE, help);
    keys.value_parser(ValueParser::signed(KEYS_AT_ONCE.0, KEYS_AT_ONCE.1))
}

/// `--group-keys`.
fn group_keys<'a>(alloc: Global) -> Arg<'a>
    ensures rule { rule_of result ≡ group_option }
    ensures local { result.global ≡ false }
{
    switch(alloc, "group-keys").help(
        "Sends keys of a request that go to the same server as one get; needs \
            --keys-at-once of at least 2",
    )
}

fn connections<'a>(alloc: Global) -> Arg<'a>
    ensures rule { rule_of result ≡ connections_option }
    ensures local { result.global ≡ false }
{
    let help = "Number of connections after which it exits; 0 for never";
    number(alloc, "connections", DEFAULT_CONNECTIONS, help).value_parser(value_parser!(u64))
}
