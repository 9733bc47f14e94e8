//! The options of `serve`.
ghost use Rattle.std.specs.Prelude.{◌≡◌, IfErr, IfOk, Some, bytes_eq, codes, string_bytes, true};
ghost use Rattle.clap.specs.Words.{found_of};
ghost use Rattle.tko_options.specs.Found.{AreFound, IsNumberAt, IsNumberIfAny, IsNumberOr, IsSwitchAt, is_log_place};
ghost use Rattle.tko_options.specs.Misfits.{IsUnfit};
ghost use Rattle.tko_options.specs.Modes.{default_workers, may_ask, may_group, may_limit, mode_at};
ghost use Rattle.tko_options.specs.Trackers.{serve_settings};

use crate::found::{number_of, optional_text, switch_of, text_of};
use crate::mode::Mode;
use crate::refusal::Refusal;
use clap::ArgMatches;
use clap::error::ErrorKind;
use std::alloc::{AllocError, Global};
use tko_model::OneGroup;

const NO_MODE: &str = "invalid value for '--mode <MODE>'\n  [possible values: threads, events]";

/// The options of `serve`.
#[derive(Debug, Drop)]
pub struct ServeOptions {
    /// The address to listen on.
    pub listen: String,
    /// The JSON of the configuration; empty where a file has it.
    pub config: String,
    /// The path of the configuration's file.
    pub config_file: Option<String>,
    pub mode: Mode,
    /// How many workers there are.
    pub threads: u32,
    /// How many clients there may be at once, where that is limited; never in threads.
    pub clients: Option<u64>,
    /// How many keys of a request are asked for at once; in threads 1.
    pub keys_at_once: u32,
    /// Whether those of them that go to one server go out as one `get`; never in threads, nor
    /// where one key is asked for at once.
    pub group_keys: bool,
    /// After how many connections it ends; 0 for never.
    pub connections: u64,
    /// How long an exchange may take, in milliseconds.
    pub timeout: u32,
    /// In how long a client must take 64 KiB of its replies, or all of them, in milliseconds.
    pub write_timeout: u32,
    /// How long a client may complete no request, in milliseconds; 0 for ever.
    pub idle_timeout: u32,
    /// How long the first probe waits, in milliseconds.
    pub first_delay: u32,
    /// How long any probe may wait, in milliseconds.
    pub greatest_delay: u32,
    pub failures: u32,
    pub limit: u32,
    pub tries: u32,
    /// Where the event log goes: `stderr` or `off`.
    pub log: String,
    /// The address at which it answers for its metrics.
    pub metrics: Option<String>,
    /// Whether it ends before it listens, once its configuration and its options are read.
    pub only_check: bool,
}

impl ServeOptions {
    /// Reads the options. clap's own parser of names takes a list by reference, which no definition
    /// of the command can name, so clap reads any text of `--log` and `--mode`.
    #[tactic(auto, using(crate::proofs::MisfitLemmas::unfit))]
    pub(crate) fn of(alloc: Global, found: &ArgMatches<'_>) -> Result<ServeOptions, Refusal>
        ensures ok { IfOk result (AreFound (found_of found.now)) }
        ensures log { IfOk result (λ options. is_log_place (string_bytes options.log) ≡ true) }
        ensures clients { IfOk result (λ options. may_limit options.mode options.clients ≡ true) }
        ensures keys { IfOk result (λ options. may_ask options.mode options.keys_at_once ≡ true) }
        ensures groups { IfOk result (λ options.
            may_group options.mode options.keys_at_once options.group_keys ≡ true) }
        ensures err { IfErr result (IsUnfit (found_of found.now)) }
    {
        let Some(mode) = mode_of(found) else {
            return Err(Refusal::by(alloc, ErrorKind::InvalidValue, NO_MODE));
        };
        let options = ServeOptions::in_mode(alloc, found, mode)?;
        options.check(alloc)?;
        Ok(options)
    }

    /// The options in this mode, whether they fit one another or not.
    fn in_mode(
        alloc: Global,
        found: &ArgMatches<'_>,
        mode: Mode,
    ) -> Result<ServeOptions, AllocError>
        requires { mode_at (found_of found.now) ≡ Some mode }
        ensures { IfOk result (AreFound (found_of found.now)) }
    {
        Ok(ServeOptions {
            listen: text_of(alloc, found, "listen")?,
            config: text_of(alloc, found, "config")?,
            config_file: optional_text(alloc, found, "config-file")?,
            mode,
            threads: threads_of(found, mode),
            clients: clients_of(found),
            keys_at_once: number_of(found, "keys-at-once"),
            group_keys: switch_of(found, "group-keys"),
            connections: connections_of(found),
            timeout: number_of(found, "timeout"),
            write_timeout: number_of(found, "write-timeout"),
            idle_timeout: number_of(found, "idle-timeout"),
            first_delay: number_of(found, "first-delay"),
            greatest_delay: number_of(found, "greatest-delay"),
            failures: number_of(found, "failures"),
            limit: number_of(found, "limit"),
            tries: number_of(found, "tries"),
            log: text_of(alloc, found, "log")?,
            metrics: optional_text(alloc, found, "metrics")?,
            only_check: switch_of(found, "check"),
        })
    }

    /// Whether there is an event log.
    pub fn has_log(&self) -> bool
        ensures { result ≡ bytes_eq (string_bytes self.now.log) (codes "stderr") }
    {
        self.log.as_str() == "stderr"
    }

    /// The settings of a tracker of `servers` servers without groups, with the limit of all that
    /// have none of their own.
    pub fn settings(&self, servers: u32) -> OneGroup
        ensures { result ≡ serve_settings self.now servers }
    {
        OneGroup {
            servers,
            threads: self.threads,
            failures: self.failures,
            limit: self.limit,
            tries: self.tries,
            opening_stamp: 0,
        }
    }
}

/// The mode, where the option names one.
fn mode_of(found: &ArgMatches<'_>) -> Option<Mode>
    ensures { result ≡ mode_at (found_of found.now) }
{
    Mode::named(found.get_str("mode").unwrap_or(""))
}

/// The number of workers, which follows from the mode where it is not given.
fn threads_of(found: &ArgMatches<'_>, mode: Mode) -> u32
    ensures { IsNumberOr (default_workers mode) 32 (found_of found.now) (codes "threads") result }
{
    found.get_one("threads").unwrap_or(mode.workers())
}

/// The greatest number of clients, if one is given.
fn clients_of(found: &ArgMatches<'_>) -> Option<u64>
    ensures { IsNumberIfAny 64 (found_of found.now) (codes "clients") result }
{
    found.get_one("clients")
}

/// The number of connections, which may have 64 bits.
fn connections_of(found: &ArgMatches<'_>) -> u64
    ensures { IsNumberAt 64 (found_of found.now) (codes "connections") result }
{
    found.get_one("connections").unwrap_or(0)
}
