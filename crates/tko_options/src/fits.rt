//! Which options of `serve` fit one another, and what is said of those that do not.
ghost use Rattle.std.specs.Prelude.{◌≡◌, IfErr, OnOk, false, string_bytes, true};
ghost use Rattle.tko_options.specs.Found.{is_log_place};
ghost use Rattle.tko_options.specs.Misfits.{AreUnfit, IsRefusedAs};
ghost use Rattle.tko_options.specs.Modes.{may_ask, may_group, may_limit};

use crate::mode::Mode;
use crate::refusal::Refusal;
use crate::serve_options::ServeOptions;
use clap::error::ErrorKind;
use std::alloc::Global;

const LOG_NOWHERE: &str = "invalid value for '--log <WHERE>'\n  [possible values: stderr, off]";

const CLIENTS_IN_THREADS: &str =
    "the argument '--clients <N>' cannot be used with '--mode threads'";

const KEYS_IN_THREADS: &str =
    "more than 1 of '--keys-at-once <N>' cannot be used with '--mode threads'";

const GROUPS_IN_THREADS: &str = "the argument '--group-keys' cannot be used with '--mode threads'";

const GROUPS_OF_ONE_KEY: &str =
    "the argument '--group-keys' cannot be used without at least 2 of '--keys-at-once <N>'";

impl ServeOptions {
    /// Whether the event log goes where one can go.
    fn names_log(&self) -> bool
        ensures { result ≡ is_log_place (string_bytes self.now.log) }
    {
        self.has_log() || self.log.as_str() == "off"
    }

    /// Refuses options that do not fit one another.
    #[tactic(auto, using(crate::proofs::MisfitLemmas::refused_for))]
    pub(crate) fn check(&self, alloc: Global) -> Result<(), Refusal>
        ensures log { OnOk result (is_log_place (string_bytes self.now.log) ≡ true) }
        ensures clients { OnOk result (may_limit self.now.mode self.now.clients ≡ true) }
        ensures keys { OnOk result (may_ask self.now.mode self.now.keys_at_once ≡ true) }
        ensures groups { OnOk result
            (may_group self.now.mode self.now.keys_at_once self.now.group_keys ≡ true) }
        ensures err { IfErr result (IsRefusedAs (AreUnfit self.now)) }
    {
        self.check_log(alloc)?;
        self.check_clients(alloc)?;
        self.check_keys(alloc)?;
        self.check_groups(alloc)
    }

    /// Refuses an event log that goes nowhere.
    fn check_log(&self, alloc: Global) -> Result<(), Refusal>
        ensures ok { OnOk result (is_log_place (string_bytes self.now.log) ≡ true) }
        ensures err { IfErr result
            (IsRefusedAs (is_log_place (string_bytes self.now.log) ≡ false)) }
    {
        if self.names_log() {
            return Ok(());
        }
        Err(Refusal::by(alloc, ErrorKind::InvalidValue, LOG_NOWHERE))
    }

    /// Refuses a limit of the clients in threads.
    fn check_clients(&self, alloc: Global) -> Result<(), Refusal>
        ensures ok { OnOk result (may_limit self.now.mode self.now.clients ≡ true) }
        ensures err { IfErr result
            (IsRefusedAs (may_limit self.now.mode self.now.clients ≡ false)) }
    {
        if self.mode == Mode::Events || self.clients.is_none() {
            return Ok(());
        }
        Err(Refusal::by(alloc, ErrorKind::ArgumentConflict, CLIENTS_IN_THREADS))
    }

    /// Refuses to ask for several keys of a request at once in threads.
    fn check_keys(&self, alloc: Global) -> Result<(), Refusal>
        ensures ok { OnOk result (may_ask self.now.mode self.now.keys_at_once ≡ true) }
        ensures err { IfErr result
            (IsRefusedAs (may_ask self.now.mode self.now.keys_at_once ≡ false)) }
    {
        if self.mode == Mode::Events || self.keys_at_once <= 1 {
            return Ok(());
        }
        Err(Refusal::by(alloc, ErrorKind::ArgumentConflict, KEYS_IN_THREADS))
    }

    /// Refuses that keys of a request go out as one `get` in threads, or where they are asked for
    /// one after another.
    fn check_groups(&self, alloc: Global) -> Result<(), Refusal>
        ensures ok { OnOk result
            (may_group self.now.mode self.now.keys_at_once self.now.group_keys ≡ true) }
        ensures err { IfErr result (IsRefusedAs
            (may_group self.now.mode self.now.keys_at_once self.now.group_keys ≡ false)) }
    {
        if !self.group_keys || self.mode == Mode::Events && self.keys_at_once >= 2 {
            return Ok(());
        }
        Err(Refusal::by(alloc, ErrorKind::ArgumentConflict, self.mode.ungrouped()))
    }
}

impl Mode {
    /// Why no keys go out as one `get`.
    pub(crate) fn ungrouped(self) -> &'static str {
        match self {
            Mode::Threads => GROUPS_IN_THREADS,
            Mode::Events => GROUPS_OF_ONE_KEY,
        }
    }
}
