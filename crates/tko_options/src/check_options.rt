//! The options of `check`.
ghost use Rattle.std.specs.Prelude.{◌≡◌, IfErr, IfOk, map, string_bytes};
ghost use Rattle.std.specs.List.{list_all};
ghost use Rattle.clap.specs.Words.{found_of};
ghost use Rattle.tko_options.specs.Found.{AreCheckFound};
ghost use Rattle.tko_options.specs.Misfits.{IsCheckMisfit, IsRefusedAs};
ghost use Rattle.tko_text.specs.Keys.{is_key};

use crate::found::{number_of, optional_text, switch_of, text_of, texts_of};
use crate::refusal::Refusal;
use clap::ArgMatches;
use clap::error::ErrorKind;
use std::alloc::Global;
use tko_text::Key;

const NO_KEY: &str = "invalid value for '--key <KEY>': a key has 1 to 250 bytes, and no space or \
    control character";

const AGAINST_ALONE: &str =
    "the argument '--against <FILE>' cannot be used without '--keys-from <FILE>'";

/// The options of `check`.
#[derive(Debug, Drop)]
pub struct CheckOptions {
    /// The JSON of the configuration; empty where a file has it.
    pub config: String,
    /// The path of the configuration's file.
    pub config_file: Option<String>,
    /// The keys whose servers are asked for.
    pub keys: Vec<String>,
    /// The path of a file with a list of keys, whose servers are counted; `-` is standard input.
    pub keys_from: Option<String>,
    /// The JSON of the configuration that the keys are compared with; a file has it.
    pub against: Option<String>,
    /// The path of the file of that configuration.
    pub against_file: Option<String>,
    /// Whether each server of the configuration is asked for its version.
    pub connect: bool,
    /// How long a server may take for that, in milliseconds.
    pub timeout: u32,
}

impl CheckOptions {
    pub(crate) fn of(alloc: Global, found: &ArgMatches<'_>) -> Result<CheckOptions, Refusal>
        ensures ok { IfOk result (AreCheckFound (found_of found.now)) }
        ensures err { IfErr result (IsRefusedAs (IsCheckMisfit (found_of found.now))) }
    {
        let keys = texts_of(alloc, found, "key")?;
        if !are_keys(&keys) {
            return Err(Refusal::by(alloc, ErrorKind::InvalidValue, NO_KEY));
        }
        let keys_from = optional_text(alloc, found, "keys-from")?;
        let against_file = optional_text(alloc, found, "against")?;
        if against_file.is_some() && keys_from.is_none() {
            return Err(Refusal::by(alloc, ErrorKind::ArgumentConflict, AGAINST_ALONE));
        }
        Ok(CheckOptions {
            config: text_of(alloc, found, "config")?,
            config_file: optional_text(alloc, found, "config-file")?,
            keys,
            keys_from,
            against: None,
            against_file,
            connect: switch_of(found, "connect"),
            timeout: number_of(found, "timeout"),
        })
    }
}

/// Whether each of these is a key of the protocol.
fn are_keys(keys: &[String]) -> bool
    ensures { result ≡ list_all is_key (map string_bytes keys.now) }
{
    for key in keys {
        if !Key::fits(key.as_bytes()) {
            return false;
        }
    }
    true
}
