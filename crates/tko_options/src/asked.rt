//! What the words of the command line ask for.
ghost use Rattle.std.specs.Prelude.{◌≡◌, true, IfErr, IfOk, map, string_bytes};
ghost use Rattle.tko_options.specs.Asked.{AsksFor, IsReadFrom, IsRefusal, may_ask_at_once, may_group_keys, may_limit_clients, names_log};
ghost use Rattle.tko_options.specs.Misfits.{IsRefusedFor};

use crate::check_options::CheckOptions;
use crate::command_line::program;
use crate::demo_options::DemoOptions;
use crate::dry_options::DryOptions;
use crate::refusal::Refusal;
use crate::serve_options::ServeOptions;
use clap::ArgMatches;
use clap::error::ErrorKind;
use std::alloc::Global;

const WITHOUT_COMMAND: &str = "a command is wanted";

/// What the words ask for: a command and its options.
#[derive(Debug, Drop)]
pub enum Asked {
    Dry(DryOptions),
    Replay,
    Serve(ServeOptions),
    Check(CheckOptions),
    Demo(DemoOptions),
}

impl Asked {
    /// Reads the words, of which the first is the program's name.
    pub fn read(alloc: Global, words: &[String]) -> Result<Asked, Refusal>
        ensures read { IfOk result (IsReadFrom (map string_bytes words.now)) }
        ensures log { IfOk result (λ asked. names_log asked ≡ true) }
        ensures clients { IfOk result (λ asked. may_limit_clients asked ≡ true) }
        ensures keys { IfOk result (λ asked. may_ask_at_once asked ≡ true) }
        ensures groups { IfOk result (λ asked. may_group_keys asked ≡ true) }
        ensures refused { IfErr result (IsRefusal (map string_bytes words.now)) }
    {
        match program(alloc)?.try_get_matches_from(words) {
            Ok(matches) => Asked::among(alloc, &matches),
            Err(error) => Err(Refusal::of(alloc, &error)),
        }
    }

    /// The command of these matches. clap refuses words without one before.
    fn among(alloc: Global, matches: &ArgMatches<'_>) -> Result<Asked, Refusal>
        ensures asks { IfOk result (AsksFor matches.now) }
        ensures log { IfOk result (λ asked. names_log asked ≡ true) }
        ensures clients { IfOk result (λ asked. may_limit_clients asked ≡ true) }
        ensures keys { IfOk result (λ asked. may_ask_at_once asked ≡ true) }
        ensures groups { IfOk result (λ asked. may_group_keys asked ≡ true) }
        ensures refused { IfErr result (IsRefusedFor matches.now) }
    {
        if let Some(found) = matches.subcommand_matches("serve") {
            return Ok(Asked::Serve(ServeOptions::of(alloc, found)?));
        }
        if let Some(found) = matches.subcommand_matches("dry") {
            return Ok(Asked::Dry(DryOptions::of(alloc, found)?));
        }
        if let Some(found) = matches.subcommand_matches("check") {
            return Ok(Asked::Check(CheckOptions::of(alloc, found)?));
        }
        if let Some(found) = matches.subcommand_matches("demo") {
            return Ok(Asked::Demo(DemoOptions::of(found)));
        }
        match matches.subcommand_matches("replay") {
            Some(_) => Ok(Asked::Replay),
            None => Err(Refusal::by(alloc, ErrorKind::MissingSubcommand, WITHOUT_COMMAND)),
        }
    }
}
