//! The values that clap found for the options.
ghost use Rattle.std.specs.Prelude.{◌≡◌, IfOk, map, option_map, string_bytes};
ghost use Rattle.clap.specs.Words.{first_value, found_of};
ghost use Rattle.tko_options.specs.Found.{IsNumberAt, IsSwitchAt, IsTextAt, texts_at};

use clap::ArgMatches;
use std::alloc::{AllocError, Global};

/// A number of an option that has a default.
pub(crate) fn number_of(found: &ArgMatches<'_>, name: &str) -> u32
    ensures { IsNumberAt 32 (found_of found.now) name.now result }
{
    found.get_one(name).unwrap_or(0)
}

/// The text of an option, and the empty one where it was not given.
pub(crate) fn text_of(
    alloc: Global,
    found: &ArgMatches<'_>,
    name: &str,
) -> Result<String, AllocError>
    ensures { IfOk result (λ text. IsTextAt (found_of found.now) name.now (string_bytes text)) }
{
    String::from_str(alloc, found.get_str(name).unwrap_or(""))
}

/// The text of an option that was given; the empty text is one.
pub(crate) fn optional_text(
    alloc: Global,
    found: &ArgMatches<'_>,
    name: &str,
) -> Result<Option<String>, AllocError>
    ensures { IfOk result (λ text.
        option_map string_bytes text ≡ first_value (found_of found.now) name.now) }
{
    match found.get_str(name) {
        Some(text) => Ok(Some(String::from_str(alloc, text)?)),
        None => Ok(None),
    }
}

/// The texts of an option that may be given several times, in their order.
pub(crate) fn texts_of(
    alloc: Global,
    found: &ArgMatches<'_>,
    name: &str,
) -> Result<Vec<String>, AllocError>
    ensures { IfOk result (λ texts.
        map string_bytes texts.items ≡ texts_at (found_of found.now) name.now) }
{
    match found.get_strs(name) {
        Some(texts) => copies_of(alloc, texts),
        None => Ok(Vec::new(alloc)),
    }
}

fn copies_of(alloc: Global, texts: &[&str]) -> Result<Vec<String>, AllocError>
    ensures { IfOk result (λ copies.
        map string_bytes copies.items ≡ map (λ text. text.now) texts.now) }
{
    let mut copies = Vec::new(alloc);
    for text in texts {
        copies.push(String::from_str(alloc, text)?)?;
    }
    Ok(copies)
}

/// Whether a switch was given.
pub(crate) fn switch_of(found: &ArgMatches<'_>, name: &str) -> bool
    ensures { IsSwitchAt (found_of found.now) name.now result }
{
    found.get_flag(name)
}
