//! The list of `--outcomes`: what the servers do, one after another.
ghost use Rattle.std.specs.Prelude.{◌≡◌, ◌++◌, IfOk, IfErr, IfSome, is_some, option_map};
ghost use Rattle.tko_bytes.specs.Lines.{crlf};
ghost use Rattle.tko_commands.specs.Outcomes.{AllAsk, NamesScript, RefusesOutcomes, answer_asked, bytes_of_digits, digits_of_bytes, is_outcome, line_asked, text_of_hit, text_of_line, texts_pointed_to, words_of};

use hex::FromHexError;
use std::alloc::{AllocError, AllocFailed, Global};
use tko_links::Script;

/// Why a list has no scripts.
#[derive(Clone, Copy, Debug, PartialEq, Eq)]
pub(crate) enum OutcomesFault {
    /// The number of the first bad word, counted from 1.
    Word(usize),
    Memory,
}

impl From<AllocError> for OutcomesFault {
    ghost use Rattle.std.specs.Prelude.{◌≡◌};
    ghost use Rattle.tko_commands.specs.declared.outcomes.OutcomesFault.TheVariants.{Memory};

    ghost from_gives = { λ _ fault. fault ≡ Memory };

    fn from(_: AllocError) -> OutcomesFault {
        OutcomesFault::Memory
    }
}

impl<T: Drop> From<AllocFailed<T>> for OutcomesFault {
    ghost use Rattle.std.specs.Prelude.{◌≡◌};
    ghost use Rattle.tko_commands.specs.declared.outcomes.OutcomesFault.TheVariants.{Memory};

    ghost from_gives = { λ _ fault. fault ≡ Memory };

    fn from(_: AllocFailed<T>) -> OutcomesFault {
        OutcomesFault::Memory
    }
}

/// The scripts that the words of a list ask for.
pub(crate) fn scripts_of(alloc: Global, list: &str) -> Result<Vec<Script>, OutcomesFault>
    ensures ok { IfOk result (λ scripts. AllAsk (words_of list.now) scripts.items) }
    ensures err { IfErr result (RefusesOutcomes (words_of list.now)) }
{
    let words = words_of(alloc, list)?;
    scripts_of_words(alloc, words.as_slice())
}

fn scripts_of_words(alloc: Global, words: &[&str]) -> Result<Vec<Script>, OutcomesFault>
    ensures ok { IfOk result (λ scripts. AllAsk (texts_pointed_to words.now) scripts.items) }
    ensures err { IfErr result (RefusesOutcomes (texts_pointed_to words.now)) }
{
    let mut scripts = Vec::new(alloc);
    for (place, word) in words.iter().enumerate() {
        match script_of(alloc, word)? {
            Some(script) => scripts.push(script)?,
            None => return Err(OutcomesFault::Word(place + 1)),
        }
    }
    Ok(scripts)
}

/// The words of a list, separated by commas.
fn words_of(alloc: Global, list: &str) -> Result<Vec<&str>, AllocError>
    ensures { IfOk result (λ words. texts_pointed_to words.items ≡ words_of list.now) }
{
    if list.is_empty() {
        return Ok(Vec::new(alloc));
    }
    list.split(',').collect(alloc)
}

/// The script that a word asks for; None where it is no word of a list.
fn script_of(alloc: Global, word: &str) -> Result<Option<Script>, AllocError>
    ensures some { IfOk result (λ script. IfSome script (NamesScript word.now)) }
    ensures known { IfOk result (λ script. is_some script ≡ is_outcome word.now) }
{
    Ok(match word {
        "refused" => Some(Script::Refused),
        "timeout" => Some(Script::Timeout),
        "broken" => Some(Script::Broken),
        _ => match text_of_hit(word) {
            Some(text) => Some(Script::Hit(Vec::from_slice(alloc, text.as_bytes())?)),
            None => match answer_asked(alloc, word)? {
                Some(bytes) => Some(Script::Bytes(bytes)),
                None => None,
            },
        },
    })
}

/// The bytes that a word asks a server to answer: those of its digits, or a line.
fn answer_asked(alloc: Global, word: &str) -> Result<Option<Vec<u8>>, AllocError>
    ensures { IfOk result (λ found.
        option_map (λ bytes. bytes.items) found ≡ answer_asked word.now) }
{
    if let Some(digits) = digits_of_bytes(word) {
        return bytes_of_digits(alloc, digits);
    }
    Ok(match line_asked(word) {
        Some(line) => Some(line_of(alloc, line)?),
        None => None,
    })
}

/// The bytes of pairs of hexadecimal digits; None for any other text.
fn bytes_of_digits(alloc: Global, digits: &str) -> Result<Option<Vec<u8>>, AllocError>
    ensures { IfOk result (λ found.
        option_map (λ bytes. bytes.items) found ≡ bytes_of_digits digits.now) }
{
    match hex::decode(alloc, digits) {
        Ok(bytes) => Ok(Some(bytes)),
        Err(FromHexError::OutOfMemory) => Err(AllocError),
        Err(FromHexError::OddLength) => Ok(None),
        Err(FromHexError::InvalidStringLength) => Ok(None),
        Err(FromHexError::InvalidHexCharacter { .. }) => Ok(None),
    }
}

/// The line that a word asks for: that of `miss`, or the text of `line:<text>`.
fn line_asked(word: &str) -> Option<&str>
    ensures { option_map (λ line. line.now) result ≡ line_asked word.now }
{
    match word {
        "miss" => Some("END"),
        _ => text_of_line(word),
    }
}

/// The text of `hit:<text>`.
fn text_of_hit(word: &str) -> Option<&str>
    ensures { option_map (λ text. text.now) result ≡ text_of_hit word.now }
{
    word.strip_prefix("hit:")
}

/// The digits of `bytes:<hex>`.
fn digits_of_bytes(word: &str) -> Option<&str>
    ensures { option_map (λ digits. digits.now) result ≡ digits_of_bytes word.now }
{
    word.strip_prefix("bytes:")
}

/// The text of `line:<text>`.
fn text_of_line(word: &str) -> Option<&str>
    ensures { option_map (λ text. text.now) result ≡ text_of_line word.now }
{
    word.strip_prefix("line:")
}

/// A text and the end of its line.
fn line_of(alloc: Global, text: &str) -> Result<Vec<u8>, AllocError>
    ensures { IfOk result (λ line. line.items ≡ text.now ++ crlf) }
{
    let mut line = Vec::from_slice(alloc, text.as_bytes())?;
    line.extend_from_slice(b"\r\n")?;
    Ok(line)
}
