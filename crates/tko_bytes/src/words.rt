//! The words of a line, which any number of spaces separate.
ghost use Rattle.std.specs.Prelude.{◌≡◌, ◌↔◌, [], ◌∷◌, IsTrue, MatchOption};
ghost use Rattle.tko_bytes.specs.Words.{SplitsWord, unspaced, words};

use memchr::memchr;
use std::marker::Model;

/// The words of a line that are still to be read. Contracts see the list of them.
#[derive(Drop)]
pub struct SpacedWords<'a> {
    rest: &'a [u8],
}

impl<'a> Model for SpacedWords<'a> {
    ghost use Rattle.std.specs.Prelude.{List, ℕ};
    ghost use Rattle.tko_bytes.specs.Words.{words};

    ghost Value = { List (List ℕ) };

    ghost view = { λ w. words w.rest.now };
}

impl<'a> SpacedWords<'a> {
    /// All words of a line.
    pub fn of(line: &'a [u8]) -> SpacedWords<'a>
        ensures { result ≡ words line.now }
    {
        SpacedWords { rest: line }
    }

    /// The next word, if there is one.
    pub fn next(&mut self) -> Option<&'a [u8]>
        ensures { MatchOption result (self.old ≡ []) (λ word. self.old ≡ word.now ∷ self.new) }
    {
        let (word, rest) = split_word(self.rest)?;
        self.rest = rest;
        Some(word)
    }

    /// Whether no word is left.
    pub fn is_done(&self) -> bool
        ensures { IsTrue result ↔ (self.now ≡ []) }
    {
        split_word(self.rest).is_none()
    }
}

/// The first word, and what follows it.
pub fn split_word(line: &[u8]) -> Option<(&[u8], &[u8])>
    ensures { MatchOption result ((words line.now ≡ []) × (unspaced line.now ≡ []))
        (λ split. SplitsWord line.now split.0.now split.1.now) }
{
    let line = without_spaces(line);
    if line.is_empty() {
        return None;
    }
    let end = memchr(b' ', line).unwrap_or(line.len());
    Some(line.split_at(end))
}

/// The line without the spaces in front.
#[tactic(auto, using(crate::proofs::WordLemmas::unspaced_at))]
fn without_spaces(line: &[u8]) -> &[u8]
    ensures { result.now ≡ unspaced line.now }
{
    for (i, b) in line.iter().enumerate() {
        if *b != b' ' {
            return &line[i..];
        }
    }
    &[]
}

/// Whether the line is this one word.
pub fn is_word(line: &[u8], word: &[u8]) -> bool
    ensures { IsTrue result ↔ (words line.now ≡ word.now ∷ []) }
{
    match split_word(line) {
        Some((first, behind)) => first == word && split_word(behind).is_none(),
        None => false,
    }
}
