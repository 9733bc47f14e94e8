//! A list of keys that is counted while it is read.
ghost use Rattle.std.specs.Prelude.{◌≡◌, ◌++◌, ◌∷◌, [], ℕ, List, IfOk, IfErr, OnOk, Option, option_map, take};
ghost use Rattle.tko_bytes.specs.Lines.{HasNoEnd, line_feed, lines_of};
ghost use Rattle.tko_explain.specs.KeyCounting.{IsCountedOver, IsTalliedOver, kept_bytes};
ghost use Rattle.tko_explain.specs.KeyReports.{IsKeyReport};
ghost use Rattle.tko_explain.specs.KeysFaults.{RefusesOne};

use crate::key_report::key_report;
use crate::key_tally::KeyTally;
use crate::keys_fault::KeysFault;
use crate::reading::{compared_with, read};
use serde_json::Value;
use std::alloc::Global;
use tko_bytes::{NoMemory, content, split_line};

/// How many bytes are kept of a line that has not ended: those of the longest key, a CR, and one
/// more, which makes the line too long for a key.
const KEPT_BYTES: usize = 252;

/// How many keys of a list each server of each pool of a route gets. The list comes in pieces, a
/// key a line; memory does not grow with it.
#[derive(Drop)]
pub struct KeyCounts {
    /// The JSON of the configuration.
    root: Value,
    /// What was counted of the lines that have ended.
    tally: KeyTally,
    /// The first bytes of the line that has not.
    begun: Vec<u8>,
}

impl KeyCounts {
    /// Over the configuration that this text means, and compared with the one that the other means,
    /// before the first key.
    pub fn of(alloc: Global, json: &str, against: Option<&str>) -> Result<KeyCounts, KeysFault>
        ensures ok { IfOk result (λ counts.
            IsCountedOver json.now (option_map (λ text. text.now) against.entry) [] counts) }
        ensures err { IfErr result (λ fault.
            RefusesOne json.now (option_map (λ text. text.now) against.entry) fault) }
    {
        let (config, root) = match read(alloc, json) {
            Ok(both) => both,
            Err(cause) => return Err(KeysFault::Config(cause)),
        };
        let compared = match compared_with(alloc, &root, against) {
            Ok(compared) => compared,
            Err(cause) => return Err(KeysFault::Against(cause)),
        };
        Ok(KeyCounts {
            root,
            tally: KeyTally::new(alloc, config, compared),
            begun: Vec::new(alloc),
        })
    }

    /// Takes the next piece of the list, which may end anywhere in a line. Nothing is said of the
    /// counts once memory ran out.
    pub fn take(&mut self, piece: &[u8]) -> Result<(), NoMemory>
        ensures { (json list : List ℕ) (against : Option (List ℕ))
            → IsCountedOver json against list self.old
            → OnOk result (IsCountedOver json against (list ++ piece.now) self.new) }
    {
        let mut rest = piece;
        while let Some((line, after)) = split_line(rest) {
            self.end_line(line)?;
            rest = after;
        }
        self.begin(rest)?;
        Ok(())
    }

    /// What was counted, a line each. The list ends here: the last line is counted, if one has
    /// begun.
    pub fn print(self, alloc: Global) -> Result<Vec<u8>, NoMemory>
        ensures { (json list : List ℕ) (against : Option (List ℕ))
            → IsCountedOver json against list self
            → IfOk result (λ text. IsKeyReport json against list text.items) }
    {
        let mut counts = self;
        counts.print_all(alloc)
    }

    /// Counts the last line, and prints what was counted.
    fn print_all(&mut self, alloc: Global) -> Result<Vec<u8>, NoMemory>
        ensures { (json list : List ℕ) (against : Option (List ℕ))
            → IsCountedOver json against list self.old
            → IfOk result (λ text. IsKeyReport json against list text.items) }
    {
        self.end_list()?;
        let text = key_report(alloc, &self.root, &self.tally)?;
        Ok(text)
    }

    /// Takes the last bytes of a line, and counts it.
    fn end_line(&mut self, bytes: &[u8]) -> Result<(), NoMemory>
        ensures { HasNoEnd bytes.now → (json list : List ℕ) (against : Option (List ℕ))
            → IsCountedOver json against list self.old
            → OnOk result
            (IsCountedOver json against (list ++ bytes.now ++ line_feed ∷ []) self.new) }
    {
        self.begin(bytes)?;
        self.tally.add(content(&self.begun))?;
        self.begun.clear();
        Ok(())
    }

    /// Takes more bytes of a line that has not ended.
    fn begin(&mut self, bytes: &[u8]) -> Result<(), NoMemory>
        ensures { HasNoEnd bytes.now → (json list : List ℕ) (against : Option (List ℕ))
            → IsCountedOver json against list self.old
            → OnOk result (IsCountedOver json against (list ++ bytes.now) self.new) }
    {
        keep(&mut self.begun, bytes)?;
        Ok(())
    }

    /// Counts the last line, if one has begun.
    fn end_list(&mut self) -> Result<(), NoMemory>
        ensures { (json list : List ℕ) (against : Option (List ℕ))
            → IsCountedOver json against list self.old
            → OnOk result
            (IsTalliedOver json against (lines_of list) self.new.root self.new.tally) }
    {
        if self.begun.is_empty() {
            return Ok(());
        }
        self.tally.add(&self.begun)?;
        Ok(())
    }
}

/// Appends bytes to the first bytes of a line, as far as they are kept.
fn keep(begun: &mut Vec<u8>, bytes: &[u8]) -> Result<(), NoMemory>
    ensures { (line : List ℕ) → begun.old.items ≡ take kept_bytes line
        → OnOk result (begun.new.items ≡ take kept_bytes (line ++ bytes.now)) }
{
    let room = KEPT_BYTES.saturating_sub(begun.len());
    let more = room.min(bytes.len());
    begun.extend_from_slice(&bytes[..more])?;
    Ok(())
}
