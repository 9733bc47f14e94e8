//! How many keys each server of a configuration gets, among lines.
ghost use Rattle.std.specs.Prelude.{◌≡◌, ◌++◌, ◌∷◌, [], ℕ, List, OnOk, true, false};
ghost use Rattle.tko_explain.specs.KeyTallies.{AreTallied};
ghost use Rattle.tko_text.specs.Keys.{is_key};

use crate::counts::{Counts, count_each, one_more};
use crate::moves::{Compared, count_moves};
use std::alloc::Global;
use tko_bytes::NoMemory;
use tko_pools::Config;
use tko_text::Key;

/// What was counted of lines.
#[derive(Drop)]
pub(crate) struct KeyTally {
    alloc: Global,
    pub(crate) config: Config,
    /// What it is compared with, if anything.
    pub(crate) compared: Option<Compared>,
    /// How many lines are keys.
    pub(crate) keys: usize,
    /// How many are none.
    pub(crate) refused: usize,
    /// Of each child: how many of the keys each server gets.
    pub(crate) children: Vec<Counts>,
    /// Of each child: how many of the keys go to another address than in what it is compared with.
    pub(crate) moved: Counts,
    /// Room for the targets of a key, here and there.
    targets: Vec<usize>,
    there: Vec<usize>,
}

impl KeyTally {
    /// Before the first line.
    pub(crate) fn new(alloc: Global, config: Config, compared: Option<Compared>) -> KeyTally
        ensures config { result.config ≡ config }
        ensures compared { result.compared ≡ compared }
        ensures tally { AreTallied [] result }
    {
        KeyTally {
            alloc,
            config,
            compared,
            keys: 0,
            refused: 0,
            children: Vec::new(alloc),
            moved: Counts::new(alloc),
            targets: Vec::new(alloc),
            there: Vec::new(alloc),
        }
    }

    /// Counts a line.
    pub(crate) fn add(&mut self, line: &[u8]) -> Result<(), NoMemory>
        ensures kept { self.new.config ≡ self.old.config }
        ensures same { self.new.compared ≡ self.old.compared }
        ensures tally { (lines : List (List ℕ)) → AreTallied lines self.old
            → OnOk result (AreTallied (lines ++ line.now ∷ []) self.new) }
    {
        if Key::fits(line) {
            self.add_key(line)
        } else {
            self.refuse()
        }
    }

    /// Counts a key, in each child at its target, and in each that sends it to another address.
    fn add_key(&mut self, key: &[u8]) -> Result<(), NoMemory>
        ensures kept { self.new.config ≡ self.old.config }
        ensures same { self.new.compared ≡ self.old.compared }
        ensures tally { is_key key.now ≡ true → (lines : List (List ℕ)) → AreTallied lines self.old
            → OnOk result (AreTallied (lines ++ key.now ∷ []) self.new) }
    {
        self.config.replace_targets(key, &mut self.targets)?;
        count_each(self.alloc, &mut self.children, &self.targets)?;
        let (config, compared) = (&self.config, self.compared.as_ref());
        count_moves(
            &mut self.moved,
            config,
            &self.targets,
            compared,
            &mut self.there,
            key,
        )?;
        self.keys = one_more(self.keys)?;
        Ok(())
    }

    /// Counts a line that is no key.
    fn refuse(&mut self) -> Result<(), NoMemory>
        ensures kept { self.new.config ≡ self.old.config }
        ensures same { self.new.compared ≡ self.old.compared }
        ensures tally { (line : List ℕ) → is_key line ≡ false → (lines : List (List ℕ))
            → AreTallied lines self.old → OnOk result (AreTallied (lines ++ line ∷ []) self.new) }
    {
        self.refused = one_more(self.refused)?;
        Ok(())
    }
}
