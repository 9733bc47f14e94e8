//! Values by their keys, in memory.
ghost use Rattle.std.specs.Prelude.{◌≡◌, OnErr, OnOk, option_copied};
ghost use Rattle.tko_demo.specs.Stores.{HasChanged, HasNothing, IsSameStore, kept_at};

use crate::effect::Change;
use std::alloc::Global;
use std::collections::HashMap;
use tko_bytes::NoMemory;
use tko_text::{Data, Key};

/// What is stored under a key.
#[derive(Drop)]
pub(crate) struct Kept {
    pub flags: u32,
    pub data: Data,
    /// Its cas number.
    pub unique: u64,
}

/// Values by their keys, in memory, of which none expires.
#[derive(Drop)]
pub struct Store {
    kept: HashMap<Vec<u8>, Kept>,
    /// The last cas number that was given.
    last: u64,
}

impl Store {
    pub fn new(alloc: Global) -> Store
        ensures { HasNothing result }
    {
        Store {
            kept: HashMap::new(alloc),
            last: 0,
        }
    }

    /// What is stored under a key.
    pub(crate) fn found(&self, key: &Key) -> Option<&Kept>
        ensures { option_copied result ≡ kept_at self.now key.now }
    {
        self.kept.get(key.as_bytes())
    }

    /// Changes what is stored under a key. What is put there gets the next cas number.
    pub(crate) fn change(
        &mut self,
        alloc: Global,
        key: &Key,
        change: Change,
    ) -> Result<(), NoMemory>
        ensures ok { OnOk result (HasChanged key.now change self.old self.new) }
        ensures err { OnErr result (IsSameStore self.old self.new) }
    {
        match change {
            Change::Keep => {}
            Change::Put(flags, value) => self.put(alloc, key, flags, value)?,
            Change::Remove => {
                self.kept.remove(key.as_bytes());
            }
        }
        Ok(())
    }

    /// Puts these under a key, with the next cas number.
    fn put(&mut self, alloc: Global, key: &Key, flags: u32, value: Data) -> Result<(), NoMemory>
        ensures ok { OnOk result (HasChanged key.now (Change.Put flags value) self.old self.new) }
        ensures err { OnErr result (IsSameStore self.old self.new) }
    {
        let unique = self.last.wrapping_add(1);
        let name = Vec::from_slice(alloc, key.as_bytes())?;
        let kept = Kept {
            flags,
            data: value,
            unique,
        };
        match self.kept.insert(name, kept) {
            Ok(_) => {
                self.last = unique;
                Ok(())
            }
            Err(_) => Err(NoMemory),
        }
    }
}
