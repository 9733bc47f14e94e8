//! What a client asks.
ghost use Rattle.std.specs.Prelude.{◌≡◌, ◌++◌, IfOk, OnOk, OnErr};
ghost use Rattle.tko_text.specs.Requests.{request_text, verb_word};

use crate::{Data, Key, Keys, NoMemory};
use std::alloc::Global;

/// What a storage request does with its entry.
#[derive(Clone, Copy, Debug, PartialEq, Eq)]
pub enum Verb {
    Set,
    Add,
    Replace,
    Append,
    Prepend,
}

impl Verb {
    /// The command word.
    pub fn word(self) -> &'static [u8]
        ensures { result.now ≡ verb_word self }
    {
        match self {
            Verb::Set => b"set",
            Verb::Add => b"add",
            Verb::Replace => b"replace",
            Verb::Append => b"append",
            Verb::Prepend => b"prepend",
        }
    }
}

/// What a storage request stores.
#[derive(Debug, Drop)]
pub struct Entry {
    pub key: Key,
    pub flags: u32,
    pub expiry: i64,
    pub value: Data,
}

/// A request of the protocol. A request with `noreply` is answered by nothing.
#[derive(Debug, Drop)]
pub enum Request {
    /// The values of some keys.
    Get {
        keys: Keys,
    },
    /// The values of some keys, each with its cas number.
    Gets {
        keys: Keys,
    },
    /// Stores an entry.
    Store {
        verb: Verb,
        entry: Entry,
        noreply: bool,
    },
    /// Stores an entry where the cas number is still this one.
    Cas {
        entry: Entry,
        unique: u64,
        noreply: bool,
    },
    Delete {
        key: Key,
        noreply: bool,
    },
    Incr {
        key: Key,
        amount: u64,
        noreply: bool,
    },
    Decr {
        key: Key,
        amount: u64,
        noreply: bool,
    },
    /// Gives a key another expiry.
    Touch {
        key: Key,
        expiry: i64,
        noreply: bool,
    },
    Version,
    Quit,
    /// The states of all servers.
    StatsTko,
}

impl Request {
    /// The printed form.
    pub fn write(&self, alloc: Global) -> Result<Vec<u8>, NoMemory>
        ensures { IfOk result (λ text. text.items ≡ request_text self.now) }
    {
        let mut text = Vec::new(alloc);
        self.append_to(&mut text)?;
        Ok(text)
    }

    /// Puts the printed form at the end of `out`.
    pub fn append_to(&self, out: &mut Vec<u8>) -> Result<(), NoMemory>
        ensures ok { OnOk result (out.new.items ≡ out.old.items ++ request_text self.now) }
        ensures err { OnErr result (out.new.items ≡ out.old.items) }
    {
        writer::append_request(self, out)
    }
}

mod sent;
mod writer;
