//! What the client asks, and what it must get.
ghost use Rattle.std.specs.Prelude.{◌≡◌, ◌++◌, IfOk, OnOk};
ghost use Rattle.tko_demo.specs.Exchanges.{due_text, asked_text};

use std::alloc::Global;
use tko_bytes::{NoMemory, append};

/// A request of the client, by the reply that it must get.
#[derive(Clone, Copy, Debug)]
pub enum Exchange {
    /// A value is stored.
    Stored,
    /// It is found.
    Found,
    /// Nothing is found.
    Missed,
    /// The server of the first pool is marked.
    Marked,
    /// No server is.
    Unmarked,
}

/// How a reply names the servers of the two pools: by their addresses, or as it is printed.
#[derive(Clone, Copy, Debug)]
pub struct Addresses<'a> {
    pub near: &'a str,
    pub far: &'a str,
}

impl Exchange {
    /// The request, to its last CR LF.
    pub(crate) fn request(self) -> &'static str
        ensures { result.now ≡ asked_text self }
    {
        match self {
            Exchange::Stored => "set greeting 0 0 5\r\nhello\r\n",
            Exchange::Found | Exchange::Missed => "get greeting\r\n",
            Exchange::Marked | Exchange::Unmarked => "stats tko\r\n",
        }
    }

    /// The reply that it must get, from servers at these addresses.
    pub(crate) fn reply(self, alloc: Global, at: &Addresses<'_>) -> Result<Vec<u8>, NoMemory>
        ensures { IfOk result (λ text. text.items ≡ due_text at.now.near.now at.now.far.now self) }
    {
        let mut text = Vec::new(alloc);
        self.append_reply(at.near.as_bytes(), at.far.as_bytes(), &mut text)?;
        Ok(text)
    }

    /// Puts that reply at the end of a buffer.
    fn append_reply(self, near: &[u8], far: &[u8], out: &mut Vec<u8>) -> Result<(), NoMemory>
        ensures { OnOk result (out.new.items ≡ out.old.items ++ due_text near.now far.now self) }
    {
        match self {
            Exchange::Stored => append(out, &[b"STORED\r\n"]),
            Exchange::Found => append(out, &[b"VALUE greeting 0 5\r\nhello\r\nEND\r\n"]),
            Exchange::Missed => append(out, &[b"END\r\n"]),
            Exchange::Marked => append(
                out,
                &[
                    b"STAT ",
                    near,
                    b" hard:0\r\nSTAT ",
                    far,
                    b" up:0\r\nEND\r\n",
                ],
            ),
            Exchange::Unmarked => append(
                out,
                &[b"STAT ", near, b" up:0\r\nSTAT ", far, b" up:0\r\nEND\r\n"],
            ),
        }
    }
}
