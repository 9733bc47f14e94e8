//! What a server answers.
ghost use Rattle.std.specs.Prelude.{◌≡◌, ◌≢◌, ◌≤◌, ◌++◌, ℕ, List, length, IfOk, IfSome, OnOk, OnErr};
ghost use Rattle.tko_text.specs.ResponseLengths.{IsLeastLength};
ghost use Rattle.tko_text.specs.Responses.{part_for, response_text};
ghost use Rattle.tko_text.specs.ResponseReads.{ReadsResponse};

use crate::{Key, NoMemory, Request};
use bytes::Bytes;
use std::alloc::Global;

/// An answer to a request.
#[derive(Debug, Drop)]
pub enum Response {
    /// To a `get` or `gets` of one key: no value or one.
    Values(Option<Value>),
    /// To a `get` or `gets` of several keys.
    Listed(Listed),
    Stored,
    NotStored,
    /// The cas number of a `cas` is no longer this one.
    Exists,
    Deleted,
    Touched,
    NotFound,
    /// To `incr` and `decr`: the number that is stored now.
    Number(u64),
    Version(Text),
    /// The server doesn't know the command.
    Error,
    /// The request was wrong, as the text says.
    ClientError(Text),
    /// The server failed, as the text says.
    ServerError(Text),
}

impl Response {
    /// The answer to the request at the front of the bytes, and how many bytes it takes.
    /// More may follow it.
    /// It may instead fail with `Memory`, whatever the bytes are.
    pub fn read(
        alloc: Global,
        request: &Request,
        bytes: &[u8],
    ) -> Result<(Response, usize), ReadFault>
        ensures reads { ReadsResponse request.now bytes.now result }
        ensures within { IfOk result (λ found. found.1 ≤ length bytes.now) }
    {
        reader::read(alloc, request, bytes)
    }

    /// The same, of bytes that a value may keep. Values then share them, where `read` copies them,
    /// and the list is left empty. Otherwise it stays as it is.
    pub fn take(
        alloc: Global,
        request: &Request,
        bytes: &mut Vec<u8>,
    ) -> Result<(Response, usize), ReadFault>
        ensures reads { ReadsResponse request.now bytes.old.items result }
        ensures within { IfOk result (λ found. found.1 ≤ length bytes.old.items) }
        ensures err { OnErr result (bytes.new.items ≡ bytes.old.items) }
    {
        reader::take(alloc, request, bytes)
    }

    /// How long the answer to the request has to be at least, if it begins with these bytes. It is
    /// 0 until they announce a value. So bytes that come in small pieces need not be read anew
    /// before they are this long.
    pub fn least_len(request: &Request, bytes: &[u8]) -> usize
        ensures { IsLeastLength request.now bytes.now result }
    {
        least::least_len(request, bytes)
    }

    /// Puts the written form at the end of a buffer.
    pub fn append_to(&self, out: &mut Vec<u8>) -> Result<(), NoMemory>
        ensures ok { OnOk result (out.new.items ≡ out.old.items ++ response_text self.now) }
        ensures err { OnErr result (out.new.items ≡ out.old.items) }
    {
        writer::append_response(self, out)
    }

    /// The written form without a copy, if it is that of a value which shares the text that it was
    /// read from, and that has the written form there.
    pub fn shared_text(&self) -> Option<Bytes>
        ensures { IfSome result (λ text. text ≡ response_text self.now) }
    {
        match self {
            Response::Values(Some(value)) => shared::shared_text(value, b"\r\nEND\r\n"),
            _ => None,
        }
    }

    /// The response to this key alone, which of the values of several keys has its own one. That
    /// one leaves the list. It is found at once where it is the first that is left.
    pub fn part(&mut self, alloc: Global, key: &Key) -> Result<Response, NoMemory>
        ensures ok { IfOk result (λ part. part ≡ part_for key.now self.old) }
        ensures others { (other : List ℕ) → other ≢ key.now
            → part_for other self.new ≡ part_for other self.old }
        ensures err { OnErr result (self.new ≡ self.old) }
    {
        part::part(self, alloc, key)
    }

    /// The written form.
    pub fn write(&self, alloc: Global) -> Result<Vec<u8>, NoMemory>
        ensures ok { IfOk result (λ bytes. bytes.items ≡ response_text self.now) }
    {
        let mut bytes = Vec::new(alloc);
        self.append_to(&mut bytes)?;
        Ok(bytes)
    }
}

mod body;
mod data;
mod fault;
mod kind;
mod laws;
mod least;
mod line;
mod list;
mod listed;
mod part;
mod place;
mod places;
mod reader;
mod shared;
mod writer;

pub use body::{Text, Value};
pub(crate) use data::DATA_LIMIT;
pub use data::Data;
pub use fault::ReadFault;
pub use laws::one_response;
pub use listed::Listed;
