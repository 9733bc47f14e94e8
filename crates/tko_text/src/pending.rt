//! A request whose data have not all come.
ghost use Rattle.std.specs.Prelude.{◌≡◌};
ghost use Rattle.tko_text.specs.Parsed.{request_with};

use crate::line::{Header, StoreWord};
use crate::{Data, Entry, Request};

/// A parsed storage request, its line, and the bytes that follow the line.
#[derive(Debug, Drop)]
pub(crate) struct Pending {
    pub header: Header,
    /// The line, its LF included.
    pub line: Vec<u8>,
    /// The data so far, and what has come after them.
    pub data: Vec<u8>,
}

/// The request of a header and its data.
pub(crate) fn request_with(header: Header, bytes: Data) -> Request
    ensures { result ≡ request_with header bytes }
{
    let Header {
        word,
        key,
        flags,
        expiry,
        size: _,
        noreply,
    } = header;
    let entry = Entry {
        key,
        flags,
        expiry,
        value: bytes,
    };
    match word {
        StoreWord::Verb(verb) => Request::Store {
            verb,
            entry,
            noreply,
        },
        StoreWord::Cas(unique) => Request::Cas {
            entry,
            unique,
            noreply,
        },
    }
}
