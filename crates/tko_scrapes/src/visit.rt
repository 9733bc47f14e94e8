//! One client's request and the answer to it, as bytes.
ghost use Rattle.std.specs.Prelude.{◌≡◌, ◌↔◌, ℕ, List, ◌++◌, All, IfOk};
ghost use Rattle.std.specs.Io.KnownBytes.{Appends, Consumes};
ghost use Rattle.http_server.specs.Connection.{config_of, history};
ghost use Rattle.http_server.specs.History.{IsDone, Rests, new_history};
ghost use Rattle.tko_scrapes.specs.Pages.{IsScrapeAnswered};
ghost use Rattle.tko_scrapes.specs.Visits.{limits};

use crate::pages::Pages;
use http_server::{Config, Connection};
use http1::Limits;
use std::alloc::Global;
use std::hash::RandomState;
use std::io;
use std::io::{ErrorKind, Read, Write};
use std::random::RandomSource;

/// How many bytes the head of a request has at most. A longer one is refused.
const HEAD: usize = 8192;

/// How many bytes of an answer wait for a client at most.
const PENDING: usize = 65536;

/// What a client may send, and how much of an answer waits for it.
const LIMITS: Config = Config {
    limits: Limits {
        max_head_len: HEAD,
        max_extensions_len: HEAD,
        max_trailers_len: HEAD,
    },
    max_body_len: 0,
    max_pending: PENDING,
    read_size: HEAD,
};

/// What became of a client by one call of the system.
#[derive(Clone, Copy, Debug, PartialEq, Eq)]
pub(crate) enum CallEnd {
    /// Bytes were moved.
    Moved,
    /// The client has sent nothing more, or takes nothing more now.
    Waits,
    /// The answer was sent.
    Done,
    /// The connection is broken.
    Broken,
}

/// One client's request and the answer to it. What is read and what is written goes through the
/// ends that each turn is given.
#[derive(Drop)]
pub(crate) struct PageExchange {
    connection: Connection,
    ghost bounded: { config_of connection ≡ limits },
    ghost answered: { All IsScrapeAnswered (history connection).calls },
}

/// Keys for the tables of a request's headers. A request has few headers, so it does not matter
/// that its sender knows them.
struct KnownKeys;

impl RandomSource for KnownKeys {
    fn fill_bytes(&self, _buf: &mut [u8]) -> io::Result<()> {
        Ok(())
    }
}

impl PageExchange {
    /// A client that has sent nothing yet.
    pub(crate) fn new(alloc: Global) -> io::Result<PageExchange>
        ensures { IfOk result (λ visit. history visit.connection ≡ new_history) }
    {
        let keys = RandomState::new(&KnownKeys)?;
        Ok(PageExchange {
            connection: Connection::new(alloc, keys, LIMITS),
        })
    }

    /// Writes once where an answer waits, and else reads once; then answers what was read.
    pub(crate) fn turn<R: Read, W: Write>(
        &mut self,
        pages: &mut Pages<'_>,
        reader: &mut R,
        writer: &mut W,
    ) -> CallEnd
        ensures done { (result ≡ CallEnd.Done) ↔ IsDone (history self.new.connection) }
        ensures rests { Rests (config_of self.new.connection) (history self.new.connection) }
        ensures read { (more : List ℕ)
            × Consumes (R.remaining reader.old) (R.remaining reader.new) more
            × ((history self.new.connection).received
            ≡ (history self.old.connection).received ++ more) }
        ensures written { (more : List ℕ)
            × Appends (W.contents writer.old) (W.contents writer.new) more
            × ((history self.new.connection).sent ≡ (history self.old.connection).sent ++ more) }
    {
        let moved = self.move_bytes(reader, writer);
        self.connection.advance(pages);
        if self.connection.is_done() {
            return CallEnd::Done;
        }
        after(&moved)
    }

    /// Writes once where an answer waits, and else reads once.
    fn move_bytes<R: Read, W: Write>(&mut self, reader: &mut R, writer: &mut W) -> io::Result<usize>
        ensures read { (more : List ℕ)
            × Consumes (R.remaining reader.old) (R.remaining reader.new) more
            × ((history self.new.connection).received
            ≡ (history self.old.connection).received ++ more) }
        ensures written { (more : List ℕ)
            × Appends (W.contents writer.old) (W.contents writer.new) more
            × ((history self.new.connection).sent ≡ (history self.old.connection).sent ++ more) }
    {
        if self.connection.wants_write() {
            self.connection.write_to(writer)
        } else {
            self.connection.read_from(reader)
        }
    }
}

/// What a call of the system means for a client that is not done.
pub(crate) fn after(moved: &io::Result<usize>) -> CallEnd
    ensures { result ≡ CallEnd.Done → ⊥ }
{
    match moved {
        Ok(0) => CallEnd::Waits,
        Ok(_) => CallEnd::Moved,
        Err(error) if is_waiting(error) => CallEnd::Waits,
        Err(_) => CallEnd::Broken,
    }
}

/// Whether a call would have had to wait.
fn is_waiting(error: &io::Error) -> bool {
    matches!(error.kind(), ErrorKind::WouldBlock | ErrorKind::Interrupted)
}
