//! One client's connection, which does not wait.

use crate::store::Store;
use crate::visit::Visit;
use mio::net::TcpStream;
use std::alloc::Global;
use std::io::{ErrorKind, Read, Write};

/// How many bytes are read at once.
const READ_BYTES: usize = 16_384;

/// What one call of the socket came to.
#[derive(Clone, Copy)]
enum Moved {
    Some,
    /// Nothing can be moved before the next event.
    Nothing,
    /// The connection has ended.
    Ended,
}

/// One client: its connection, what it asks, and the replies that it has not taken yet.
#[derive(Drop)]
pub(crate) struct Guest {
    stream: TcpStream,
    visit: Visit,
    unsent: Vec<u8>,
}

impl Guest {
    pub(crate) fn new(alloc: Global, stream: TcpStream) -> Guest {
        Guest {
            stream,
            visit: Visit::new(alloc),
            unsent: Vec::new(alloc),
        }
    }

    /// Writes and reads as much as it can, and returns whether the client stays.
    pub(crate) fn turn(&mut self, alloc: Global, store: &mut Store) -> bool {
        for _ in 0..u64::MAX {
            match self.step(alloc, store) {
                Moved::Some => {}
                Moved::Nothing => return true,
                Moved::Ended => return false,
            }
        }
        false
    }

    /// One call of the socket. It reads once all replies are written.
    fn step(&mut self, alloc: Global, store: &mut Store) -> Moved {
        if !self.unsent.is_empty() {
            return self.write();
        }
        if self.visit.is_over() {
            return Moved::Ended;
        }
        self.read(alloc, store)
    }

    fn write(&mut self) -> Moved {
        match self.stream.write(&self.unsent) {
            Ok(0) => Moved::Ended,
            Ok(count) => {
                self.unsent.drain(..count);
                Moved::Some
            }
            Err(error) => after(error.kind()),
        }
    }

    fn read(&mut self, alloc: Global, store: &mut Store) -> Moved {
        let mut buffer = [0u8; READ_BYTES];
        match self.stream.read(&mut buffer) {
            Ok(0) => Moved::Ended,
            Ok(count) => {
                let piece = &buffer[..count];
                match self.visit.take(alloc, store, piece, &mut self.unsent) {
                    Ok(()) => Moved::Some,
                    Err(_) => Moved::Ended,
                }
            }
            Err(error) => after(error.kind()),
        }
    }
}

/// What a call came to that failed so.
fn after(kind: ErrorKind) -> Moved {
    match kind {
        ErrorKind::WouldBlock => Moved::Nothing,
        ErrorKind::Interrupted => Moved::Some,
        _ => Moved::Ended,
    }
}
