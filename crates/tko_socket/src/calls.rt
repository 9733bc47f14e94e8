//! Reads and writes of a socket, made again where a signal interrupted them.
ghost use Rattle.std.specs.Prelude.{◌≤◌, IfOk, length};

use mio::net::TcpStream;
use std::io;
use std::io::{ErrorKind, Read, Write};

/// How often a call that was interrupted is made, at most.
const MAX_INTERRUPTED_CALLS: u32 = 16;

/// Reads to the front of the buffer, and returns how many bytes.
pub(crate) fn read(stream: &mut TcpStream, buffer: &mut [u8]) -> io::Result<usize>
    ensures { IfOk result (λ count. count ≤ length buffer.new) }
{
    for _ in 0..MAX_INTERRUPTED_CALLS {
        match stream.read(buffer) {
            Err(error) if error.kind() == ErrorKind::Interrupted => {}
            done => return done,
        }
    }
    Err(ErrorKind::Interrupted.into())
}

/// Writes from the front of the text, and returns how many bytes.
pub(crate) fn write(stream: &mut TcpStream, text: &[u8]) -> io::Result<usize>
    ensures { IfOk result (λ count. count ≤ length text.now) }
{
    for _ in 0..MAX_INTERRUPTED_CALLS {
        match stream.write(text) {
            Err(error) if error.kind() == ErrorKind::Interrupted => {}
            done => return done,
        }
    }
    Err(ErrorKind::Interrupted.into())
}
