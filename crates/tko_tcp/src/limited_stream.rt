//! A socket with a time limit for each read and write.
ghost use Rattle.std.specs.Prelude.{◌≡◌, ◌≤◌, IfOk, length};

use libc::net::{POLLIN, poll};
use libc::types::pollfd;
use std::io::{Error, ErrorKind, Read, Result, Write};
use std::net::TcpStream;
use std::os::fd::AsRawFd;
use std::time::Duration;

/// A socket, and the time limits that were last set on it. A read or write first sets its own
/// limit, by one more system call, unless the socket already has that limit.
#[derive(Drop)]
pub(crate) struct LimitedStream {
    stream: TcpStream,
    read_limit: Duration,
    write_limit: Duration,
}

impl LimitedStream {
    /// Sets both limits of the socket to `limit`.
    pub(crate) fn new(stream: TcpStream, limit: Duration) -> Result<LimitedStream>
        ensures reads { IfOk result (λ socket. socket.read_limit ≡ limit) }
        ensures writes { IfOk result (λ socket. socket.write_limit ≡ limit) }
    {
        stream.set_read_timeout(Some(limit))?;
        stream.set_write_timeout(Some(limit))?;
        Ok(LimitedStream {
            stream,
            read_limit: limit,
            write_limit: limit,
        })
    }

    /// Writes from the front of `bytes`, and returns how many bytes were written.
    pub(crate) fn write(&mut self, limit: Duration, bytes: &[u8]) -> Result<usize>
        ensures count { IfOk result (λ count. count ≤ length bytes.now) }
        ensures limited { IfOk result (λ count. self.new.write_limit ≡ limit) }
    {
        if self.write_limit != limit {
            self.stream.set_write_timeout(Some(limit))?;
            self.write_limit = limit;
        }
        self.stream.write(bytes)
    }

    /// Reads into the front of `buffer`, and returns how many bytes were read.
    pub(crate) fn read(&mut self, limit: Duration, buffer: &mut [u8]) -> Result<usize>
        ensures count { IfOk result (λ count. count ≤ length buffer.new) }
        ensures limited { IfOk result (λ count. self.new.read_limit ≡ limit) }
    {
        if self.read_limit != limit {
            self.stream.set_read_timeout(Some(limit))?;
            self.read_limit = limit;
        }
        self.stream.read(buffer)
    }

    /// Reads what has come into the front of `buffer`, and returns how many bytes that were. If
    /// nothing has come, it times out at once.
    pub(crate) fn read_now(&mut self, buffer: &mut [u8]) -> Result<usize>
        ensures count { IfOk result (λ count. count ≤ length buffer.new) }
        ensures limit { self.new.read_limit ≡ self.old.read_limit }
    {
        if self.is_quiet() {
            return Err(Error::from(ErrorKind::TimedOut));
        }
        self.stream.read(buffer)
    }

    /// Whether the peer has neither closed the connection nor sent bytes that are still unread.
    /// Makes one system call, and does not wait.
    pub(crate) fn is_quiet(&self) -> bool {
        let readable = pollfd {
            fd: self.stream.as_raw_fd(),
            events: POLLIN,
            revents: 0,
        };
        poll(&mut [readable], 0) == 0
    }
}
