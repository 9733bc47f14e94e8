//! A connection that does not wait.
ghost use Rattle.std.specs.Prelude.{◌≡◌, IfOk};
ghost use Rattle.tko_port.specs.FirstBytes.{IsTextGiven};
ghost use Rattle.tko_port.specs.Ports.{ready_port};
ghost use Rattle.tko_socket.specs.Sockets.{IsPieceTaken, port_of, unready};
ghost use Rattle.tko_socket.specs.Failures.{failed_read, failed_write};

use crate::{Trace, calls};
use mio::net::TcpStream;
use mio::{Interest, Registry, Token};
use std::io::ErrorKind;
use std::net::{Net, SocketAddr};
use std::{io, net};
use tko_port::{FirstByte, Port, Read};

/// How far a connection is that is being made.
#[derive(Clone, Copy, Debug, PartialEq, Eq)]
pub enum Connecting {
    /// It is still being made.
    Pending,
    Made,
    Failed,
}

/// A connection over TCP. It is registered at one poll for both ways, once and for all. An event
/// raises a flag, and only a call that found nothing to do, or took or gave less than it could,
/// ends that: so the next change is an event.
#[derive(Drop)]
pub struct Socket {
    stream: TcpStream,
    readable: bool,
    writable: bool,
    /// An event said that the other side sends no more: the end may wait behind the bytes that a
    /// read gives, and no event tells of it again.
    ended: bool,
    /// A client whose first byte is of the binary protocol is closed before any of its bytes is
    /// given.
    first: FirstByte,
    read: Trace,
    written: Trace,
}

impl Socket {
    /// A connection that was accepted. It may be ready for both ways, which the first calls find
    /// out. Its first byte is looked at.
    pub fn accepted(registry: &Registry, token: Token, stream: net::TcpStream) -> io::Result<Socket>
        ensures port { IfOk result (λ socket. port_of socket ≡ ready_port) }
        ensures first { IfOk result (λ socket. socket.first ≡ FirstByte.Awaited) }
    {
        stream.set_nonblocking(true)?;
        let mut socket = registered(registry, token, TcpStream::from_std(stream), true)?;
        socket.first = FirstByte::Awaited;
        Ok(socket)
    }

    /// Begins to connect, and does not wait. An event tells when the connection was made, or
    /// failed.
    pub fn connect<N: Net>(
        net: &N,
        registry: &Registry,
        token: Token,
        address: SocketAddr,
    ) -> io::Result<Socket>
        ensures { IfOk result (λ socket. port_of socket ≡ unready) }
    {
        registered(registry, token, TcpStream::connect(net, address)?, false)
    }

    /// This piece came. It is given, unless the client speaks the binary protocol: then the input
    /// ended, as far as anyone is told.
    fn came(&mut self, piece: &[u8], is_full: bool) -> Read
        ensures first { IsTextGiven self.old.first self.old.read
            → IsTextGiven self.new.first self.new.read }
        ensures came { IsPieceTaken (port_of self.old) piece.now is_full result (port_of self.new) }
    {
        if !self.first.look(piece) {
            self.readable = false;
            return Read::Ended;
        }
        self.readable = self.ended || is_full;
        self.read.add(piece);
        Read::Bytes(piece.len())
    }

    /// How far the connection is, after an event.
    pub fn connecting(&self) -> Connecting {
        match self.stream.take_error() {
            Ok(None) => match self.stream.peer_addr() {
                Ok(_) => Connecting::Made,
                Err(error) => not_connected(error.kind()),
            },
            Ok(Some(_)) => Connecting::Failed,
            Err(_) => Connecting::Failed,
        }
    }
}

/// Registers a connection, and has each of its writes sent at once.
fn registered(
    registry: &Registry,
    token: Token,
    stream: TcpStream,
    is_ready: bool,
) -> io::Result<Socket>
    ensures { IfOk result (λ socket. port_of socket
        ≡ record unready { readable = is_ready; writable = is_ready }) }
{
    let mut stream = stream;
    stream.set_nodelay(true)?;
    registry.register(&mut stream, token, Interest::READABLE | Interest::WRITABLE)?;
    Ok(Socket {
        stream,
        readable: is_ready,
        writable: is_ready,
        ended: false,
        first: FirstByte::Any,
        read: Trace::new(),
        written: Trace::new(),
    })
}

/// How far a connection without an error is that has no peer.
fn not_connected(kind: ErrorKind) -> Connecting {
    match kind {
        ErrorKind::NotConnected => Connecting::Pending,
        _ => Connecting::Failed,
    }
}

impl Port for Socket {
    ghost use Rattle.tko_port.specs.FirstBytes.{IsTextGiven};
    ghost use Rattle.tko_port.specs.Ports.{ReadGives};
    ghost use Rattle.tko_socket.specs.Sockets.{port_of};

    ghost port = { port_of };

    fn is_readable(&self) -> bool {
        self.readable
    }

    fn is_writable(&self) -> bool {
        self.writable
    }

    fn set_readable(&mut self) {
        self.readable = true;
    }

    fn set_writable(&mut self) {
        self.writable = true;
    }

    fn set_ended(&mut self) {
        self.ended = true;
        self.readable = true;
    }

    fn read(&mut self, buffer: &mut [u8]) -> Read
        ensures gives { ReadGives (port_of self.old) buffer.new result (port_of self.new) }
        ensures first { IsTextGiven self.old.first self.old.read
            → IsTextGiven self.new.first self.new.read }
    {
        match calls::read(&mut self.stream, buffer) {
            Ok(0) => {
                self.readable = false;
                Read::Ended
            }
            Ok(count) => {
                let is_full = count == buffer.len();
                self.came(&buffer[..count], is_full)
            }
            Err(error) => {
                self.readable = false;
                failed_read(error.kind())
            }
        }
    }

    fn is_binary(&self) -> bool {
        self.first.is_binary()
    }

    fn remote(&self) -> Option<SocketAddr> {
        self.stream.peer_addr().ok()
    }

    fn write(&mut self, text: &[u8]) -> Option<usize> {
        if text.is_empty() {
            return Some(0);
        }
        match calls::write(&mut self.stream, text) {
            Ok(0) => {
                self.writable = false;
                None
            }
            Ok(count) => {
                self.writable = count == text.len();
                self.written.add(&text[..count]);
                Some(count)
            }
            Err(error) => {
                self.writable = false;
                failed_write(error.kind())
            }
        }
    }
}

/// What a read gives that failed so.
fn failed_read(kind: ErrorKind) -> Read
    ensures { result ≡ failed_read kind }
{
    match kind {
        ErrorKind::WouldBlock => Read::Nothing,
        _ => Read::Fault,
    }
}

/// What a write gives that failed so.
fn failed_write(kind: ErrorKind) -> Option<usize>
    ensures { result ≡ failed_write kind }
{
    match kind {
        ErrorKind::WouldBlock => Some(0),
        _ => None,
    }
}
