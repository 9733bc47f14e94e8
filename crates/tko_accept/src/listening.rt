//! The listener, and the results of its accepts.
ghost use Rattle.std.specs.Prelude.{◌≡◌, ◌⊎◌, ◌↔◌, ◌||◌, false, IsTrue};
ghost use Rattle.std.specs.IoError.{error_kind};
ghost use Rattle.tko_accept.specs.Accepting.{IsListenerBroken, count_after, is_broken, stop_of_kind};

use libc::net::listen;
use std::io;
use std::io::ErrorKind;
use std::net::{SocketAddr, TcpListener, TcpStream};
use std::os::fd::{AsRawFd, OwnedFd};
use std::time::Duration;

/// Linux' error number EBADF: the descriptor is not open.
const BAD_DESCRIPTOR: i32 = 9;

/// Linux' error number EINVAL, here: the socket does not listen.
const INVALID: i32 = 22;

/// Linux' error number ENOTSOCK: the descriptor is not a socket.
const NO_SOCKET: i32 = 88;

/// For how many milliseconds an accept waits for a connection.
const ACCEPT_PAUSE: u64 = 100;

/// How many connections may wait to be accepted, unless the system has a lower limit.
const BACKLOG: i32 = 1_024;

/// Why an accept gave no connection.
#[derive(Clone, Copy, Debug, PartialEq, Eq)]
pub(crate) enum AcceptStop {
    /// No connection came within `ACCEPT_PAUSE`.
    Nobody,
    /// A client closed its connection before it was accepted.
    Aborted,
    /// It failed for a cause that may pass, such as a lack of descriptors or of memory.
    Failed,
    /// The listener is broken: every later accept fails too.
    Broken,
}

/// A listener, and the results of its accepts.
#[derive(Drop)]
pub struct Listening<'a> {
    listener: &'a TcpListener,
    /// How many connections were accepted; it stays at 2^64 - 1.
    accepted: u64,
    /// Whether the listener was found to be broken.
    is_broken: bool,
}

impl<'a> Listening<'a> {
    /// Lets `BACKLOG` connections wait to be accepted, and limits how long an accept waits for one
    /// to `ACCEPT_PAUSE`. A setting that the system refuses stays as it was: an accept without that
    /// limit waits until a connection comes.
    pub fn new(listener: &'a TcpListener) -> Listening<'a>
        ensures { (result.accepted ≡ 0) × (result.is_broken ≡ false) }
    {
        let _status = listen(listener.as_raw_fd(), BACKLOG);
        let _limited = limit_accepts(listener);
        Listening {
            listener,
            accepted: 0,
            is_broken: false,
        }
    }

    /// How many connections were accepted; it stays at 2^64 - 1.
    pub fn accepted(&self) -> u64
        ensures { result ≡ self.now.accepted }
    {
        self.accepted
    }

    /// Accepts the next connection, which comes from this address.
    pub(crate) fn accept(&mut self) -> Result<(TcpStream, SocketAddr), AcceptStop>
        ensures accepted { self.new.accepted ≡ count_after self.old.accepted result }
        ensures broken { self.new.is_broken ≡ (self.old.is_broken || is_broken result) }
    {
        match self.listener.accept() {
            Ok(accepted) => {
                self.accepted = self.accepted.saturating_add(1);
                Ok(accepted)
            }
            Err(error) => {
                let stop = stop_of(&error);
                self.is_broken = self.is_broken || stop == AcceptStop::Broken;
                Err(stop)
            }
        }
    }
}

/// Limits how long an accept waits. A socket's read timeout also limits its accepts. It belongs to
/// the socket, so that it can be set through a second handle.
fn limit_accepts(listener: &TcpListener) -> io::Result<()> {
    let handle = TcpStream::from(OwnedFd::from(listener.try_clone()?));
    handle.set_read_timeout(Some(Duration::from_millis(ACCEPT_PAUSE)))
}

/// Why an accept failed.
fn stop_of(error: &io::Error) -> AcceptStop
    ensures broken { (result ≡ AcceptStop.Broken) ↔ IsListenerBroken error.now }
    ensures others { IsListenerBroken error.now ⊎ (result ≡ stop_of_kind (error_kind error.now)) }
{
    if is_broken(error) {
        return AcceptStop::Broken;
    }
    match error.kind() {
        ErrorKind::WouldBlock => AcceptStop::Nobody,
        ErrorKind::ConnectionAborted => AcceptStop::Aborted,
        _ => AcceptStop::Failed,
    }
}

/// Whether the error says that the descriptor is not an open, listening socket.
fn is_broken(error: &io::Error) -> bool
    ensures { IsTrue result ↔ IsListenerBroken error.now }
{
    let Some(number) = error.raw_os_error() else {
        return false;
    };
    number == BAD_DESCRIPTOR || number == INVALID || number == NO_SOCKET
}
