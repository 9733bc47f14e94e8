//! Clients over TCP.
ghost use Rattle.std.specs.Prelude.{◌≡◌};

use crate::first_asks::FirstAsk;
use crate::room::ClientPlace;
use crossbeam_channel::{Receiver, RecvTimeoutError};
use std::alloc::{AllocError, Global};
use std::io;
use std::io::{ErrorKind, Read, Write};
use std::net::{SocketAddr, TcpStream};
use std::sync::Arc;
use std::time::Duration;
use tko_io::{IoRuntime, MonotonicClock, Piped};
use tko_threads::{IDLE, Next, Patience, Source, Visitor};

/// A client's connection. Both its ends share it, so that a client takes one descriptor. The socket
/// is closed before the place is freed.
#[derive(Drop)]
struct Connection {
    stream: TcpStream,
    place: ClientPlace,
}

/// The end of a connection from which the client's bytes are read.
#[derive(Drop)]
pub struct Incoming {
    connection: Arc<Connection, Global>,
}

/// The end of a connection to which the client's replies are written.
#[derive(Drop)]
pub struct Outgoing {
    connection: Arc<Connection, Global>,
}

/// A client: the two ends of its connection, its address, and its time limits.
#[derive(Drop)]
pub struct AcceptedClient {
    reader: Piped<Incoming>,
    writer: Piped<Outgoing>,
    address: SocketAddr,
    patience: Patience,
}

impl AcceptedClient {
    /// The client of a connection from this address, whose socket was set up with these time
    /// limits.
    pub(crate) fn new(
        alloc: Global,
        stream: TcpStream,
        address: SocketAddr,
        place: ClientPlace,
        patience: Patience,
    ) -> Result<AcceptedClient, AllocError> {
        let connection = Arc::new(alloc, Connection { stream, place })?;
        let writer = Outgoing {
            connection: Arc::try_clone(&connection)?,
        };
        let reader = Incoming { connection };
        Ok(AcceptedClient {
            reader: Piped::new(reader),
            writer: Piped::new(writer),
            address,
            patience,
        })
    }
}

impl Read for Incoming {
    fn read(&mut self, buf: &mut [u8]) -> io::Result<usize> {
        (&self.connection.stream).read(buf)
    }
}

/// A write that times out fails with `Interrupted`, so that its caller tries it again. `Paced`
/// decides how often a client may have its worker do so.
impl Write for Outgoing {
    fn write(&mut self, buf: &[u8]) -> io::Result<usize> {
        match (&self.connection.stream).write(buf) {
            Err(error) if error.kind() == ErrorKind::WouldBlock => {
                Err(io::Error::from(ErrorKind::Interrupted))
            }
            written => written,
        }
    }

    fn flush(&mut self) -> io::Result<()> {
        Ok(())
    }
}

/// The accepted clients, received from a channel. A worker for which the process has no descriptors
/// has no channel, and gets no clients.
#[derive(Drop)]
pub struct Clients {
    /// Present until the worker has asked for its first client.
    pub first_ask: Option<FirstAsk>,
    pub accepted: Option<Receiver<AcceptedClient>>,
}

impl Source for Clients {
    type Reader = Piped<Incoming>;

    type Writer = Piped<Outgoing>;

    type Clock = MonotonicClock;

    fn clock<R: IoRuntime>(&self, rt: &R) -> MonotonicClock {
        MonotonicClock::new(rt)
    }

    fn next<R: IoRuntime>(&mut self, rt: &R) -> Next<Piped<Incoming>, Piped<Outgoing>> {
        if let Some(first_ask) = self.first_ask.take() {
            first_ask.report(rt);
        }
        let Some(accepted) = &self.accepted else {
            return Next::Closed;
        };
        match accepted.recv_timeout(rt, Duration::from_millis(u64::from(IDLE))) {
            Ok(client) => Next::Connection(Visitor {
                reader: client.reader,
                writer: client.writer,
                address: Some(client.address),
                patience: client.patience,
            }),
            Err(RecvTimeoutError::Timeout) => Next::Idle,
            Err(RecvTimeoutError::Disconnected) => Next::Closed,
        }
    }
}
