//! One connection to a server, and the time limit of the exchange on it.
//!
//! Each call waits for a quarter of the time limit at most, and is made again as long as time is
//! left. As long as no call of an exchange can have waited, the time has not begun: that needs
//! neither a look at the clock nor a new limit of the socket.
ghost use Rattle.std.specs.Prelude.{◌≡◌, ◌≤◌, ◌↔◌, true, false, IfErr, IfOk, OnErr, length};
ghost use Rattle.std.specs.IoError.{error_kind};
ghost use Rattle.tko_tcp.specs.ExchangeTimes.{IsLater, came_in};
ghost use Rattle.tko_tcp.specs.TcpConnections.{BeginsExchange, BeginsRead, IsAllowed};
ghost use Rattle.tko_tcp.specs.TcpConnections.{IsConnectionOpened, IsQuick, IsReadAllowed};
ghost use Rattle.tko_tcp.specs.WireFaults.{fault_of_kind, is_passing};

use crate::exchange_time::ExchangeTime;
use crate::limited_stream::LimitedStream;
use crate::names::Names;
use crate::tcp_connect::connect;
use std::io;
use std::io::{Error, ErrorKind};
use std::time::{Duration, Instant};
use tko_io::IoRuntime;
use tko_links::WireFault;

/// A write of up to this many bytes does not wait if no other bytes are unsent.
const QUICK_WRITE: usize = 16_384;

/// A connection to a server.
#[derive(Drop)]
pub(crate) struct TcpConnection {
    socket: LimitedStream,
    time: ExchangeTime,
    /// Whether a call of this exchange may have waited.
    has_waited: bool,
}

impl TcpConnection {
    /// Connects to a server. The exchange with this time has begun: connecting uses part of it.
    pub(crate) fn open<R: IoRuntime>(
        rt: &R,
        names: &Names,
        address: &str,
        mut time: ExchangeTime,
    ) -> Result<TcpConnection, WireFault>
        ensures { IfOk result (λ connection. IsConnectionOpened time connection) }
    {
        let stream = connect(rt, names, address, &mut time).map_err(fault_of)?;
        stream.set_nodelay(true).map_err(fault_of)?;
        let socket = LimitedStream::new(stream, time.quarter()).map_err(fault_of)?;
        Ok(TcpConnection {
            socket,
            time,
            has_waited: true,
        })
    }

    /// Begins an exchange with this time limit, and returns whether the connection can be used for
    /// it.
    pub(crate) fn begin<R: IoRuntime>(&mut self, rt: &R, limit: Duration) -> bool
        ensures { BeginsExchange limit self.old self.new }
    {
        self.time = ExchangeTime::begin(rt, limit);
        self.has_waited = false;
        self.socket.is_quiet()
    }

    /// When the time of its exchange began, if the clock could be read.
    pub(crate) fn begun(&self) -> Option<Instant> {
        self.time.begun()
    }

    /// Writes from the front of `bytes`, and returns how many bytes were written.
    pub(crate) fn write<R: IoRuntime>(&mut self, rt: &R, bytes: &[u8]) -> Result<usize, WireFault>
        ensures count { IfOk result (λ count. count ≤ length bytes.now) }
        ensures time { IsLater self.old.time self.new.time }
    {
        for _ in rt.forever() {
            if self.has_waited {
                self.time.look(rt);
            }
            match self.try_write(bytes) {
                Err(error) if is_passing(error.kind()) => {}
                written => return written.map_err(fault_of),
            }
        }
        unreachable!()
    }

    /// Reads into the front of `buffer`, and returns how many bytes were read.
    pub(crate) fn read<R: IoRuntime>(
        &mut self,
        rt: &R,
        buffer: &mut [u8],
    ) -> Result<usize, WireFault>
        ensures count { IfOk result (λ count. count ≤ length buffer.new) }
        ensures limit { self.new.time.limit ≡ self.old.time.limit }
    {
        for _ in rt.forever() {
            self.begin_read(rt);
            match self.try_read(buffer) {
                Err(error) if is_passing(error.kind()) => {}
                read => return read.map_err(fault_of),
            }
        }
        unreachable!()
    }

    /// Tries a write. A signal may interrupt it, and it may take longer than one call may wait.
    fn try_write(&mut self, bytes: &[u8]) -> io::Result<usize>
        ensures count { IfOk result (λ count. count ≤ length bytes.now) }
        ensures limit { IfOk result (λ count. IsAllowed self.old.time self.new.socket.write_limit) }
        ensures quick { IfOk result (λ count. (self.new.has_waited ≡ false)
            ↔ IsQuick self.old bytes.now count) }
        ensures failed { IfErr result (λ error. self.new.has_waited ≡ true) }
        ensures time { self.new.time ≡ self.old.time }
    {
        let is_slow = self.has_waited || bytes.len() > QUICK_WRITE;
        self.has_waited = true;
        let Some(limit) = self.time.turn() else {
            return Err(Error::from(ErrorKind::TimedOut));
        };
        let count = self.socket.write(limit, bytes)?;
        self.has_waited = is_slow || count < bytes.len();
        Ok(count)
    }

    /// A read begins: the time of the exchange goes on, or begins now where no call of it can have
    /// waited. So the time of a response counts from a moment after its request was written.
    fn begin_read<R: IoRuntime>(&mut self, rt: &R)
        ensures { BeginsRead self.old self.new }
    {
        if self.has_waited {
            self.time.look(rt);
        } else {
            self.time = ExchangeTime::begin(rt, self.time.limit);
        }
    }

    /// Tries a read. A signal may interrupt it, and it may take longer than one call may wait. If
    /// no time is left, it takes what has come, and times out only if nothing has.
    fn try_read(&mut self, buffer: &mut [u8]) -> io::Result<usize>
        ensures count { IfOk result (λ count. count ≤ length buffer.new) }
        ensures limit { IfOk result (λ count. IsReadAllowed self.old.time self.new.socket) }
        ensures waited { self.new.has_waited ≡ true }
        ensures ok { IfOk result (λ count. self.new.time ≡ came_in count self.old.time) }
        ensures err { OnErr result (self.new.time ≡ self.old.time) }
    {
        self.has_waited = true;
        let count = match self.time.turn() {
            Some(limit) => self.socket.read(limit, buffer)?,
            None => self.socket.read_now(buffer)?,
        };
        self.time.come(count);
        Ok(count)
    }
}

/// Whether a call that failed so is made again as long as time is left: a signal interrupted it, or
/// it took longer than one call may wait.
fn is_passing(kind: ErrorKind) -> bool
    ensures { result ≡ is_passing kind }
{
    matches!(kind, ErrorKind::Interrupted | ErrorKind::WouldBlock)
}

/// The fault of a wire that an error of the socket counts as.
fn fault_of(error: Error) -> WireFault
    ensures { result ≡ fault_of_kind (error_kind error) }
{
    match error.kind() {
        ErrorKind::WouldBlock | ErrorKind::TimedOut => WireFault::TimedOut,
        _ => WireFault::Other,
    }
}
