//! A server, and the connection to it.
ghost use Rattle.std.specs.Prelude.{◌≡◌, ◌≤◌, false, true, IfOk, IfSome, None, OnOk, Some};
ghost use Rattle.std.specs.Prelude.{length, string_bytes};
ghost use Rattle.std.specs.Duration.{as_nanos};
ghost use Rattle.tko_tcp.specs.declared.exchange_time.ExchangeTime.{ExchangeTime};
ghost use Rattle.tko_tcp.specs.ExchangeTimes.{IsTimeBegun};
ghost use Rattle.tko_tcp.specs.TcpConnections.{IsConnectionOpened};
ghost use Rattle.tko_tcp.specs.TcpWires.{address_of, is_open, time_limit_of};
ghost use Rattle.tko_links.specs.Wires.{is_ok};

use crate::exchange_time::ExchangeTime;
use crate::names::Names;
use crate::tcp_connection::TcpConnection;
use std::time::{Duration, Instant};
use tko_io::IoRuntime;
use tko_links::WireFault;

/// A server's address, and the connection to it, if there is one.
#[derive(Drop)]
pub(crate) struct TcpServer {
    address: String,
    connection: Option<TcpConnection>,
    /// When the last exchange began, if the clock could be read. Contracts do not see it.
    begun: Option<Instant>,
}

impl TcpServer {
    pub(crate) fn new(address: String) -> TcpServer
        ensures closed { result.connection ≡ None }
        ensures address { address_of result ≡ string_bytes address }
    {
        TcpServer {
            address,
            connection: None,
            begun: None,
        }
    }

    pub(crate) fn is_open(&self) -> bool
        ensures { result ≡ is_open self.now }
    {
        self.connection.is_some()
    }

    /// Begins an exchange by connecting. An open connection is closed first.
    pub(crate) fn connect<R: IoRuntime>(
        &mut self,
        rt: &R,
        names: &Names,
        limit: Duration,
    ) -> Result<(), WireFault>
        ensures connected { is_open self.new ≡ is_ok result }
        ensures limited { OnOk result (time_limit_of self.new ≡ Some (as_nanos limit)) }
        ensures address { address_of self.new ≡ address_of self.old }
        ensures opened { OnOk result (IfSome self.new.connection (λ connection.
            (time : ExchangeTime) × IsTimeBegun limit time × IsConnectionOpened time connection)) }
    {
        self.shut();
        let time = ExchangeTime::begin(rt, limit);
        self.begun = time.begun();
        let connection = TcpConnection::open(rt, names, self.address.as_str(), time)?;
        self.connection = Some(connection);
        Ok(())
    }

    pub(crate) fn write<R: IoRuntime>(&mut self, rt: &R, bytes: &[u8]) -> Result<usize, WireFault>
        ensures count { IfOk result (λ count. count ≤ length bytes.now) }
        ensures kept { is_open self.new ≡ is_open self.old }
        ensures address { address_of self.new ≡ address_of self.old }
    {
        match &mut self.connection {
            Some(connection) => connection.write(rt, bytes),
            None => Err(WireFault::Other),
        }
    }

    pub(crate) fn read<R: IoRuntime>(
        &mut self,
        rt: &R,
        buffer: &mut [u8],
    ) -> Result<usize, WireFault>
        ensures count { IfOk result (λ count. count ≤ length buffer.new) }
        ensures kept { is_open self.new ≡ is_open self.old }
        ensures address { address_of self.new ≡ address_of self.old }
    {
        match &mut self.connection {
            Some(connection) => connection.read(rt, buffer),
            None => Err(WireFault::Other),
        }
    }

    /// Begins an exchange, and returns whether the open connection can be used for it.
    pub(crate) fn begin<R: IoRuntime>(&mut self, rt: &R, limit: Duration) -> bool
        ensures kept { is_open self.new ≡ is_open self.old }
        ensures limited { is_open self.old ≡ true → time_limit_of self.new ≡ Some (as_nanos limit) }
        ensures address { address_of self.new ≡ address_of self.old }
    {
        match &mut self.connection {
            Some(connection) => {
                let usable = connection.begin(rt, limit);
                self.begun = connection.begun();
                usable
            }
            None => false,
        }
    }

    /// When the last exchange began, if the clock could be read.
    pub(crate) fn begun(&self) -> Option<Instant> {
        self.begun
    }

    pub(crate) fn shut(&mut self)
        ensures closed { is_open self.new ≡ false }
        ensures address { address_of self.new ≡ address_of self.old }
    {
        self.connection = None;
    }
}
