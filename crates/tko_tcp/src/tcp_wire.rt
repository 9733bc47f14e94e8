//! The connections to the servers over the system's sockets.
//!
//! No contract says which bytes a socket takes and returns, or when it fails. Contracts speak of
//! the servers' addresses, which of them are connected, how often calls failed, and the time limits
//! with which exchanges begin.
ghost use Rattle.std.specs.Prelude.{◌≡◌, ◌+◌, ◌*◌, ◌<◌, None, false, IfOk, get_or, length, map};
ghost use Rattle.std.specs.Prelude.{replicate, string_bytes};
ghost use Rattle.tko_tcp.specs.ProbeTimes.{nanos_in_milli};
ghost use Rattle.tko_tcp.specs.TcpWires.{IsTcpStep};
ghost use Rattle.tko_links.specs.Wires.{wire_faults_in, wire_refusals_in};

use crate::names::Names;
use crate::probe_time::ProbeTime;
use crate::tcp_server::TcpServer;
use std::alloc::Global;
use std::marker::Model;
use std::time::{Duration, Instant};
use tko_bytes::NoMemory;
use tko_io::IoRuntime;
use tko_links::{Wire, WireFault, Wired, counted, counted_write};

/// Connections to servers over TCP.
#[derive(Drop)]
pub struct TcpWire {
    servers: Vec<TcpServer>,
    names: Names,
    failures: u64,
    /// The time limit of the next exchange.
    limit: Duration,
    probe_time: ProbeTime,
}

/// Links over TCP.
pub type TcpLinks = Wired<TcpWire>;

impl Model for TcpWire {
    ghost use Rattle.std.specs.Prelude.{◌*◌, map};
    ghost use Rattle.std.specs.Duration.{as_nanos};
    ghost use Rattle.tko_tcp.specs.ProbeTimes.{nanos_in_milli};
    ghost use Rattle.tko_tcp.specs.TcpWires.{TcpState, address_of, is_open, time_limit_of};

    ghost Value = { TcpState };

    ghost view = { λ wire. record {
      addresses = map address_of wire.servers.items;
      connected = map is_open wire.servers.items;
      limits = map time_limit_of wire.servers.items;
      failures = wire.failures;
      limit = as_nanos wire.limit;
      whole = wire.probe_time.whole * nanos_in_milli;
    } };
}

impl TcpWire {
    /// The connections to the servers with these addresses, none of which is connected yet; `names`
    /// has their hosts. An exchange may take `time_limit_ms` milliseconds, connecting included, and
    /// all probes share one such time.
    pub fn new(
        alloc: Global,
        addresses: &[String],
        names: Names,
        time_limit_ms: u32,
    ) -> Result<TcpWire, NoMemory>
        ensures { IfOk result (λ wire. wire ≡ record {
          addresses = map string_bytes addresses.now;
          connected = replicate (length addresses.now) false;
          limits = replicate (length addresses.now) None;
          failures = 0;
          limit = time_limit_ms * nanos_in_milli;
          whole = time_limit_ms * nanos_in_milli;
        }) }
    {
        let mut servers = Vec::new(alloc);
        for address in addresses {
            let address = String::from_str(alloc, address.as_str())?;
            servers.push(TcpServer::new(address))?;
        }
        let probe_time = ProbeTime::new(time_limit_ms);
        Ok(TcpWire {
            servers,
            names,
            failures: 0,
            limit: probe_time.whole(),
            probe_time,
        })
    }
}

impl Wire for TcpWire {
    ghost servers = { λ wire. length wire.connected };

    ghost is_connected = { λ wire server. get_or wire.connected server false };

    ghost failures = { λ wire. wire.failures };

    ghost steps = { λ old it new. IsTcpStep old it new };

    fn connect<R: IoRuntime>(&mut self, rt: &R, server: usize) -> Result<(), WireFault> {
        let connected = self.servers[server].connect(rt, &self.names, self.limit);
        counted(rt, &mut self.failures, connected)
    }

    fn write<R: IoRuntime>(
        &mut self,
        rt: &R,
        server: usize,
        bytes: &[u8],
    ) -> Result<usize, WireFault> {
        let written = self.servers[server].write(rt, bytes);
        counted_write(rt, &mut self.failures, bytes, written)
    }

    fn read<R: IoRuntime>(
        &mut self,
        rt: &R,
        server: usize,
        buffer: &mut [u8],
    ) -> Result<usize, WireFault> {
        let read = self.servers[server].read(rt, buffer);
        counted(rt, &mut self.failures, read)
    }

    fn shut(&mut self, server: usize) {
        self.servers[server].shut();
    }

    fn is_usable<R: IoRuntime>(&mut self, rt: &R, server: usize) -> bool {
        self.servers[server].begin(rt, self.limit)
    }

    fn set_probing<R: IoRuntime>(&mut self, rt: &R, _server: usize, is_probe: bool) {
        if is_probe {
            self.limit = self.probe_time.begin(rt);
        } else {
            self.probe_time.end(rt);
            self.limit = self.probe_time.whole();
        }
    }

    fn is_connected(&self, server: usize) -> bool {
        self.servers[server].is_open()
    }

    fn servers(&self) -> usize {
        self.servers.len()
    }

    fn begun(&self, server: usize) -> Option<Instant> {
        self.servers.get(server)?.begun()
    }
}
