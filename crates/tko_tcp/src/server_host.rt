//! Where a server is, for a caller that may not wait for a look-up.
ghost use Rattle.std.specs.Prelude.{◌≡◌, IfOk, OnErr, OnOk};
ghost use Rattle.tko_tcp.specs.ServerHosts.{IsLearned, LeadsTo};

use crate::host_state::ConnectStep;
use crate::named_host::NamedHost;
use crate::names::Names;
use crate::tcp_address::host_and_port;
use std::alloc::AllocError;
use std::net::{IpAddr, SocketAddr};
use std::sync::Wait;
use tko_bytes::NoMemory;

/// Where a server is.
#[derive(Drop)]
pub enum ServerHost {
    /// Nowhere: its address is malformed, or its host is not among the names.
    Nowhere,
    /// At one IP address.
    Fixed(SocketAddr),
    /// At the addresses of a host with a name, which is looked up.
    Named(NamedHost),
}

/// What is known of a host's addresses.
#[derive(Clone, Copy, Debug, PartialEq, Eq)]
pub enum Known {
    /// Some addresses are known.
    Addresses,
    /// None are known, and a look-up is requested. This many look-ups had ended.
    Asked(u64),
    /// None are known, although a look-up has ended since the last request.
    Nothing,
}

impl Names {
    /// Where the server with this address is.
    pub fn server_host(&self, address: &str) -> Result<ServerHost, AllocError>
        ensures { IfOk result (λ host. LeadsTo address.now host) }
    {
        let Some((host, port)) = host_and_port(address) else {
            return Ok(ServerHost::Nowhere);
        };
        if let Ok(ip) = host.parse::<IpAddr>() {
            return Ok(ServerHost::Fixed(SocketAddr::new(ip, port)));
        }
        let Some(place) = self.place(host) else {
            return Ok(ServerHost::Nowhere);
        };
        let server = self.server_at(address);
        let host = NamedHost::new(self.another()?, place, port, server);
        Ok(ServerHost::Named(host))
    }
}

impl NamedHost {
    /// Replaces `all` with the addresses that are known now, if any. If none are known, requests a
    /// look-up, unless one has ended since `since` of them had.
    pub fn known<R: Wait>(
        &self,
        rt: &R,
        since: Option<u64>,
        all: &mut Vec<SocketAddr>,
    ) -> Result<Known, NoMemory>
        ensures ok { IfOk result (λ known.
            IsLearned since all.old.items known all.new.items) }
        ensures err { OnErr result (all.new.items ≡ all.old.items) }
    {
        match self.names.next(rt, self.place, since) {
            ConnectStep::Try(addresses) => {
                replace(all, addresses.as_slice())?;
                Ok(Known::Addresses)
            }
            ConnectStep::Wait(ended) => Ok(Known::Asked(ended)),
            ConnectStep::GiveUp => Ok(Known::Nothing),
        }
    }

    /// Requests a look-up.
    pub fn ask<R: Wait>(&self, rt: &R) {
        self.names.ask_at(rt, self.place);
    }
}

/// Replaces `all` with these addresses. If memory runs out, `all` stays as it was.
fn replace(all: &mut Vec<SocketAddr>, found: &[SocketAddr]) -> Result<(), NoMemory>
    ensures ok { OnOk result (all.new.items ≡ found.now) }
    ensures err { OnErr result (all.new.items ≡ all.old.items) }
{
    let before = all.len();
    all.extend_from_slice(found)?;
    all.drain(..before);
    Ok(())
}
