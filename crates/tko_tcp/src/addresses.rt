//! The addresses of a host.
ghost use Rattle.std.specs.Prelude.{◌≡◌, [], IfOk};

use std::io::Result;
use std::marker::Model;
use std::net::{Ipv4Addr, Net, SocketAddr};

/// The most addresses of one host that are kept.
const MAX_HOST_ADDRESSES: usize = 32;

/// The addresses of a host, without ports, in the order in which the resolver returned them; at
/// most `MAX_HOST_ADDRESSES`. In contracts they are a list.
#[derive(Drop)]
pub(crate) struct ResolvedAddresses {
    all: [SocketAddr; MAX_HOST_ADDRESSES],
    count: usize,
}

impl Model for ResolvedAddresses {
    ghost use Rattle.std.specs.Prelude.{◌≤◌, List, take};
    ghost use Rattle.std.specs.declared.net.socket_addr.SocketAddr.{SocketAddr};
    ghost use Rattle.tko_tcp.specs.TcpAddresses.{max_host_addresses};

    ghost Value = { List SocketAddr };

    ghost view = { λ addresses. take addresses.count addresses.all };

    ghost invariant = { λ addresses. addresses.count ≤ max_host_addresses };
}

impl ResolvedAddresses {
    pub(crate) fn none() -> ResolvedAddresses
        ensures { result ≡ [] }
    {
        ResolvedAddresses {
            all: [SocketAddr::from((Ipv4Addr::UNSPECIFIED, 0)); MAX_HOST_ADDRESSES],
            count: 0,
        }
    }

    /// Asks the system's resolver for the addresses of a host. Nothing limits how long that takes.
    pub(crate) fn look_up<N: Net>(net: &N, host: &str) -> Result<ResolvedAddresses> {
        let mut all = [SocketAddr::from((Ipv4Addr::UNSPECIFIED, 0)); MAX_HOST_ADDRESSES];
        let count = net.lookup_host(host, 0, &mut all)?;
        Ok(ResolvedAddresses { all, count })
    }

    pub(crate) fn as_slice(&self) -> &[SocketAddr]
        ensures { result.now ≡ self.now }
    {
        &self.all[..self.count]
    }

    pub(crate) fn copy(&self) -> ResolvedAddresses
        ensures { result ≡ self.now }
    {
        ResolvedAddresses {
            all: self.all,
            count: self.count,
        }
    }
}
