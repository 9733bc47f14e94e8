//! A server at a host with a name, which is looked up.
ghost use Rattle.std.specs.Prelude.{◌≡◌, ◌<◌, length};
ghost use Rattle.std.specs.Arc.{arc_value};

use crate::names::Names;

/// A host with a name, and the port of a server there.
#[derive(Drop)]
pub struct NamedHost {
    pub(crate) names: Names,
    /// The index of the host in `names`.
    pub(crate) place: usize,
    port: u16,
    /// The index of the server in `names`.
    server: Option<usize>,
    ghost within: { place < length (arc_value names.shared).hosts.items },
}

impl NamedHost {
    /// The server at this port of the host with this index, and its own index.
    pub(crate) fn new(names: Names, place: usize, port: u16, server: Option<usize>) -> NamedHost
        requires { place < length (arc_value names.shared).hosts.items }
        ensures names { result.names ≡ names }
        ensures place { result.place ≡ place }
        ensures port { result.port ≡ port }
    {
        NamedHost {
            names,
            place,
            port,
            server,
        }
    }

    /// At which of the host's addresses a connection to the server was made last, by any worker.
    pub fn reached(&self) -> Option<usize> {
        self.names.reached(self.server?)
    }

    /// A connection to the server was made at this one of the host's addresses, which all workers
    /// learn.
    pub fn reach(&self, place: usize) {
        if let Some(server) = self.server {
            self.names.reach(server, place);
        }
    }

    /// The port of the server.
    pub fn port(&self) -> u16
        ensures { result ≡ self.now.port }
    {
        self.port
    }
}
