//! How many clients ended, by how they did.
ghost use Rattle.std.specs.Prelude.{◌≡◌};
ghost use Rattle.tko_worker.specs.Counts.{counted_end, no_ends, one_more};

use std::marker::Model;
use std::mem::replace;
use std::net::SocketAddr;
use tko_port::{End, Port};

/// How many clients ended, by how they did. Each number stays at 2^64 - 1.
#[derive(Clone, Copy, Debug, PartialEq, Eq)]
pub struct EndCounts {
    pub finished: u64,
    /// The last line was too long.
    pub line_too_long: u64,
    /// Memory ran out, for the client or to note it.
    pub memory: u64,
    /// Reading failed, or the client was to leave so.
    pub read: u64,
    /// Writing failed, or the client was to leave so.
    pub write: u64,
}

impl EndCounts {
    /// None ended.
    pub fn none() -> EndCounts
        ensures { result ≡ no_ends }
    {
        EndCounts {
            finished: 0,
            line_too_long: 0,
            memory: 0,
            read: 0,
            write: 0,
        }
    }

    /// Counts an end.
    fn count(&mut self, end: End)
        ensures { self.new ≡ counted_end end self.old }
    {
        match end {
            End::Finished => self.finished = one_more(self.finished),
            End::LineTooLong => self.line_too_long = one_more(self.line_too_long),
            End::Memory => self.memory = one_more(self.memory),
            End::ReadFailed => self.read = one_more(self.read),
            End::WriteFailed => self.write = one_more(self.write),
        }
    }
}

/// Which protocol a client spoke.
#[derive(Clone, Copy, Debug, PartialEq, Eq)]
pub(crate) enum Protocol {
    Text,
    /// The client is at this address, where the system tells it.
    Binary(Option<SocketAddr>),
}

impl Protocol {
    /// That of the client at this port.
    pub(crate) fn of<L: Port>(port: &L) -> Protocol {
        if port.is_binary() {
            Protocol::Binary(port.remote())
        } else {
            Protocol::Text
        }
    }
}

/// Clients that spoke the binary protocol: how many, and the address of the last of them, where the
/// system tells it.
#[derive(Clone, Copy, Debug, PartialEq, Eq)]
pub struct BinaryClients {
    pub count: u64,
    pub last: Option<SocketAddr>,
}

impl BinaryClients {
    fn none() -> BinaryClients {
        BinaryClients {
            count: 0,
            last: None,
        }
    }
}

/// The clients of a worker that ended since their ends were taken. Contracts see the ends.
#[derive(Drop)]
pub(crate) struct CountedEnds {
    ends: EndCounts,
    /// Those that spoke the binary protocol, which the metrics show apart.
    binary: BinaryClients,
}

impl Model for CountedEnds {
    ghost use Rattle.tko_worker.specs.declared.ends.EndCounts.{EndCounts};

    ghost Value = { EndCounts };

    ghost view = { λ c. c.ends };
}

impl CountedEnds {
    /// None ended.
    pub(crate) fn none() -> CountedEnds
        ensures { result ≡ no_ends }
    {
        CountedEnds {
            ends: EndCounts::none(),
            binary: BinaryClients::none(),
        }
    }

    /// Counts the end of a client that spoke this protocol.
    pub(crate) fn count(&mut self, end: End, protocol: Protocol)
        ensures { self.new ≡ counted_end end self.old }
    {
        self.ends.count(end);
        if let Protocol::Binary(client) = protocol {
            self.binary = BinaryClients {
                count: one_more(self.binary.count),
                last: client,
            };
        }
    }

    /// Takes the ends.
    pub(crate) fn take(&mut self) -> EndCounts
        ensures taken { result ≡ self.old }
        ensures none { self.new ≡ no_ends }
    {
        replace(&mut self.ends, EndCounts::none())
    }

    /// Takes those that spoke the binary protocol, if there are any.
    pub(crate) fn take_binary(&mut self) -> Option<BinaryClients>
        ensures { self.new ≡ self.old }
    {
        if self.binary.count == 0 {
            return None;
        }
        Some(replace(&mut self.binary, BinaryClients::none()))
    }
}

fn one_more(count: u64) -> u64
    ensures { result ≡ one_more count }
{
    count.saturating_add(1)
}
