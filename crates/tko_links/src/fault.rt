//! Why an exchange has no response.
ghost use Rattle.std.specs.Prelude.{◌≡◌};
ghost use Rattle.tko_links.specs.Faults.{exchange_outcome, link_fault_of};

use crate::links::{ExchangeNoMemory, Outcome};
use crate::wire::WireFault;

/// Why an exchange that has a connection has no response.
#[derive(Clone, Copy, Debug, PartialEq, Eq)]
pub(crate) enum LinkFault {
    TimedOut,
    Broken,
    Memory,
}

impl LinkFault {
    /// The fault of an exchange in which a read or write failed so.
    pub(crate) fn of(fault: WireFault) -> LinkFault
        ensures { result ≡ link_fault_of fault }
    {
        match fault {
            WireFault::TimedOut => LinkFault::TimedOut,
            WireFault::Other => LinkFault::Broken,
        }
    }

    /// The result of an exchange with this fault, whose send was counted.
    pub(crate) fn outcome(self) -> Result<Outcome, ExchangeNoMemory>
        ensures { result ≡ exchange_outcome self }
    {
        match self {
            LinkFault::TimedOut => Ok(Outcome::Timeout),
            LinkFault::Broken => Ok(Outcome::Broken),
            LinkFault::Memory => Err(ExchangeNoMemory { sent: true }),
        }
    }
}
