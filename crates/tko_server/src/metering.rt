//! The metrics of a server, and the health of its pools.
ghost use Rattle.std.specs.Prelude.{IfOk};
ghost use Rattle.tko_server.specs.Beside.{IsMeterOf};

use crate::route_pools::route_pools;
use crate::running::Options;
use std::alloc::{AllocError, Global};
use std::net::TcpListener;
use tko_metrics::{Meter, Process};
use tko_scrapes::Scrapes;

/// Metrics that are to be answered for: the numbers, and the thread's part.
#[derive(Drop)]
pub struct Metering {
    meter: Meter,
    scrapes: Scrapes,
}

impl Metering {
    /// The metrics of a server that is started with these options, for the clients of this
    /// listener.
    pub fn start(
        alloc: Global,
        listener: TcpListener,
        options: &Options,
        process: Process,
    ) -> Result<Metering, AllocError>
        ensures { IfOk result (IsMeterOf options.now) }
    {
        let addresses = options.config.addresses();
        let pools = route_pools(alloc, &options.config)?;
        let meter = Meter::open(alloc, options.settings.threads, addresses.len())?;
        let scrapes = Scrapes::new(alloc, listener, meter.another()?, addresses, pools, process)?;
        Ok(Metering { meter, scrapes })
    }
}

/// The meter of these metrics, and what answers for it; where there are none, a meter that counts
/// nothing.
pub(crate) fn meter_of(metering: Option<Metering>) -> (Meter, Option<Scrapes>) {
    let Some(Metering { meter, scrapes }) = metering else {
        return (Meter::off(), None);
    };
    (meter, Some(scrapes))
}
