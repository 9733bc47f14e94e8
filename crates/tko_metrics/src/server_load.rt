//! What an event-driven worker has to do with a server.
ghost use Rattle.std.specs.Prelude.{◌≡◌, ℕ, Option};
ghost use Rattle.tko_metrics.specs.ServerLoads.{HasOwnNumber, probe_number};

use crate::counter::Counter;

/// What an event-driven worker has to do with a server at a moment.
#[derive(Clone, Copy, Debug, PartialEq, Eq)]
pub struct ServerLoad {
    /// The requests that wait for a response of the server, or to be sent to it.
    pub in_flight: u64,
    /// In how many milliseconds its next probe is due, if the worker probes it and no probe is out.
    pub next_probe: Option<u64>,
}

/// What one worker has to do with a server. It alone writes here; a worker that is not event-driven
/// leaves all at 0.
#[derive(Drop)]
pub(crate) struct ServerLoadNumbers {
    in_flight: Counter,
    /// What stands for when the next probe is due, as `probe_number` says.
    next_probe: Counter,
}

impl ServerLoadNumbers {
    /// No load was told.
    pub(crate) fn new() -> ServerLoadNumbers {
        ServerLoadNumbers {
            in_flight: Counter::new(),
            next_probe: Counter::new(),
        }
    }

    pub(crate) fn set(&self, load: ServerLoad) {
        self.in_flight.set(load.in_flight);
        self.next_probe.set(probe_number(load.next_probe));
    }

    /// The load at this moment.
    pub(crate) fn reading(&self) -> ServerLoad {
        ServerLoad {
            in_flight: self.in_flight.get(),
            next_probe: probe_of(self.next_probe.get()),
        }
    }
}

/// The number that stands for when the next probe is due: 0 for none, so that a worker that told
/// nothing has none, and else one more than the milliseconds until then.
fn probe_number(next: Option<u64>) -> u64
    ensures { result ≡ probe_number next }
{
    match next {
        Some(after) => after.saturating_add(1),
        None => 0,
    }
}

/// When the next probe is due, where this number stands for it.
fn probe_of(number: u64) -> Option<u64>
    ensures { (next : Option ℕ) → HasOwnNumber next → number ≡ probe_number next → result ≡ next }
{
    number.checked_sub(1)
}
