//! How much a worker serves, and what it has to do with each server, as its meter gets it.
ghost use Rattle.std.specs.Prelude.{◌≡◌, ◌-◌, option_map};
ghost use Rattle.tko_port.specs.Wires.{in_flight_at};
ghost use Rattle.tko_prober.specs.Probers.{next_probe_at};

use tko_loop::Load;
use tko_metrics::{ServerLoad, WorkerLoad};
use tko_port::{Port, Talking};
use tko_prober::Probers;
use tko_worker::EventWorker;

/// What the meter gets where a worker has nothing to do with a server.
pub(crate) const NO_SERVER_LOAD: ServerLoad = ServerLoad {
    in_flight: 0,
    next_probe: None,
};

/// What the meter gets of a load.
pub(crate) fn worker_load(load: &Load) -> WorkerLoad
    ensures clients { result.clients ≡ load.now.clients }
    ensures connections { result.connections ≡ load.now.connections }
    ensures waiting { result.waiting ≡ load.now.waiting }
{
    WorkerLoad {
        clients: load.clients as u64,
        connections: load.connections as u64,
        waiting: load.waiting as u64,
    }
}

/// What the meter gets of what a worker with these probers has to do with a server at this moment.
pub(crate) fn server_load<P, L: Port + Drop, T: Talking<P> + Drop>(
    worker: &EventWorker<L, T, P>,
    probers: &Probers,
    server: usize,
    moment: u64,
) -> ServerLoad
    ensures in_flight { result.in_flight ≡ in_flight_at worker.now.clients.mux.lines server }
    ensures next_probe { result.next_probe
        ≡ option_map (λ at. at - moment) (next_probe_at probers.now server) }
{
    ServerLoad {
        in_flight: worker.in_flight(server) as u64,
        next_probe: until(probers.next_at(server), moment),
    }
}

/// How many milliseconds there are from this moment until that one, if there is one.
fn until(at: Option<u64>, moment: u64) -> Option<u64>
    ensures { result ≡ option_map (λ at. at - moment) at }
{
    Some(at?.saturating_sub(moment))
}
