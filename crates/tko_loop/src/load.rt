//! How much a worker serves.
ghost use Rattle.std.specs.Prelude.{◌≡◌};
ghost use Rattle.tko_loop.specs.Loads.{IsLoadOf, clients_at};

use crate::walk::waiting_of;
use tko_port::{Port, Talking};
use tko_worker::{EventWorker, Worker};

/// How much a worker serves at a moment.
#[derive(Clone, Copy, Debug, PartialEq, Eq)]
pub struct Load {
    pub clients: usize,
    /// The connections to servers, made or being made.
    pub connections: usize,
    /// How many bytes of replies are held for its clients, of those that wait and of those under
    /// way; the greatest number means that many or more.
    pub waiting: usize,
}

impl Load {
    /// The load of a worker that serves nobody.
    pub fn none() -> Load {
        Load {
            clients: 0,
            connections: 0,
            waiting: 0,
        }
    }

    /// The load of this worker.
    pub(crate) fn of<P, L: Port + Drop, T: Talking<P> + Drop>(worker: &EventWorker<L, T, P>) -> Load
        ensures { IsLoadOf (T.awaited, T.talk, L.port) worker.now result }
    {
        let mut clients = 0usize;
        let mut waiting = 0usize;
        for number in 0..worker.clients.numbers() {
            clients += clients_at(&worker.clients, number);
            waiting = waiting.saturating_add(waiting_of(&worker.clients, number));
        }
        Load {
            clients,
            connections: worker.connections(),
            waiting,
        }
    }
}

/// 1 where a client has the number.
fn clients_at<P, L: Port + Drop, T: Talking<P> + Drop>(
    clients: &Worker<L, T, P>,
    number: usize,
) -> usize
    ensures { result ≡ clients_at clients.now.mux.roster.slots number }
{
    if clients.has_client(number) {
        return 1;
    }
    0
}
