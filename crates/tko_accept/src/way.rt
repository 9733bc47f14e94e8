//! How accepted clients are handed to the workers.

use crate::clients::AcceptedClient;
use crate::room::ClientPlace;
use crossbeam_channel::Sender;
use std::alloc::{AllocError, Global};
use std::net::{SocketAddr, TcpStream};
use std::sync::Wait;
use tko_threads::Patience;

/// How an accepted client is handed to a worker.
pub trait Way {
    ghost use Rattle.std.specs.Bool.{OnFalse};

    /// The form in which a worker receives a client.
    type Client: Drop;

    /// What holds once no worker takes clients any more.
    ghost is_closed: { Self → Type 0 };

    /// Makes the client of a connection from this address, whose socket was set up with these time
    /// limits.
    fn client(
        alloc: Global,
        stream: TcpStream,
        address: SocketAddr,
        place: ClientPlace,
        patience: Patience,
    ) -> Result<Self::Client, AllocError>;

    /// Hands a client to a worker, and returns whether a worker takes it. If no worker is left, the
    /// client's connection is closed.
    fn send<R: Wait>(&mut self, rt: &R, client: Self::Client) -> bool
        ensures closed { OnFalse result (is_closed self.new) };
}

/// One queue, from which each worker takes its next client.
#[derive(Drop)]
pub struct OneQueue {
    clients: Sender<AcceptedClient>,
}

impl OneQueue {
    /// The queue whose workers receive from this channel.
    pub fn new(clients: Sender<AcceptedClient>) -> OneQueue {
        OneQueue { clients }
    }
}

impl Way for OneQueue {
    type Client = AcceptedClient;

    ghost is_closed = { λ _. Unit {0} };

    fn client(
        alloc: Global,
        stream: TcpStream,
        address: SocketAddr,
        place: ClientPlace,
        patience: Patience,
    ) -> Result<AcceptedClient, AllocError> {
        AcceptedClient::new(alloc, stream, address, place, patience)
    }

    fn send<R: Wait>(&mut self, rt: &R, client: AcceptedClient) -> bool {
        self.clients.send(rt, client).is_ok()
    }
}
