//! A client's socket, with what is kept for it.
ghost use Rattle.std.specs.Prelude.{◌≡◌};
ghost use Rattle.tko_socket.specs.Sockets.{port_of};
ghost use Rattle.tko_loop.specs.Held.{held_port};

use std::net::SocketAddr;
use tko_port::{Port, Read};
use tko_socket::{Connecting, Socket};

/// A socket, and what is kept until it is closed.
#[derive(Drop)]
pub struct Held<K> {
    socket: Socket,
    ticket: Option<K>,
}

impl<K> Held<K> {
    /// The socket of a client.
    pub(crate) fn client(socket: Socket, ticket: K) -> Held<K>
        ensures { held_port result ≡ port_of socket }
    {
        Held {
            socket,
            ticket: Some(ticket),
        }
    }

    /// The socket of a connection to a server.
    pub(crate) fn server(socket: Socket) -> Held<K>
        ensures { held_port result ≡ port_of socket }
    {
        Held {
            socket,
            ticket: None,
        }
    }

    /// How far the connection is, after an event.
    pub(crate) fn connecting(&self) -> Connecting {
        self.socket.connecting()
    }
}

impl<K> Port for Held<K> {
    ghost use Rattle.tko_loop.specs.Held.{held_port};

    ghost port = { held_port };

    fn is_readable(&self) -> bool {
        self.socket.is_readable()
    }

    fn is_writable(&self) -> bool {
        self.socket.is_writable()
    }

    fn set_readable(&mut self) {
        self.socket.set_readable();
    }

    fn set_writable(&mut self) {
        self.socket.set_writable();
    }

    fn set_ended(&mut self) {
        self.socket.set_ended();
    }

    fn read(&mut self, buffer: &mut [u8]) -> Read {
        self.socket.read(buffer)
    }

    fn write(&mut self, text: &[u8]) -> Option<usize> {
        self.socket.write(text)
    }

    fn is_binary(&self) -> bool {
        self.socket.is_binary()
    }

    fn remote(&self) -> Option<SocketAddr> {
        self.socket.remote()
    }
}
