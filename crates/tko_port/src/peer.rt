//! A server as its worker has it, beside the connection itself.
ghost use Rattle.std.specs.Prelude.{◌≡◌, ◌≢◌, None, Some, Ok, option_copied, option_map};
ghost use Rattle.std.specs.Bool.{OnFalse, OnTrue};
ghost use Rattle.tko_port.specs.Guests.{noting};
ghost use Rattle.tko_port.specs.Peers.{delivery_in, probed_after, probed_after_delivery};

use crate::{ClientEvent, Port, Turned};
use tko_mux::{Came, Delivery};
use tko_pipe::ShutCause;

/// A server as its worker has it: the socket of the connection to it, if there is one, and what
/// came for a probe of it.
#[derive(Drop)]
pub struct Peer<L> {
    pub socket: Option<L>,
    pub probed: Option<Came>,
}

impl<L: Drop> Peer<L> {
    /// There is no connection.
    pub fn new() -> Peer<L>
        ensures { result.socket ≡ None }
    {
        Peer {
            socket: None,
            probed: None,
        }
    }

    /// Keeps what came, if it came for a probe.
    pub fn keep(&mut self, delivery: Delivery<Turned>)
        ensures probed { self.new.probed ≡ probed_after delivery self.old.probed }
        ensures socket { self.new.socket ≡ self.old.socket }
    {
        match delivery {
            Delivery::Reached(_, _) | Delivery::Dropped(_) => {}
            Delivery::Probed(came) => self.probed = Some(came),
        }
    }

    /// The same of what a look for a response gave. Returns whether one came, or the connection was
    /// shut.
    pub fn keep_taken(&mut self, taken: Result<Option<Delivery<Turned>>, ShutCause>) -> bool
        ensures none { OnFalse result (taken ≡ Ok None) }
        ensures probed { self.new.probed
            ≡ probed_after_delivery (delivery_in taken) self.old.probed }
        ensures socket { self.new.socket ≡ self.old.socket }
    {
        match taken {
            Ok(Some(delivery)) => {
                self.keep(delivery);
                true
            }
            Ok(None) => false,
            Err(_) => true,
        }
    }

    /// The socket, if there is one.
    pub fn socket(&self) -> Option<&L>
        ensures { option_copied result ≡ self.now.socket }
    {
        self.socket.as_ref()
    }

    /// Closes the socket, unless its connection is still there.
    pub fn hold(&mut self, is_there: bool)
        ensures kept { OnTrue is_there (self.new ≡ self.old) }
        ensures gone { OnFalse is_there (self.new.socket ≡ None) }
    {
        if !is_there {
            self.socket = None;
        }
    }
}

impl<L: Port + Drop> Peer<L> {
    /// Whether there is no socket.
    pub fn is_closed(&self) -> bool
        ensures none { OnTrue result (option_map L.port self.now.socket ≡ None) }
        ensures some { OnFalse result (option_map L.port self.now.socket ≢ None) }
    {
        match &self.socket {
            Some(_) => false,
            None => true,
        }
    }

    /// A connection was begun on this socket.
    pub fn begin(&mut self, port: L)
        ensures { option_map L.port self.new.socket ≡ Some (L.port port) }
    {
        self.socket = Some(port);
    }

    /// An event came for the socket.
    pub fn note(&mut self, event: ClientEvent)
        ensures { option_map L.port self.new.socket
            ≡ option_map (noting event) (option_map L.port self.old.socket) }
    {
        if let Some(port) = &mut self.socket {
            note_at(port, event);
        }
    }

    /// What came for a probe.
    pub fn take_probed(&mut self) -> Option<Came>
        ensures socket { self.new.socket ≡ self.old.socket }
        ensures came { result ≡ self.old.probed }
        ensures none { self.new.probed ≡ None }
    {
        self.probed.take()
    }
}

/// Notes an event at a port.
fn note_at<L: Port>(port: &mut L, event: ClientEvent)
    ensures { L.port port.new ≡ noting event (L.port port.old) }
{
    match event {
        ClientEvent::Readable => port.set_readable(),
        ClientEvent::Writable => port.set_writable(),
        ClientEvent::Ended => port.set_ended(),
        ClientEvent::Leave(_) => {}
        ClientEvent::Serve => {}
    }
}
