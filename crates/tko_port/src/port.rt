//! A socket that does not wait.

use std::net::SocketAddr;

/// What a read gave.
#[derive(Clone, Copy, Debug, PartialEq, Eq)]
pub enum Read {
    /// So many bytes, at the front of the buffer.
    Bytes(usize),
    /// Nothing is there.
    Nothing,
    /// The other side ended it.
    Ended,
    /// The connection failed.
    Fault,
}

/// A socket that does not wait. An event makes it readable or writable, and only a call that found
/// nothing to do, or took less than it could, ends that.
pub trait Port {
    ghost use Rattle.std.specs.Prelude.{◌≡◌, ◌<◌, ℕ, true, length};
    ghost use Rattle.tko_port.specs.Ports.{PortState, ReadGives, WriteGives, now_readable, now_writable};

    ghost port: { Self → PortState };

    fn is_readable(&self) -> bool
        ensures { result ≡ (port self.now).readable };

    fn is_writable(&self) -> bool
        ensures { result ≡ (port self.now).writable };

    /// An event said that it is readable.
    fn set_readable(&mut self)
        ensures { port self.new ≡ now_readable (port self.old) };

    /// An event said that it is writable.
    fn set_writable(&mut self)
        ensures { port self.new ≡ now_writable (port self.old) };

    /// An event said that the other side sends no more. From then on a read that did not fill the
    /// buffer leaves it readable, so that the end is read too.
    fn set_ended(&mut self)
        ensures { port self.new ≡ now_readable (port self.old) };

    /// Reads what is there, as far as the buffer has room.
    fn read(&mut self, buffer: &mut [u8]) -> Read
        requires readable { (port self.old).readable ≡ true }
        requires room { 0 < length buffer.old }
        ensures { ReadGives (port self.old) buffer.new result (port self.new) };

    /// Writes from the front of a text. `None` says that the connection failed.
    fn write(&mut self, text: &[u8]) -> Option<usize>
        requires { (port self.old).writable ≡ true }
        ensures { WriteGives (port self.old) text.now result (port self.new) };

    /// Whether the other side was found to speak the binary protocol: then none of its bytes was
    /// given, and a read said that it had ended.
    fn is_binary(&self) -> bool {
        false
    }

    /// The address of the other side, where the system tells it.
    fn remote(&self) -> Option<SocketAddr> {
        None
    }
}
