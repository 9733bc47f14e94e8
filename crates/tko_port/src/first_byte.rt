//! The first byte of a client's connection, by which its protocol is told.
ghost use Rattle.std.specs.Prelude.{◌≡◌, List, not, ℕ};
ghost use Rattle.tko_port.specs.FirstBytes.{IsTextGiven, first_after, first_of, given_after, is_binary, is_magic};

/// A request of the binary protocol begins with the first, and a response with the second.
const REQUEST_MAGIC: u8 = 0x80;

const RESPONSE_MAGIC: u8 = 0x81;

/// What is known of the first byte of a connection. Of one whose first byte is of the binary
/// protocol nothing is given on.
#[derive(Clone, Copy, Debug, PartialEq, Eq)]
pub enum FirstByte {
    /// It does not matter.
    Any,
    /// It has not come.
    Awaited,
    /// It came, and is not of the binary protocol.
    Text,
    /// It is of the binary protocol.
    Binary,
}

impl FirstByte {
    /// The next piece of the connection came. Returns whether it is to be given on.
    pub fn look(&mut self, piece: &[u8]) -> bool
        ensures after { self.new ≡ first_after self.old piece.now }
        ensures result { result ≡ not (is_binary self.new) }
        ensures given { (given : List ℕ) → IsTextGiven self.old given
            → IsTextGiven self.new (given_after self.new given piece.now) }
    {
        if matches!(self, FirstByte::Awaited) {
            *self = first_of(piece);
        }
        !self.is_binary()
    }

    /// Whether it is of the binary protocol.
    pub fn is_binary(&self) -> bool
        ensures { result ≡ is_binary self.now }
    {
        matches!(self, FirstByte::Binary)
    }
}

/// What is known of the first byte once this is what came of a connection.
fn first_of(came: &[u8]) -> FirstByte
    ensures { result ≡ first_of came.now }
{
    match came {
        [] => FirstByte::Awaited,
        [byte, ..] if is_magic(*byte) => FirstByte::Binary,
        _ => FirstByte::Text,
    }
}

/// Whether a message of the binary protocol begins with this byte.
fn is_magic(byte: u8) -> bool
    ensures { result ≡ is_magic byte }
{
    byte == REQUEST_MAGIC || byte == RESPONSE_MAGIC
}
