//! The connections to the servers, one each, and their bytes.
ghost use Rattle.std.specs.Prelude.{◌≡◌, ◌+◌, ◌<◌, ◌≤◌, true, false, IfOk, length};
ghost use Rattle.tko_links.specs.Wires.{AllSame, MayConnect, MayRead, MayWrite, OthersSame, Checked, Limited, Shut, connect_item, wire_faults_in, is_ok, read_item, wire_refusals_in, write_item};

use std::time::Instant;
use tko_io::IoRuntime;

/// Why a call on a connection failed.
#[derive(Clone, Copy, Debug, PartialEq, Eq)]
pub enum WireFault {
    /// The exchange took too long.
    TimedOut,
    Other,
}

/// The connections to the servers, at most one each. Each call is one item of a record that
/// contracts see. A connection is there from a `connect` that returns Ok until `shut`, whatever
/// failed on it meanwhile.
pub trait Wire {
    ghost use Rattle.std.specs.Prelude.{Bool, ℕ};
    ghost use Rattle.tko_links.specs.Wires.{WireItem};

    /// How many servers there are.
    ghost servers: { Self → ℕ };

    /// Whether a server is connected.
    ghost is_connected: { Self → ℕ → Bool };

    /// How often a call failed.
    ghost failures: { Self → ℕ };

    /// From one state to the next, this call was made.
    ghost steps: { Self → WireItem → Self → Type 0 };

    /// Connects a server.
    fn connect<R: IoRuntime>(&mut self, rt: &R, server: usize) -> Result<(), WireFault>
        requires may { MayConnect servers is_connected self.old server }
        ensures record { steps self.old (connect_item server result) self.new }
        ensures connected { is_connected self.new server ≡ is_ok result }
        ensures others { OthersSame server (is_connected self.old) (is_connected self.new) }
        ensures failures { failures self.new ≡ failures self.old + wire_faults_in result }
        ensures servers { servers self.new ≡ servers self.old };

    /// Takes bytes from the front of the piece, and returns how many. To take none of a piece that
    /// isn't empty is a failure too.
    fn write<R: IoRuntime>(
        &mut self,
        rt: &R,
        server: usize,
        bytes: &[u8],
    ) -> Result<usize, WireFault>
        requires may { MayWrite servers is_connected self.old server }
        ensures count { IfOk result (λ count. count ≤ length bytes.now) }
        ensures record { steps self.old (write_item server bytes.now result) self.new }
        ensures kept { AllSame (is_connected self.old) (is_connected self.new) }
        ensures failures { failures self.new
            ≡ failures self.old + wire_refusals_in bytes.now result }
        ensures servers { servers self.new ≡ servers self.old };

    /// Puts the next bytes at the front of the buffer, and returns how many. 0 is the end of input.
    fn read<R: IoRuntime>(
        &mut self,
        rt: &R,
        server: usize,
        buffer: &mut [u8],
    ) -> Result<usize, WireFault>
        requires may { MayRead servers is_connected self.old server buffer.old }
        ensures count { IfOk result (λ count. count ≤ length buffer.new) }
        ensures record { steps self.old (read_item server buffer.new result) self.new }
        ensures kept { AllSame (is_connected self.old) (is_connected self.new) }
        ensures failures { failures self.new ≡ failures self.old + wire_faults_in result }
        ensures servers { servers self.new ≡ servers self.old };

    /// Gives up the connection, and what has come on it.
    fn shut(&mut self, server: usize)
        requires { server < servers self.old }
        ensures record { steps self.old (Shut server) self.new }
        ensures connected { is_connected self.new server ≡ false }
        ensures others { OthersSame server (is_connected self.old) (is_connected self.new) }
        ensures failures { failures self.new ≡ failures self.old }
        ensures servers { servers self.new ≡ servers self.old };

    /// Begins an exchange, whose time starts: whether the connection can still be used. It can't
    /// where the server has closed it, or bytes came that nobody asked for.
    fn is_usable<R: IoRuntime>(&mut self, rt: &R, server: usize) -> bool
        requires within { server < servers self.old }
        requires connected { is_connected self.old server ≡ true }
        ensures record { steps self.old (Checked server result) self.new }
        ensures kept { AllSame (is_connected self.old) (is_connected self.new) }
        ensures failures { failures self.new ≡ failures self.old }
        ensures servers { servers self.new ≡ servers self.old };

    /// The next exchange is a probe of this server, or the probe of it has ended. A probe may have
    /// a shorter time limit than other exchanges.
    fn set_probing<R: IoRuntime>(&mut self, rt: &R, server: usize, is_probe: bool)
        requires { server < servers self.old }
        ensures record { steps self.old (Limited server is_probe) self.new }
        ensures kept { AllSame (is_connected self.old) (is_connected self.new) }
        ensures failures { failures self.new ≡ failures self.old }
        ensures servers { servers self.new ≡ servers self.old };

    /// Whether a server is connected.
    fn is_connected(&self, server: usize) -> bool
        requires { server < servers self.now }
        ensures { result ≡ is_connected self.now server };

    fn servers(&self) -> usize
        ensures { result ≡ servers self.now };

    /// When the last exchange with a server began, if the wire knows it. No contract speaks of it.
    fn begun(&self, _server: usize) -> Option<Instant> {
        None
    }
}
