//! The connections to the servers: what is read, written and shut there.
ghost use Rattle.std.specs.Prelude.{◌≡◌, ◌<◌, ◌≤◌, Some, IfSome, IsSome, length, option_copied, take};
ghost use Rattle.tko_pipe.specs.Ends.{ExpireEnds, GotEnds};
ghost use Rattle.tko_pipe.specs.Pipes.{IsCause, IsConnected, IsShut, IsWritten, PipeState, shutting};
ghost use Rattle.tko_mux.specs.Lines.{IsOnLive, IsOnPipe, link_on, unwritten_on};
ghost use Rattle.tko_mux.specs.Linking.{AreLinked};
ghost use Rattle.tko_mux.specs.Muxes.{MayShut, OneLineChanges, line_at};

use crate::{Asking, Line, Mux};
use tko_pipe::{Link, ShutCause};

impl<P, S: Asking<P> + Drop> Mux<S, P> {
    /// How many servers there are.
    pub fn servers(&self) -> usize
        ensures { result ≡ length self.now.lines }
    {
        self.lines.len()
    }

    /// The connections to a server.
    pub fn line(&self, server: usize) -> Option<&Line>
        ensures { option_copied result ≡ line_at self.now server }
    {
        self.lines.get(server)
    }

    /// The connection to a server was made.
    pub fn connected(&mut self, server: usize)
        requires server { server < length self.old.lines }
        requires connecting { IfSome (line_at self.old server)
            (λ line. link_on line.pipe ≡ Some Link.Connecting) }
        requires linked { AreLinked S.awaited self.old.roster.slots self.old.lines }
        ensures connected { OneLineChanges (λ was it. IsOnLive IsConnected was it)
            self.old server self.new }
        ensures linked { AreLinked S.awaited self.new.roster.slots self.new.lines }
    {
        self.lines[server].connected();
    }

    /// So many bytes of what is to be written to a server were written.
    pub fn wrote(&mut self, server: usize, count: usize)
        requires server { server < length self.old.lines }
        requires connected { IfSome (line_at self.old server)
            (λ line. link_on line.pipe ≡ Some Link.Connected) }
        requires within { IfSome (line_at self.old server)
            (λ line. count ≤ length (unwritten_on line.pipe)) }
        requires linked { AreLinked S.awaited self.old.roster.slots self.old.lines }
        ensures wrote { OneLineChanges (λ was it. IsOnLive
            (λ p q. IsWritten p (take count p.unwritten) q) was it)
            self.old server self.new }
        ensures linked { AreLinked S.awaited self.new.roster.slots self.new.lines }
    {
        self.lines[server].wrote(count);
    }

    /// These bytes were read from a server, at this moment.
    pub fn got(&mut self, server: usize, now: u64, bytes: &[u8]) -> Result<(), ShutCause>
        requires may_shut { MayShut self.old server }
        requires connected { IfSome (line_at self.old server)
            (λ line. link_on line.pipe ≡ Some Link.Connected) }
        requires some { 0 < length bytes.now }
        requires linked { AreLinked S.awaited self.old.roster.slots self.old.lines }
        ensures got { OneLineChanges (λ was it. IsOnPipe
            (λ p q. GotEnds p bytes.now now result q) was it) self.old server self.new }
        ensures linked { AreLinked S.awaited self.new.roster.slots self.new.lines }
    {
        self.lines[server].got(now, bytes)
    }

    /// Shuts the connection to a server if the first response is late at this moment.
    pub fn expire(&mut self, server: usize, now: u64) -> Option<ShutCause>
        requires may_shut { MayShut self.old server }
        requires pipe { IfSome (line_at self.old server) (λ line. IsSome line.pipe) }
        requires linked { AreLinked S.awaited self.old.roster.slots self.old.lines }
        ensures expired { OneLineChanges
            (λ was it. IsOnPipe (λ p q. ExpireEnds p now result q) was it)
            self.old server self.new }
        ensures linked { AreLinked S.awaited self.new.roster.slots self.new.lines }
    {
        self.lines[server].expire(now)
    }

    /// Gives up the connection to a server for this cause.
    pub fn shut(&mut self, server: usize, cause: ShutCause)
        requires may_shut { MayShut self.old server }
        requires pipe { IfSome (line_at self.old server) (λ line. IsSome line.pipe) }
        requires cause { IfSome (line_at self.old server)
            (λ line. (pipe : PipeState) → line.pipe ≡ Some pipe → IsCause pipe cause) }
        requires linked { AreLinked S.awaited self.old.roster.slots self.old.lines }
        ensures shut { OneLineChanges
            (λ was it. IsOnPipe (λ p q. IsShut p (shutting p cause) q) was it)
            self.old server self.new }
        ensures linked { AreLinked S.awaited self.new.roster.slots self.new.lines }
    {
        self.lines[server].shut(cause);
    }
}
