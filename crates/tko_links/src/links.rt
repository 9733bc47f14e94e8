//! What links to the servers do, whatever connects them.
ghost use Rattle.std.specs.Prelude.{◌≡◌, ◌+◌, ◌<◌, ◌↔◌, ℕ};
ghost use Rattle.tko_links.specs.Links.{HasExchanged, WasProbed, is_counted, most_sends, part_of};

use std::time::Instant;
use tko_io::IoRuntime;
use tko_model::{Clear, Duty};
use tko_text::{Request, Response};

/// What came of a request or of a probe. Each counts as a send or a probe but `Spent`, for which
/// nothing was sent; where it was `Refused` no byte of it was.
#[derive(Debug, Drop)]
pub enum Outcome {
    /// A whole response, a server's own error among them.
    Reply(Response),
    /// A read or a write took too long.
    Timeout,
    /// The server could not be reached.
    Refused,
    /// The response was cut or unreadable, or the connection failed.
    Broken,
    /// The connection failed while the answer to another request was awaited. Only links that keep
    /// several requests under way on one connection give it.
    Aborted,
    /// The server's count of sends, or of probes, is used up, and nothing was sent.
    Spent,
}

/// No memory was there for an exchange. It says whether the server's count of sends, or of probes,
/// rose.
#[derive(Clone, Copy, Debug, PartialEq, Eq)]
pub struct ExchangeNoMemory {
    pub sent: bool,
}

/// The connections to the servers. Each send and each probe that is counted is one item of a record
/// that contracts see: the server, the request that was sent, and the outcome, or none where memory
/// ran out.
pub trait Links {
    ghost use Rattle.std.specs.Prelude.{ℕ};
    ghost use Rattle.tko_links.specs.Links.{LinksItem};

    /// How many servers there are.
    ghost servers: { Self → ℕ };

    /// How often each server was sent to.
    ghost sent: { Self → ℕ → ℕ };

    /// How often each server was probed.
    ghost probed: { Self → ℕ → ℕ };

    /// From one state to the next, this was exchanged.
    ghost exchanges: { Self → LinksItem → Self → Type 0 };

    /// Sends a request to the server that the permission names, and waits for what comes of it.
    fn exchange<R: IoRuntime>(
        &mut self,
        rt: &R,
        clear: Clear,
        request: &Request,
    ) -> Result<Outcome, ExchangeNoMemory>
        requires { clear < servers self.old }
        ensures record { HasExchanged exchanges self.old clear request.now result self.new }
        ensures spent { (result ≡ Ok Outcome.Spent) ↔ (sent self.old clear ≡ most_sends) }
        ensures sends { (server : ℕ) → sent self.new server
            ≡ sent self.old server + part_of (is_counted result) clear server }
        ensures probes { (server : ℕ) → probed self.new server ≡ probed self.old server }
        ensures servers { servers self.new ≡ servers self.old };

    /// Asks the server that the right names for its version, and waits for what comes of it.
    fn probe<R: IoRuntime>(&mut self, rt: &R, duty: Duty) -> Result<Outcome, ExchangeNoMemory>
        requires { duty < servers self.old }
        ensures record { WasProbed exchanges self.old duty result self.new }
        ensures spent { (result ≡ Ok Outcome.Spent) ↔ (probed self.old duty ≡ most_sends) }
        ensures probes { (server : ℕ) → probed self.new server
            ≡ probed self.old server + part_of (is_counted result) duty server }
        ensures sends { (server : ℕ) → sent self.new server ≡ sent self.old server }
        ensures servers { servers self.new ≡ servers self.old };

    /// How often a server was sent to.
    fn sends(&self, server: usize) -> u64
        requires { server < servers self.now }
        ensures { result ≡ sent self.now server };

    /// How often a server was probed.
    fn probes(&self, server: usize) -> u64
        requires { server < servers self.now }
        ensures { result ≡ probed self.now server };

    /// When the last exchange with a server began, if the links know it: for what is timed. No
    /// contract speaks of it.
    fn begun(&self, _server: usize) -> Option<Instant> {
        None
    }
}
