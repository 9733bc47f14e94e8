//! What a session and its rounds tell: it records each request and each trail, and may log and
//! count each attempt and each probe as it ends.
ghost use Rattle.std.specs.Prelude.{◌≡◌, [], IsOk, OnErr, OnOk};
ghost use Rattle.tko_reply.specs.TrailEvents.{Asked, Tried};

use std::alloc::Global;
use std::marker::Model;
use std::net::SocketAddr;
use std::time::Instant;
use tko_bytes::NoMemory;
use tko_io::IoRuntime;
use tko_links::{ExchangeNoMemory, Outcome};
use tko_prober::ProbeEnd;
use tko_route::{Attempt, Trail};
use tko_text::{Request, TextFault};

/// Records each item that isn't a fault, and then the trail of each of its keys. Where memory runs
/// out, nothing is recorded. What else it is told changes nothing that contracts see.
pub trait Trails {
    ghost use Rattle.tko_reply.specs.TrailEvents.{TrailEvent};

    /// Between the two it recorded this.
    ghost records: { Self → TrailEvent → Self → Type 0 };

    fn request<R: IoRuntime>(&mut self, rt: &R, request: &Request) -> Result<(), NoMemory>
        ensures ok { OnOk result (records self.old (Asked request.now) self.new) }
        ensures err { OnErr result (self.new ≡ self.old) };

    fn trail<R: IoRuntime>(&mut self, rt: &R, trail: Trail) -> Result<(), NoMemory>
        ensures ok { OnOk result (records self.old (Tried trail) self.new) }
        ensures err { OnErr result (self.new ≡ self.old) };

    /// An attempt at a server has ended. Each is told once, in order, before its trail, and also
    /// where its request is dropped and its trail is not recorded. An attempt that several keys
    /// share, since one request asked for all of them, is told once, for the first of them.
    fn attempt<R: IoRuntime>(&mut self, _rt: &R, _attempt: &Attempt)
        ensures { self.new ≡ self.old }
    {}

    /// A request was sent to this server or could not be, and it was sent to so often.
    fn sent(&mut self, _server: usize, _sends: u64)
        ensures { self.new ≡ self.old }
    {}

    /// A probe has ended.
    fn probed<R: IoRuntime>(&mut self, _rt: &R, _probe: &ProbeEnd)
        ensures { self.new ≡ self.old }
    {}

    /// A line of the client at this address, where it is known, was refused for this fault, and
    /// answered so.
    fn refused<R: IoRuntime>(&mut self, _rt: &R, _fault: TextFault, _client: Option<SocketAddr>)
        ensures { self.new ≡ self.old }
    {}

    /// The moment at which the worker looks, in microseconds of a clock of its own: what is timed
    /// is the difference of two. `None` where nothing is timed.
    fn now(&self) -> Option<u64> {
        None
    }

    /// A server gave a response to what was sent to it at this moment.
    fn responded(&mut self, _server: usize, _sent: u64)
        ensures { self.new ≡ self.old }
    {}

    /// An exchange with this server ended so, which began at this instant, if that is known. Only
    /// a worker that waits for each response tells it; the others tell `responded`.
    fn exchanged(
        &mut self,
        _server: usize,
        _begun: Option<Instant>,
        _came: &Result<Outcome, ExchangeNoMemory>,
    )
        ensures { self.new ≡ self.old }
    {}

    /// A request that was read at this moment was answered wholly.
    fn replied(&mut self, _read: u64)
        ensures { self.new ≡ self.old }
    {}
}

/// The trails, in order.
#[derive(Drop)]
pub struct Kept {
    trails: Vec<Trail>,
}

impl Model for Kept {
    ghost use Rattle.std.specs.Prelude.{List};
    ghost use Rattle.tko_route.specs.declared.attempt.Attempt.{Attempt};

    ghost Value = { List (List Attempt) };

    ghost view = { λ k. k.trails.items };
}

impl Kept {
    pub fn new(alloc: Global) -> Kept
        ensures { result ≡ [] }
    {
        Kept {
            trails: Vec::new(alloc),
        }
    }

    pub fn trails(&self) -> &[Trail]
        ensures { result.now ≡ self.now }
    {
        self.trails.as_slice()
    }
}

impl Trails for Kept {
    ghost use Rattle.tko_reply.specs.TrailEvents.{Keeps};

    ghost records = { Keeps };

    /// Requests are not kept, so it takes no memory.
    fn request<R: IoRuntime>(&mut self, _rt: &R, _request: &Request) -> Result<(), NoMemory>
        ensures recorded { OnOk result (Keeps self.old (Asked _request.now) self.new) }
        ensures ok { IsOk result }
    {
        Ok(())
    }

    fn trail<R: IoRuntime>(&mut self, _rt: &R, trail: Trail) -> Result<(), NoMemory> {
        self.trails.push(trail)?;
        Ok(())
    }
}
