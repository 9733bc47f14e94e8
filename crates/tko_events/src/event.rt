//! What the log tells.
ghost use Rattle.std.specs.Prelude.{◌≡◌, None, Some};
ghost use Rattle.tko_events.specs.Events.{cause_of, cause_of_outcome, change_after, change_in, marking_after, marking_in, reported_change};
ghost use Rattle.tko_events.specs.Lines.{cause_word, change_word, lack_word, reason_word};

use std::net::SocketAddr;
use tko_links::{ExchangeNoMemory, Outcome};
use tko_metrics::{Marking, Refusal};
use tko_model::Reply;
use tko_tcp::{Lack, LookUpEnd, Unresolved};

/// One event.
#[derive(Clone, Copy, Debug, PartialEq, Eq)]
pub struct LogEvent {
    /// In milliseconds since 1970; where there is none, the moment at which its line is written.
    pub moment: Option<u64>,
    pub what: What,
}

/// What happened.
#[derive(Clone, Copy, Debug, PartialEq, Eq)]
pub enum What {
    /// The program has read its configuration.
    Started,
    /// Clients can connect.
    Listening,
    /// This worker changed the mark of a server, or probed it. The cause is what came of the send
    /// or of the probe, and none where the worker ended.
    Server {
        server: usize,
        worker: u32,
        change: ServerChange,
        cause: Option<Cause>,
    },
    /// A connection to this server could not be made for what the proxy itself lacked.
    Lacking {
        server: usize,
        lack: Lack,
    },
    /// So many requests to this server timed out since that was last told, and it stays in use.
    Slow {
        server: usize,
        count: u64,
    },
    /// Something was refused for this so often since that was last told, the last time of the
    /// client at this address, where that is known.
    Refused {
        why: Refusal,
        count: u64,
        client: Option<SocketAddr>,
    },
    /// A look-up of this server's name ended otherwise than the one before it.
    LookedUp {
        server: usize,
        end: LookUpEnd,
    },
    /// How many sessions have ended, and how many of them by a fault.
    Clients {
        sessions: u64,
        faults: u64,
    },
    /// The last event.
    Ended,
}

/// What became of a server's mark, or that it was probed.
#[derive(Clone, Copy, Debug, PartialEq, Eq)]
pub enum ServerChange {
    MarkedSoft,
    MarkedHard,
    Hardened,
    Unmarked,
    Released,
    Probed,
}

/// What came of a send or of a probe.
#[derive(Clone, Copy, Debug, PartialEq, Eq)]
pub enum Cause {
    Reply,
    Timeout,
    Refused,
    Broken,
    Aborted,
    Spent,
    Memory,
}

impl What {
    /// What an attempt at a server changed, which came to this and to which the health replied so.
    pub fn of_attempt(server: usize, worker: u32, outcome: &Outcome, reply: Reply) -> Option<What>
        ensures { result ≡ reported_change server worker
            (Some (cause_of_outcome outcome.now)) reply }
    {
        let change = ServerChange::of(reply)?;
        Some(What::Server {
            server,
            worker,
            change,
            cause: Some(Cause::of_outcome(outcome)),
        })
    }

    /// A probe of a server, which came to this.
    pub fn of_probe(server: usize, worker: u32, came: &Result<Outcome, ExchangeNoMemory>) -> What
        ensures { result ≡ What.Server server worker ServerChange.Probed
            (Some (cause_of came.now)) }
    {
        What::Server {
            server,
            worker,
            change: ServerChange::Probed,
            cause: Some(Cause::of(came)),
        }
    }

    /// What a probe of a server changed, to which the health replied so, if it was told anything.
    pub fn after_probe(
        server: usize,
        worker: u32,
        came: &Result<Outcome, ExchangeNoMemory>,
        reply: Option<Reply>,
    ) -> Option<What>
        ensures { result ≡ change_after server worker (Some (cause_of came.now)) reply }
    {
        let change = ServerChange::of(reply?)?;
        Some(What::Server {
            server,
            worker,
            change,
            cause: Some(Cause::of(came)),
        })
    }

    /// What the release of a server changed, to which the health replied so.
    pub fn of_release(server: usize, worker: u32, reply: Reply) -> Option<What>
        ensures { result ≡ reported_change server worker None reply }
    {
        let change = ServerChange::of(reply)?;
        Some(What::Server {
            server,
            worker,
            change,
            cause: None,
        })
    }

    /// The server whose mark it changes, and the mark that its worker has there from then on.
    pub fn marking(self) -> Option<(usize, Marking)>
        ensures { result ≡ marking_in self }
    {
        match self {
            What::Server { server, change, .. } => Some((server, change.marking()?)),
            What::Started | What::Listening | What::Clients { .. } | What::Ended => None,
            What::Lacking { .. } | What::Slow { .. } => None,
            What::Refused { .. } | What::LookedUp { .. } => None,
        }
    }
}

impl ServerChange {
    /// The change that this reply reports, if it reports one.
    pub fn of(reply: Reply) -> Option<ServerChange>
        ensures { result ≡ change_in reply }
    {
        match reply {
            Reply::TookSoft => Some(ServerChange::MarkedSoft),
            Reply::TookHard => Some(ServerChange::MarkedHard),
            Reply::Hardened => Some(ServerChange::Hardened),
            Reply::Unmarked(_) => Some(ServerChange::Unmarked),
            Reply::Released(_) => Some(ServerChange::Released),
            Reply::Up(_) | Reply::Marked(_) | Reply::Counted(_) | Reply::Full => None,
            Reply::Already(_) | Reply::Worn | Reply::Contended => None,
            Reply::Clean | Reply::Reset(_) | Reply::NotMine(_) => None,
        }
    }

    /// The mark that its worker has on the server from then on; `None` leaves it as it was.
    pub fn marking(self) -> Option<Marking>
        ensures { result ≡ marking_after self }
    {
        match self {
            ServerChange::MarkedSoft => Some(Marking::Soft),
            ServerChange::MarkedHard | ServerChange::Hardened => Some(Marking::Hard),
            ServerChange::Unmarked | ServerChange::Released => Some(Marking::Up),
            ServerChange::Probed => None,
        }
    }

    /// The second word of its line.
    pub fn word(self) -> &'static str
        ensures { result.now ≡ change_word self }
    {
        match self {
            ServerChange::MarkedSoft | ServerChange::MarkedHard => "marked",
            ServerChange::Hardened => "hardened",
            ServerChange::Unmarked => "unmarked",
            ServerChange::Released => "released",
            ServerChange::Probed => "probed",
        }
    }
}

impl Cause {
    /// What came of a probe, without the response.
    pub fn of(came: &Result<Outcome, ExchangeNoMemory>) -> Cause
        ensures { result ≡ cause_of came.now }
    {
        match came {
            Ok(outcome) => Cause::of_outcome(outcome),
            Err(_) => Cause::Memory,
        }
    }

    /// What came of a send, without the response.
    pub fn of_outcome(outcome: &Outcome) -> Cause
        ensures { result ≡ cause_of_outcome outcome.now }
    {
        match outcome {
            Outcome::Reply(_) => Cause::Reply,
            Outcome::Timeout => Cause::Timeout,
            Outcome::Refused => Cause::Refused,
            Outcome::Broken => Cause::Broken,
            Outcome::Aborted => Cause::Aborted,
            Outcome::Spent => Cause::Spent,
        }
    }

    /// The word of a cause in a line, `none` where there is none.
    pub fn word(cause: Option<Cause>) -> &'static str
        ensures { result.now ≡ cause_word cause }
    {
        match cause {
            Some(Cause::Reply) => "reply",
            Some(Cause::Timeout) => "timeout",
            Some(Cause::Refused) => "refused",
            Some(Cause::Broken) => "broken",
            Some(Cause::Aborted) => "aborted",
            Some(Cause::Spent) => "spent",
            Some(Cause::Memory) => "memory",
            None => "none",
        }
    }
}

/// What was lacking, as the second word of its line.
pub(crate) fn lack_word(lack: Lack) -> &'static str
    ensures { result.now ≡ lack_word lack }
{
    match lack {
        Lack::Ports => "ports",
        Lack::Descriptors => "descriptors",
        Lack::Memory => "memory",
    }
}

/// The word of a reason for which a look-up found no address.
pub(crate) fn reason_word(reason: Unresolved) -> &'static str
    ensures { result.now ≡ reason_word reason }
{
    match reason {
        Unresolved::Unknown => "unknown",
        Unresolved::NoAddress => "no_address",
        Unresolved::NoAnswer => "no_answer",
        Unresolved::Lacking(lack) => lack_word(lack),
        Unresolved::Failed => "failed",
    }
}
