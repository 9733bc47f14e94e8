//! What came when a server was asked for its version.
ghost use Rattle.std.specs.Prelude.{◌≡◌, IfOk};
ghost use Rattle.std.specs.List.{list_all};
ghost use Rattle.tko_reach.specs.Asking.{IsHeard, reach_cut, reach_unconnected};
ghost use Rattle.tko_reach.specs.Kinds.{has_version, is_of_kind, reach_word};

use std::alloc::Global;
use tko_bytes::NoMemory;
use tko_links::WireFault;
use tko_text::{ReadFault, Request, Response, Text};

/// What came when a server was asked for its version.
#[derive(Debug, Drop)]
pub enum Reach {
    /// Its version.
    Version(Text),
    /// Another answer: what came up to the end of its first line, and maybe more.
    Answer(Vec<u8>),
    /// No connection could be made.
    Refused,
    /// The time limit passed, while it was connected or after that.
    Timeout,
    /// The connection failed or ended before there was an answer.
    Broken,
}

/// What came, without the bytes of an answer.
#[derive(Clone, Copy, Debug, PartialEq, Eq)]
pub(crate) enum ReachKind {
    Version,
    Answer,
    Refused,
    Timeout,
    Broken,
}

impl ReachKind {
    pub(crate) const ALL: [ReachKind; 5] = [
        ReachKind::Version,
        ReachKind::Answer,
        ReachKind::Refused,
        ReachKind::Timeout,
        ReachKind::Broken,
    ];

    /// The word that is printed for it.
    pub(crate) fn word(self) -> &'static str
        ensures { result.now ≡ reach_word self }
    {
        match self {
            ReachKind::Version => "version",
            ReachKind::Answer => "answer",
            ReachKind::Refused => "refused",
            ReachKind::Timeout => "timeout",
            ReachKind::Broken => "broken",
        }
    }
}

/// A server, and what came when it was asked.
#[derive(Debug, Drop)]
pub struct Reached {
    pub number: usize,
    pub address: String,
    pub reach: Reach,
}

impl Reach {
    /// What came where no connection could be made.
    pub(crate) fn unconnected(fault: WireFault) -> Reach
        ensures { result ≡ reach_unconnected fault }
    {
        match fault {
            WireFault::TimedOut => Reach::Timeout,
            WireFault::Other => Reach::Refused,
        }
    }

    /// What came where the connection failed.
    pub(crate) fn cut(fault: WireFault) -> Reach
        ensures { result ≡ reach_cut fault }
    {
        match fault {
            WireFault::TimedOut => Reach::Timeout,
            WireFault::Other => Reach::Broken,
        }
    }

    /// What the bytes of an answer say; nothing as long as they are the beginning of one.
    pub(crate) fn heard(alloc: Global, bytes: &[u8]) -> Result<Option<Reach>, NoMemory>
        ensures { IfOk result (IsHeard bytes.now) }
    {
        match Response::read(alloc, &Request::Version, bytes) {
            Ok((Response::Version(text), _)) => Ok(Some(Reach::Version(text))),
            Err(ReadFault::Short) => Ok(None),
            Err(ReadFault::Memory) => Err(NoMemory),
            Ok(_) | Err(ReadFault::Unreadable) => {
                Ok(Some(Reach::Answer(Vec::from_slice(alloc, bytes)?)))
            }
        }
    }

    /// Whether it is of this kind.
    pub(crate) fn is(&self, kind: ReachKind) -> bool
        ensures { result ≡ is_of_kind kind self.now }
    {
        matches!(
            (self, kind),
            (Reach::Version(_), ReachKind::Version)
                | (Reach::Answer(_), ReachKind::Answer)
                | (Reach::Refused, ReachKind::Refused)
                | (Reach::Timeout, ReachKind::Timeout)
                | (Reach::Broken, ReachKind::Broken)
        )
    }
}

/// Whether each of the servers gave its version.
pub fn gave_versions(servers: &[Reached]) -> bool
    ensures { result ≡ list_all has_version servers.now }
{
    servers
        .iter()
        .all(|server| server.reach.is(ReachKind::Version))
}
