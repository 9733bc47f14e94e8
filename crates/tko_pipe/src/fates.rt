//! Why a connection was shut, and what that makes of the requests whose responses had not come.
ghost use Rattle.std.specs.Prelude.{◌≡◌, Some, None};
ghost use Rattle.tko_pipe.specs.Fates.{fate_for, fates, fates_of, fates_left, memory_fates, next_fate};

use crate::{Asker, Link};

/// Why a connection was shut.
#[derive(Clone, Copy, Debug, PartialEq, Eq)]
pub enum ShutCause {
    /// The server ended it.
    EndOfInput,
    /// Connecting, or a read or a write, failed.
    Fault,
    /// At this moment the first response was late, and no byte had come for the whole time limit.
    Silent(u64),
    /// At this moment the first response was late, and bytes had come within the time limit, but
    /// too few.
    Late(u64),
    /// What came is no response to the first request.
    Unreadable,
    /// Bytes came that nobody asked for.
    Unasked,
    /// Memory ran out for the connection.
    Memory,
    /// The proxy itself lacked what a connection takes of the system, such as a port or a
    /// descriptor.
    Lacking,
}

/// What became of a request whose connection was shut before its response came.
#[derive(Clone, Copy, Debug, PartialEq, Eq)]
pub enum Fate {
    /// The connection was never made.
    Refused,
    /// The response is late.
    Timeout,
    /// The server or the connection failed at this request.
    Broken,
    /// The connection was shut for what happened to another request, or for what the proxy itself
    /// lacked. It says nothing about the server.
    Aborted,
    /// Memory ran out while this response was read.
    Memory,
}

/// What becomes of the requests that a connection leaves.
#[derive(Clone, Copy, Debug, PartialEq, Eq)]
pub struct Fates {
    /// That of the first of them that did not give up, until it was handed out.
    pub first: Option<Fate>,
    /// That of each that follows it.
    pub behind: Fate,
}

impl Fates {
    /// The first request has the one fate, and those that follow it the other.
    fn new(first: Fate, behind: Fate) -> Fates
        ensures { result ≡ fates first behind }
    {
        Fates {
            first: Some(first),
            behind,
        }
    }

    /// The table: a connection that was this far, whose first asker gave up or is there, is shut
    /// for this cause.
    pub fn of(link: Link, is_first_gone: bool, cause: ShutCause) -> Fates
        ensures { result ≡ fates_of link is_first_gone cause }
    {
        match (link, cause) {
            (_, ShutCause::Memory) => Fates::of_memory(is_first_gone),
            (_, ShutCause::Lacking) => Fates::new(Fate::Aborted, Fate::Aborted),
            (Link::Connecting, _) => Fates::new(Fate::Refused, Fate::Refused),
            (_, ShutCause::Silent(_)) => Fates::new(Fate::Timeout, Fate::Timeout),
            (_, ShutCause::Late(_)) => Fates::new(Fate::Timeout, Fate::Aborted),
            (_, ShutCause::EndOfInput)
            | (_, ShutCause::Fault)
            | (_, ShutCause::Unreadable)
            | (_, ShutCause::Unasked) => Fates::new(Fate::Broken, Fate::Aborted),
        }
    }

    /// Memory ran out for the first response, which is nobody's where its asker gave up.
    fn of_memory(is_first_gone: bool) -> Fates
        ensures { result ≡ memory_fates is_first_gone }
    {
        if is_first_gone {
            Fates::new(Fate::Aborted, Fate::Aborted)
        } else {
            Fates::new(Fate::Memory, Fate::Aborted)
        }
    }

    /// The fate of the next request that leaves, if its asker is there.
    pub fn fate(self) -> Fate
        ensures { result ≡ next_fate self }
    {
        self.first.unwrap_or(self.behind)
    }

    /// The fate of the next request that leaves, which this one asked. One that gave up is not
    /// concerned.
    pub(crate) fn fate_for(self, by: Asker) -> Fate
        ensures { result ≡ fate_for by self }
    {
        match by {
            Asker::GaveUp(_) => Fate::Aborted,
            Asker::Client(_) => self.fate(),
            Asker::Probe => self.fate(),
        }
    }

    /// The same once this one's request has left.
    pub(crate) fn after(self, by: Asker) -> Fates
        ensures { result ≡ fates_left by self }
    {
        match by {
            Asker::GaveUp(_) => self,
            Asker::Client(_) => self.without_first(),
            Asker::Probe => self.without_first(),
        }
    }

    /// The same once the first fate was handed out.
    fn without_first(self) -> Fates
        ensures { result ≡ record self { first = None } }
    {
        Fates {
            first: None,
            behind: self.behind,
        }
    }
}
