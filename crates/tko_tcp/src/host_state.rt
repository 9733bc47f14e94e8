//! The addresses that are known for a host with a name, and what a connect does with them.
ghost use Rattle.std.specs.Prelude.{◌≡◌, ◌≢◌, [], true, false};
ghost use Rattle.tko_tcp.specs.Hosts.{IsLookUpEnded, IsNext};
ghost use Rattle.tko_tcp.specs.LookUps.{IsEndTold};

use crate::addresses::ResolvedAddresses;
use crate::look_ups::LookUpEnd;

/// The addresses that are known for a host, and whether its look-up is requested.
#[derive(Drop)]
pub(crate) struct HostState {
    /// What the last successful look-up found.
    known: ResolvedAddresses,
    is_asked: bool,
    /// Changes whenever a look-up has ended.
    ended: u64,
    /// How the last one ended; before the first, as if it had found addresses.
    last: LookUpEnd,
}

/// What a connect does next.
#[derive(Drop)]
pub(crate) enum ConnectStep {
    /// Try these addresses.
    Try(ResolvedAddresses),
    /// Wait until the number of ended look-ups differs from this one.
    Wait(u64),
    /// Give up: a look-up has ended, and still no address is known.
    GiveUp,
}

impl HostState {
    /// A host of which no address is known yet, and whose look-up is requested.
    pub(crate) fn new() -> HostState
        ensures known { result.known ≡ [] }
        ensures asked { result.is_asked ≡ true }
        ensures last { result.last ≡ LookUpEnd.Found }
    {
        HostState {
            known: ResolvedAddresses::none(),
            is_asked: true,
            ended: 0,
            last: LookUpEnd::Found,
        }
    }

    pub(crate) fn is_asked(&self) -> bool
        ensures { result ≡ self.now.is_asked }
    {
        self.is_asked
    }

    /// Requests a look-up. One that has begun already counts as it.
    pub(crate) fn ask(&mut self)
        ensures { self.new ≡ record self.old { is_asked = true } }
    {
        self.is_asked = true;
    }

    /// What a connect does next. `since` is the number of ended look-ups when it began to wait;
    /// None if it has not waited yet.
    pub(crate) fn next(&mut self, since: Option<u64>) -> ConnectStep
        ensures { IsNext self.old since result self.new }
    {
        if !self.known.as_slice().is_empty() {
            return ConnectStep::Try(self.known.copy());
        }
        match since {
            Some(since) if since != self.ended => ConnectStep::GiveUp,
            _ => {
                self.is_asked = true;
                ConnectStep::Wait(self.ended)
            }
        }
    }

    /// Records that a look-up has ended and found these addresses, and how. Returns how it ended,
    /// if the one before it ended otherwise.
    pub(crate) fn answer(&mut self, found: ResolvedAddresses, end: LookUpEnd) -> Option<LookUpEnd>
        ensures ended { IsLookUpEnded self.old found self.new }
        ensures last { self.new.last ≡ end }
        ensures told { IsEndTold self.old.last end result }
    {
        if !found.as_slice().is_empty() {
            self.known = found;
        }
        self.is_asked = false;
        self.ended = self.ended.checked_add(1).unwrap_or(0);
        let before = self.last;
        self.last = end;
        if end == before { None } else { Some(end) }
    }
}
