//! Those that wait for responses.
ghost use Rattle.std.specs.Prelude.{◌≡◌};
ghost use Rattle.tko_pipe.specs.Waiters.{gone, has_gone};

/// Who waits for a response.
#[derive(Clone, Copy, Debug, PartialEq, Eq)]
pub enum Asker {
    /// The client of this number. The request stays with its session.
    Client(usize),
    /// The worker itself, which probes the server.
    Probe,
    /// The client of this number asked, and gave up: what comes for it is dropped.
    GaveUp(usize),
}

impl Asker {
    /// Whether it gave up.
    pub fn has_gone(self) -> bool
        ensures { result ≡ has_gone self }
    {
        match self {
            Asker::Client(_) => false,
            Asker::Probe => false,
            Asker::GaveUp(_) => true,
        }
    }
}

/// One that waits for a response.
#[derive(Clone, Copy, Debug, PartialEq, Eq)]
pub struct Waiter {
    pub by: Asker,
    /// The moment at which it is late, in milliseconds of the caller's clock.
    pub due: u64,
    /// How long the text of its request is.
    pub len: usize,
}

impl Waiter {
    /// The same once the client of this number gave up.
    pub(crate) fn gone(self, number: usize) -> Waiter
        ensures { result ≡ gone number self }
    {
        Waiter {
            by: Asker::GaveUp(number),
            due: self.due,
            len: self.len,
        }
    }
}
