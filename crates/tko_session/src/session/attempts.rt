//! A session whose send is out: the server that it is out to, the attempts before it, and whether
//! a target is left after it.
ghost use Rattle.std.specs.Prelude.{◌≡◌};
ghost use Rattle.tko_session.specs.Awaiting.{awaited_in};
ghost use Rattle.tko_session.specs.Working.{attempts_in, has_next_in};

use super::{KeyAtWork, KeyWait, Session, SessionWork};
use tko_route::Attempt;

impl Session {
    /// The server that a send is out to, if one is.
    pub fn awaited(&self) -> Option<usize>
        ensures { result ≡ awaited_in self.now.work }
    {
        match &self.work {
            SessionWork::Key(
                KeyAtWork {
                    key: _,
                    wait: KeyWait::Sent(awaited),
                },
            ) => Some(awaited.server()),
            _ => None,
        }
    }

    /// The attempts at the key for which a send is out, before that send.
    pub fn attempts(&self) -> &[Attempt]
        ensures { result.now ≡ attempts_in self.now.work }
    {
        match &self.work {
            SessionWork::Key(
                KeyAtWork {
                    key: _,
                    wait: KeyWait::Sent(awaited),
                },
            ) => awaited.attempts(),
            _ => &[],
        }
    }

    /// Whether a send is out, and the key that it is for has another target after it.
    pub fn has_next_target(&self) -> bool
        ensures { result ≡ has_next_in self.now.work self.now.targets }
    {
        match &self.work {
            SessionWork::Key(
                KeyAtWork {
                    key: _,
                    wait: KeyWait::Sent(awaited),
                },
            ) => awaited.has_next(&self.targets),
            _ => false,
        }
    }
}
