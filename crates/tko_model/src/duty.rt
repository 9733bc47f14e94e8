//! The right to probe a server.
ghost use Rattle.std.specs.Prelude.{◌≡◌};

use crate::Mark;
use std::marker::Model;

/// The right to probe one server once. In contracts it is that server's number. Only the thread
/// that marked the server has it; it can be neither copied nor cloned, and a probe consumes it.
#[derive(Debug, Drop)]
pub struct Duty {
    server: usize,
}

impl Model for Duty {
    ghost use Rattle.std.specs.Prelude.{ℕ};

    ghost Value = { ℕ };

    ghost view = { λ d. d.server };
}

impl Duty {
    ghost use Rattle.tko_model.specs.Looks.{duty_of};

    /// The right of this thread, where a server has this mark and the mark is the thread's own.
    pub fn of(server: usize, mark: Mark, thread: u32) -> Option<Duty>
        ensures { result ≡ duty_of server mark thread }
    {
        match mark {
            Mark::Up(_) => None,
            Mark::Soft(owner) | Mark::Hard(owner) => {
                if owner == thread {
                    Some(Duty { server })
                } else {
                    None
                }
            }
        }
    }

    /// The server that may be probed.
    pub fn server(&self) -> usize
        ensures { result ≡ self.now }
    {
        self.server
    }
}
