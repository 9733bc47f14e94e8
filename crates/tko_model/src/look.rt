//! What a look-up found, and the permission to send.
ghost use Rattle.std.specs.Prelude.{◌≡◌};
ghost use Rattle.tko_model.specs.Looks.{look_reply};

use crate::{Mark, Reply};
use std::marker::Model;

/// The permission to send one request to one server. In contracts it is that server's number. It
/// can be neither copied nor cloned, and a send consumes it, so each send follows a look-up of its
/// own.
#[derive(Debug, Drop)]
pub struct Clear {
    server: usize,
}

impl Model for Clear {
    ghost use Rattle.std.specs.Prelude.{ℕ};

    ghost Value = { ℕ };

    ghost view = { λ c. c.server };
}

impl Clear {
    /// The server that may be sent to.
    pub fn server(&self) -> usize
        ensures { result ≡ self.now }
    {
        self.server
    }
}

/// What a look-up of a server found.
#[derive(Debug, Drop)]
pub enum Look {
    /// Unmarked, with this count of soft failures: one request may be sent to it.
    Up(u32, Clear),
    Marked(Mark),
}

impl Look {
    ghost use Rattle.tko_model.specs.Looks.{look_of};

    /// What a look-up finds where this server has this mark.
    pub fn of(server: usize, mark: Mark) -> Look
        ensures { result ≡ look_of server mark }
    {
        match look_reply(mark) {
            Reply::Up(count) => Look::Up(count, Clear { server }),
            _ => Look::Marked(mark),
        }
    }
}

/// The tracker's reply to a look-up of a server with this mark.
pub(crate) fn look_reply(mark: Mark) -> Reply
    ensures { result ≡ look_reply mark }
{
    match mark {
        Mark::Up(count) => Reply::Up(count),
        Mark::Soft(_) | Mark::Hard(_) => Reply::Marked(mark),
    }
}
