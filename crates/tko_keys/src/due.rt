//! A key that is due at a server.
ghost use Rattle.std.specs.Prelude.{◌≡◌, ◌==◌};

use std::marker::Model;
use tko_model::Clear;

/// The place of a key in the request, and the permission to send to the server that its look-ups
/// found up.
#[derive(Drop)]
pub(crate) struct Due {
    pub place: usize,
    pub clear: Clear,
}

impl Model for Due {
    ghost use Rattle.tko_keys.specs.KeysState.{DueKey};

    ghost Value = { DueKey };

    ghost view = { λ d. record { place = d.place; server = d.clear } };
}

impl Due {
    /// Whether it is due at this server.
    pub(crate) fn is_at(&self, server: usize) -> bool
        ensures { result ≡ (self.now.server == server) }
    {
        self.clear.server() == server
    }
}
