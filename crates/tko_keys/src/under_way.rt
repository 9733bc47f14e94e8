//! A request that is under way.
ghost use Rattle.std.specs.Prelude.{◌≡◌, ◌==◌, ◌+◌, length};

use std::marker::Model;
use tko_text::Request;

/// The server, and the places of its keys. A line is made where there may be more than one.
#[derive(Drop)]
pub(crate) struct UnderWay {
    pub server: usize,
    pub first: usize,
    pub line: Option<KeyLine>,
}

/// A line of keys: those that go out with a first one.
#[derive(Drop)]
pub(crate) struct KeyLine {
    pub others: Vec<usize>,
    /// The request for all of them.
    pub request: Request,
    /// At most how many bytes the request has.
    pub bytes: usize,
}

impl Model for UnderWay {
    ghost use Rattle.std.specs.Prelude.{◌∷◌, [], unwrap_or};
    ghost use Rattle.std.specs.Option.{option_map};
    ghost use Rattle.tko_keys.specs.KeysState.{KeySend};

    ghost Value = { KeySend };

    ghost view = { λ u. record {
      server = u.server;
      places = u.first ∷ unwrap_or (option_map (λ line. line.others) u.line) [];
      line = option_map (λ line. line.request) u.line;
    } };
}

impl Model for KeyLine {
    ghost use Rattle.tko_keys.specs.KeysState.{LineSoFar};

    ghost Value = { LineSoFar };

    ghost view = { λ k. record { others = k.others.items; request = k.request; bytes = k.bytes } };
}

impl UnderWay {
    /// Whether it is under way to this server.
    pub(crate) fn is_to(&self, server: usize) -> bool
        ensures { result ≡ (self.now.server == server) }
    {
        self.server == server
    }

    /// How many keys it is for.
    pub(crate) fn keys(&self) -> usize
        ensures { result ≡ length self.now.places }
    {
        match &self.line {
            Some(line) => line.others.len() + 1,
            None => 1,
        }
    }
}
