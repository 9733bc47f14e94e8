//! Bytes that only proofs read.
ghost use Rattle.std.specs.Prelude.{◌≡◌, [], ◌++◌};

use http_server::Log;
use std::marker::Model;

/// The bytes that went one way. It takes no memory, and its methods do nothing at run time.
#[derive(Drop)]
pub struct Trace {
    log: Log<u8, u8>,
}

impl Model for Trace {
    ghost use Rattle.std.specs.Prelude.{List, ℕ, map};

    ghost Value = { List ℕ };

    ghost view = { λ t. map (λ pair. pair.0) t.log.items };
}

impl Trace {
    /// None went.
    pub fn new() -> Trace
        ensures { result ≡ [] }
    {
        Trace { log: Log::new() }
    }

    /// These went too.
    pub fn add(&mut self, bytes: &[u8])
        ensures { self.new ≡ self.old ++ bytes.now }
    {
        for byte in bytes {
            self.log = self.log.and(byte, byte);
        }
    }
}
