//! Why nothing can listen at an address.
ghost use Rattle.std.specs.Prelude.{◌≡◌};
ghost use Rattle.tko_commands.specs.Faults.{listen_words};

/// Why nothing can listen at an address.
#[derive(Debug, Drop)]
pub enum ListenFault {
    /// It is none.
    NoAddress,
    /// The system refuses it, with these words.
    System(String),
}

impl ListenFault {
    pub(crate) fn words(&self) -> &str
        ensures { result.now ≡ listen_words self.now }
    {
        match self {
            ListenFault::NoAddress => "no address <host>:<port>",
            ListenFault::System(words) => words.as_str(),
        }
    }
}
