//! What is counted.
ghost use Rattle.std.specs.Prelude.{◌≡◌};
ghost use Rattle.tko_model.specs.Numbers.{kind_word};

/// What is counted.
#[derive(Clone, Copy, Debug, PartialEq, Eq)]
pub enum Kind {
    /// An item of a client's input that is no fault.
    Request,
    /// A request that was sent to a server.
    Attempt,
    /// A target that was passed over because of its mark.
    Skip,
    /// A request that a server responded to.
    Reply,
    /// A routed request that ended without a response.
    NoServer,
    /// A probe that was sent.
    Probe,
}

impl Kind {
    /// All kinds, in the order in which they are printed.
    pub const ALL: [Kind; 6] = [
        Kind::Request,
        Kind::Attempt,
        Kind::Skip,
        Kind::Reply,
        Kind::NoServer,
        Kind::Probe,
    ];

    /// The word that the kind is printed as.
    pub fn word(self) -> &'static str
        ensures { result.now ≡ kind_word self }
    {
        match self {
            Kind::Request => "request",
            Kind::Attempt => "attempt",
            Kind::Skip => "skip",
            Kind::Reply => "reply",
            Kind::NoServer => "no-server",
            Kind::Probe => "probe",
        }
    }
}
