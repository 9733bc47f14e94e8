//! How the keys of a request are sent.

/// Which keys go out in one request.
#[derive(Clone, Copy, Debug, PartialEq, Eq)]
pub enum Grouping {
    /// Each key in a request of its own.
    ByKey,
    /// The keys that are due at a server in one request.
    ByServer,
}

/// How the keys of a request for several are sent.
#[derive(Clone, Copy, Debug, PartialEq, Eq)]
pub struct KeyPlan {
    /// At most this many keys are due or under way at once.
    pub most: usize,
    pub grouping: Grouping,
}
