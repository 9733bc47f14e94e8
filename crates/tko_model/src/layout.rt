//! How many threads and counts the health word of a server has room for.
ghost use Rattle.std.specs.Prelude.{◌≡◌};
ghost use Rattle.tko_model.specs.Limits.{max_failures, max_threads};

/// A version of the ranges of threads and failures. The words are the same in both: each word of
/// the first is one of the second, with the same meaning.
#[derive(Clone, Copy, Debug, PartialEq, Eq)]
pub enum Layout {
    /// Up to 64 threads and 1,000 failures: that of schedules of versions 1 and 2.
    One,
    /// Up to 1,024 threads and 4,096 failures: that of trackers that run.
    Two,
}

impl Layout {
    /// The most threads that a tracker has.
    pub fn max_threads(self) -> u32
        ensures { result ≡ max_threads self }
    {
        match self {
            Layout::One => 64,
            Layout::Two => 1_024,
        }
    }

    /// The most soft failures in a row that it may take to mark a server.
    pub fn max_failures(self) -> u32
        ensures { result ≡ max_failures self }
    {
        match self {
            Layout::One => 1_000,
            Layout::Two => 4_096,
        }
    }
}
