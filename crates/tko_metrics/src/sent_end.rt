//! What came of what was sent to a server.
ghost use Rattle.std.specs.Prelude.{◌≡◌, Some, slice_get};
ghost use Rattle.tko_metrics.specs.Traffic.{all_ends, end_word};

/// What came of what was sent to a server.
#[derive(Clone, Copy, Debug, PartialEq, Eq)]
pub enum SentEnd {
    /// A whole response, a server's own error among them.
    Reply,
    Timeout,
    Refused,
    Broken,
    /// The connection failed while the answer to another request was awaited.
    Aborted,
}

impl SentEnd {
    /// All of them, in the order in which they are shown.
    pub(crate) const ALL: [SentEnd; 5] = [
        SentEnd::Reply,
        SentEnd::Timeout,
        SentEnd::Refused,
        SentEnd::Broken,
        SentEnd::Aborted,
    ];

    pub(crate) fn word(self) -> &'static str
        ensures { result.now ≡ end_word self }
    {
        match self {
            SentEnd::Reply => "reply",
            SentEnd::Timeout => "timeout",
            SentEnd::Refused => "refused",
            SentEnd::Broken => "broken",
            SentEnd::Aborted => "aborted",
        }
    }

    /// Its place among all of them.
    pub(crate) fn place(self) -> usize
        ensures { slice_get all_ends result ≡ Some self }
    {
        match self {
            SentEnd::Reply => 0,
            SentEnd::Timeout => 1,
            SentEnd::Refused => 2,
            SentEnd::Broken => 3,
            SentEnd::Aborted => 4,
        }
    }
}
