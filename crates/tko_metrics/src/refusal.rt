//! Why a client was refused.
ghost use Rattle.std.specs.Prelude.{◌≡◌, Some, slice_get};
ghost use Rattle.tko_metrics.specs.Traffic.{all_refusals, refusal_word};

/// Why what a client sent was refused.
#[derive(Clone, Copy, Debug, PartialEq, Eq)]
pub enum Refusal {
    UnknownCommand,
    BadLine,
    BadKey,
    BadChunk,
    TooLarge,
    LineTooLong,
    /// The client speaks the binary protocol, and was closed.
    Binary,
}

impl Refusal {
    /// All of them, in the order in which they are shown.
    pub const ALL: [Refusal; 7] = [
        Refusal::UnknownCommand,
        Refusal::BadLine,
        Refusal::BadKey,
        Refusal::BadChunk,
        Refusal::TooLarge,
        Refusal::LineTooLong,
        Refusal::Binary,
    ];

    /// As the metrics and the log say it.
    pub fn word(self) -> &'static str
        ensures { result.now ≡ refusal_word self }
    {
        match self {
            Refusal::UnknownCommand => "unknown_command",
            Refusal::BadLine => "bad_line",
            Refusal::BadKey => "bad_key",
            Refusal::BadChunk => "bad_chunk",
            Refusal::TooLarge => "too_large",
            Refusal::LineTooLong => "line_too_long",
            Refusal::Binary => "binary",
        }
    }

    /// Its place among all of them.
    pub fn place(self) -> usize
        ensures { slice_get all_refusals result ≡ Some self }
    {
        match self {
            Refusal::UnknownCommand => 0,
            Refusal::BadLine => 1,
            Refusal::BadKey => 2,
            Refusal::BadChunk => 3,
            Refusal::TooLarge => 4,
            Refusal::LineTooLong => 5,
            Refusal::Binary => 6,
        }
    }
}
