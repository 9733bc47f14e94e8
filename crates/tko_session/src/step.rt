//! What a session is at, and what it asks of who drives it.
ghost use Rattle.std.specs.Prelude.{◌≡◌};
ghost use Rattle.tko_session.specs.SessionState.{progress_after};

use tko_model::Clear;
use tko_route::Trail;
use tko_text::TextFault;

/// What a session came to, at the end of its input.
#[derive(Clone, Copy, Debug, PartialEq, Eq)]
pub struct Report {
    /// How many items were no faults; the greatest number means that many or more.
    pub requests: u64,
    /// How many bytes came of an item that the end of input cut.
    pub unfinished: u64,
}

/// How far a session answered what it read.
#[derive(Clone, Copy, Debug, PartialEq, Eq)]
pub enum Progress {
    /// There may be more to answer, once the replies were written and the owed round was run.
    More,
    /// Everything that is decided was answered: the session needs the next piece.
    NeedsInput,
    /// The last item was a line too long, after which nothing is read.
    LineTooLong,
    /// The last item was `quit`: the session is over, and nothing that follows is to be answered.
    Quit,
}

/// What a call of a session did, and so what its driver does before the next call. It is not how
/// far a key is, which is the `Stage` of its routing: a request that was read has no key yet, an
/// item that was answered has none any more, and of a key's stage the driver is given what it
/// needs.
#[derive(Drop)]
pub enum Step {
    /// A request was read, and `request` lends it. It is to be recorded before `next` begins it.
    Began,
    /// `request` is to be sent once, to the server that the permission names. What comes of it is
    /// passed to `answered`.
    Asks(Clear),
    /// These were the attempts at a key, and its response is in the outbox. Their marks are to be
    /// noted, and the trail to be recorded, before `next` goes on to another key or ends the reply.
    Tried(Trail),
    /// A line was refused for this fault, and its answer is in the outbox.
    Refused(TextFault),
    /// A request was answered, or no item is decided.
    At(Progress),
}

/// How far a session is once it answered this fault.
pub fn progress_after(fault: TextFault) -> Progress
    ensures { result ≡ progress_after fault }
{
    match fault {
        TextFault::LineTooLong => Progress::LineTooLong,
        TextFault::UnknownCommand
        | TextFault::BadLine
        | TextFault::BadKey
        | TextFault::BadChunk
        | TextFault::TooLarge => Progress::More,
    }
}
