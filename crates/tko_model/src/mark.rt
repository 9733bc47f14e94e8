//! Marks, operations and replies.

/// What a tracker knows of a server.
#[derive(Clone, Copy, Debug, PartialEq, Eq)]
pub enum Mark {
    /// Unmarked; its number is the soft failures in a row so far.
    Up(u32),
    /// Marked after soft failures, by the thread of this number, which alone probes it.
    Soft(u32),
    /// Marked by a hard failure, or hardened, by the thread of this number, which alone probes it.
    Hard(u32),
}

/// What a thread does with a server: it looks up its mark, reports how a request went, or gives up
/// its own mark.
#[derive(Clone, Copy, Debug, PartialEq, Eq)]
pub enum Op {
    LookUp,
    SoftFailure,
    HardFailure,
    Success,
    Release,
}

/// What a tracker replies to an operation.
#[derive(Clone, Copy, Debug, PartialEq, Eq)]
pub enum Reply {
    /// A look-up found the server unmarked, with this count of soft failures.
    Up(u32),
    /// A look-up found this mark.
    Marked(Mark),
    /// A soft failure was counted; this is the new count.
    Counted(u32),
    /// A soft failure marked the server, as the last of `failures` in a row.
    TookSoft,
    /// The limit of soft marks is reached, so the server was not marked.
    Full,
    /// The server was marked already, and nothing changed.
    Already(Mark),
    /// The server's stamp is used up, and nothing changed.
    Worn,
    /// Every try lost to another thread, and nothing changed.
    Contended,
    /// A hard failure marked the server.
    TookHard,
    /// The thread's own soft mark became a hard one.
    Hardened,
    /// A success on a server without failures.
    Clean,
    /// A success reset the count, which was this, to 0.
    Reset(u32),
    /// A success of the thread that made this mark removed it.
    Unmarked(Mark),
    /// The thread that made this mark released it.
    Released(Mark),
    /// A release of a server that the thread has not marked.
    NotMine(Mark),
}
