//! How long a loop waits for clients and servers, and how much may be held for clients.

/// The limits of a loop. Times are in milliseconds.
#[derive(Clone, Copy, Debug, PartialEq, Eq)]
pub struct LoopLimits {
    /// How long a server has for a response.
    pub response: u64,
    /// In so long a client must take 64 KiB of the replies that wait, or all of them; 0 is no
    /// limit.
    pub write: u32,
    /// How long a client may complete no request; 0 is no limit.
    pub idle: u32,
    /// How many bytes of replies may be held in one worker: of those that wait, and of those under
    /// way.
    pub unwritten: usize,
}
