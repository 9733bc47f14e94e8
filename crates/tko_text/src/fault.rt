//! What is wrong with a text.
ghost use Rattle.std.specs.Prelude.{◌≡◌};
ghost use Rattle.tko_text.specs.Requests.{fault_text};

/// Why a text is no request.
#[derive(Clone, Copy, Debug, PartialEq, Eq)]
pub enum TextFault {
    /// No word, or a first word that is no command.
    UnknownCommand,
    /// A wrong number of words, or a word that isn't what its place asks for.
    BadLine,
    /// A key outside the rule of keys.
    BadKey,
    /// Data that isn't followed by CR LF.
    BadChunk,
    /// More data than may be stored.
    TooLarge,
    /// A line that goes on past its limit; nothing more is read.
    LineTooLong,
}

impl TextFault {
    /// The line that answers it, CR LF included.
    #[tactic(auto, unfolding(crate::specs::Requests::fault_text))]
    pub fn reply(self) -> &'static [u8]
        ensures { result.now ≡ fault_text self }
    {
        match self {
            TextFault::UnknownCommand => b"ERROR\r\n",
            TextFault::BadLine => b"CLIENT_ERROR bad command line format\r\n",
            TextFault::BadKey => b"CLIENT_ERROR bad key\r\n",
            TextFault::BadChunk => b"CLIENT_ERROR bad data chunk\r\n",
            TextFault::TooLarge => b"SERVER_ERROR object too large for cache\r\n",
            TextFault::LineTooLong => b"CLIENT_ERROR line too long\r\n",
        }
    }
}
