//! The commands that are counted.
ghost use Rattle.std.specs.Prelude.{◌≡◌, Some, slice_get};
ghost use Rattle.tko_metrics.specs.Traffic.{all_commands, command_word};

/// A command of the protocol, as a request has it.
#[derive(Clone, Copy, Debug, PartialEq, Eq)]
pub enum Command {
    Get,
    Gets,
    Set,
    Add,
    Replace,
    Append,
    Prepend,
    Cas,
    Delete,
    Incr,
    Decr,
    Touch,
    Version,
    Quit,
    Stats,
}

impl Command {
    /// All commands, in the order in which they are shown.
    pub(crate) const ALL: [Command; 15] = [
        Command::Get,
        Command::Gets,
        Command::Set,
        Command::Add,
        Command::Replace,
        Command::Append,
        Command::Prepend,
        Command::Cas,
        Command::Delete,
        Command::Incr,
        Command::Decr,
        Command::Touch,
        Command::Version,
        Command::Quit,
        Command::Stats,
    ];

    /// Its word in the protocol.
    pub(crate) fn word(self) -> &'static str
        ensures { result.now ≡ command_word self }
    {
        match self {
            Command::Get => "get",
            Command::Gets => "gets",
            Command::Set => "set",
            Command::Add => "add",
            Command::Replace => "replace",
            Command::Append => "append",
            Command::Prepend => "prepend",
            Command::Cas => "cas",
            Command::Delete => "delete",
            Command::Incr => "incr",
            Command::Decr => "decr",
            Command::Touch => "touch",
            Command::Version => "version",
            Command::Quit => "quit",
            Command::Stats => "stats",
        }
    }

    /// Its place among all commands.
    pub(crate) fn place(self) -> usize
        ensures { slice_get all_commands result ≡ Some self }
    {
        match self {
            Command::Get => 0,
            Command::Gets => 1,
            Command::Set => 2,
            Command::Add => 3,
            Command::Replace => 4,
            Command::Append => 5,
            Command::Prepend => 6,
            Command::Cas => 7,
            Command::Delete => 8,
            Command::Incr => 9,
            Command::Decr => 10,
            Command::Touch => 11,
            Command::Version => 12,
            Command::Quit => 13,
            Command::Stats => 14,
        }
    }
}
