//! The end of a request's data.
ghost use Rattle.std.specs.Prelude.{◌≤◌};
ghost use Rattle.tko_text.specs.DataEnds.{EndsData};
ghost use Rattle.tko_text.specs.Limits.{data_limit};

/// What follows the place where data may end.
#[derive(Clone, Copy, Debug, PartialEq, Eq)]
pub(crate) enum DataEnd {
    /// Not enough has come.
    Open,
    /// CR LF.
    Whole,
    /// No CR LF follows: this number of bytes, those of the data included, shows it, and the last
    /// of them is an LF.
    WrongLine(usize),
    /// No CR LF follows: this number of bytes, those of the data included, shows it, and no LF is
    /// among those that follow the data.
    Wrong(usize),
}

/// The bytes of the CR LF behind data.
pub(crate) const END_LEN: usize = 2;

/// The end of `size` bytes of data.
pub(crate) fn data_end(bytes: &[u8], size: usize) -> DataEnd
    requires { size ≤ data_limit }
    ensures { EndsData bytes.now size result }
{
    if bytes.len() <= size {
        return DataEnd::Open;
    }
    if bytes[size] == b'\n' {
        return DataEnd::WrongLine(size + 1);
    }
    if bytes[size] != b'\r' {
        return DataEnd::Wrong(size + 1);
    }
    if bytes.len() == size + 1 {
        return DataEnd::Open;
    }
    if bytes[size + 1] == b'\n' {
        return DataEnd::Whole;
    }
    DataEnd::Wrong(size + END_LEN)
}
