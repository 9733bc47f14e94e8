//! The mark that a worker has on a server.
ghost use Rattle.std.specs.Prelude.{◌≡◌};
ghost use Rattle.tko_metrics.specs.Marks.{is_mark, mark_number, since_after};

/// The mark that a worker has on a server.
#[derive(Clone, Copy, Debug, PartialEq, Eq)]
pub enum Marking {
    Up,
    Soft,
    Hard,
}

/// Since when a server is marked, once a mark is set at this moment. A mark that is hardened keeps
/// its moment.
pub(crate) fn since(was: Marking, since: u64, moment: u64) -> u64
    ensures { result ≡ since_after was since moment }
{
    match was {
        Marking::Up => moment,
        Marking::Soft | Marking::Hard => since,
    }
}

impl Marking {
    pub(crate) fn of(number: u64) -> Marking
        ensures { (mark : Marking) → number ≡ mark_number mark → result ≡ mark }
    {
        match number {
            0 => Marking::Up,
            1 => Marking::Soft,
            _ => Marking::Hard,
        }
    }

    /// Whether there is a mark.
    pub(crate) fn is_set(self) -> bool
        ensures { result ≡ is_mark self }
    {
        match self {
            Marking::Up => false,
            Marking::Soft | Marking::Hard => true,
        }
    }

    pub(crate) fn number(self) -> u64
        ensures { result ≡ mark_number self }
    {
        match self {
            Marking::Up => 0,
            Marking::Soft => 1,
            Marking::Hard => 2,
        }
    }
}
