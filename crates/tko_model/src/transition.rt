//! The decisions of the tracker: what an operation of a thread on a server answers and changes.
ghost use Rattle.std.specs.Prelude.{◌≡◌, ◌+◌, ◌<◌, Some, None};
ghost use Rattle.std.specs.Option.{ForSome};
ghost use Rattle.tko_model.specs.Ranges.{IsWithinRanges};
ghost use Rattle.tko_model.specs.Tracker.{IsFit, becomes, on_others, on_own_hard, on_own_soft, on_soft_failure, on_unmarked, stays, transition, unless_worn};

use crate::look::look_reply;
use crate::settings::WORN_STAMP;
use crate::{Mark, Op, Reply, ServerState, Settings};

/// What an operation answers, and the mark that it puts in the server's place, if it changes one.
#[derive(Clone, Copy, Debug, PartialEq, Eq)]
pub struct Transition {
    pub reply: Reply,
    pub change: Option<Mark>,
}

impl Transition {
    /// A reply that changes nothing.
    fn stays(reply: Reply) -> Transition
        ensures { result ≡ stays reply }
    {
        Transition {
            reply,
            change: None,
        }
    }

    /// A reply with which the server gets this mark.
    fn becomes(mark: Mark, reply: Reply) -> Transition
        ensures { result ≡ becomes mark reply }
    {
        Transition {
            reply,
            change: Some(mark),
        }
    }

    /// Decides an operation of a thread on a server; `room` says whether one more soft mark is
    /// allowed. A new mark fits the stamp that the change leaves.
    pub fn of(settings: &Settings, room: bool, thread: u32, op: Op, on: ServerState) -> Transition
        ensures value { result ≡ transition settings.now room thread op on.mark on.stamp }
        ensures fit { IsWithinRanges settings.now → IsFit settings.now on.mark on.stamp
            → ForSome result.change (λ mark. IsFit settings.now mark (on.stamp + 1)) }
    {
        match on.mark {
            Mark::Up(count) => Self::on_unmarked(settings, room, thread, op, count, on.stamp),
            Mark::Soft(owner) if owner == thread => Self::on_own_soft(thread, op),
            Mark::Hard(owner) if owner == thread => Self::on_own_hard(thread, op),
            Mark::Soft(_) | Mark::Hard(_) => Self::on_others(op, on.mark),
        }
    }

    /// On a server that another thread marked.
    fn on_others(op: Op, mark: Mark) -> Transition
        ensures { result ≡ on_others op mark }
    {
        match op {
            Op::LookUp => Self::stays(look_reply(mark)),
            Op::SoftFailure | Op::HardFailure | Op::Success => Self::stays(Reply::Already(mark)),
            Op::Release => Self::stays(Reply::NotMine(mark)),
        }
    }

    fn on_own_soft(thread: u32, op: Op) -> Transition
        ensures { result ≡ on_own_soft thread op }
    {
        let mark = Mark::Soft(thread);
        match op {
            Op::LookUp => Self::stays(look_reply(mark)),
            Op::SoftFailure => Self::stays(Reply::Already(mark)),
            Op::HardFailure => Self::becomes(Mark::Hard(thread), Reply::Hardened),
            Op::Success => Self::becomes(Mark::Up(0), Reply::Unmarked(mark)),
            Op::Release => Self::becomes(Mark::Up(0), Reply::Released(mark)),
        }
    }

    fn on_own_hard(thread: u32, op: Op) -> Transition
        ensures { result ≡ on_own_hard thread op }
    {
        let mark = Mark::Hard(thread);
        match op {
            Op::LookUp => Self::stays(look_reply(mark)),
            Op::SoftFailure | Op::HardFailure => Self::stays(Reply::Already(mark)),
            Op::Success => Self::becomes(Mark::Up(0), Reply::Unmarked(mark)),
            Op::Release => Self::becomes(Mark::Up(0), Reply::Released(mark)),
        }
    }

    fn on_unmarked(
        settings: &Settings,
        room: bool,
        thread: u32,
        op: Op,
        count: u32,
        stamp: u64,
    ) -> Transition
        ensures value { result ≡ on_unmarked settings.now room thread op count stamp }
        ensures fit { IsWithinRanges settings.now → count < settings.now.failures
            → ForSome result.change (λ mark. IsFit settings.now mark (stamp + 1)) }
    {
        match op {
            Op::LookUp => Self::stays(look_reply(Mark::Up(count))),
            Op::Release => Self::stays(Reply::NotMine(Mark::Up(count))),
            Op::Success if count == 0 => Self::stays(Reply::Clean),
            Op::SoftFailure | Op::HardFailure | Op::Success if stamp >= WORN_STAMP => {
                Self::stays(Reply::Worn)
            }
            Op::SoftFailure => Self::on_soft_failure(settings, room, thread, count),
            Op::HardFailure => Self::becomes(Mark::Hard(thread), Reply::TookHard),
            Op::Success => Self::becomes(Mark::Up(0), Reply::Reset(count)),
        }
    }

    /// It is counted, or it is the one that marks, where there is room for one more soft mark.
    fn on_soft_failure(settings: &Settings, room: bool, thread: u32, count: u32) -> Transition
        ensures { result ≡ on_soft_failure settings.now room thread count }
    {
        // The first test is what keeps `count + 1` from wrapping.
        if count < settings.failures && count + 1 < settings.failures {
            Self::becomes(Mark::Up(count + 1), Reply::Counted(count + 1))
        } else if room {
            Self::becomes(Mark::Soft(thread), Reply::TookSoft)
        } else {
            Self::stays(Reply::Full)
        }
    }
}
