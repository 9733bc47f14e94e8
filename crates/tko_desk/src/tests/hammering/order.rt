//! One order of the calls of two threads on one server.

use std::alloc::{AllocError, Global};
use std::mem::swap;
use tko_model::{Mark, Op, Reply, ServerState, Settings, Transition};

/// A call of the thread of this number, its reply, and the moments around it.
#[derive(Clone, Copy)]
pub(super) struct TimedCall {
    pub(super) number: u32,
    pub(super) op: Op,
    pub(super) reply: Reply,
    pub(super) begin: u64,
    pub(super) end: u64,
}

/// Whether a call with this reply changed its server.
pub(super) fn is_change(reply: Reply) -> bool {
    matches!(
        reply,
        Reply::Counted(_)
            | Reply::TookSoft
            | Reply::TookHard
            | Reply::Hardened
            | Reply::Reset(_)
            | Reply::Unmarked(_)
            | Reply::Released(_)
    )
}

/// How many calls of each thread stand in an order, and the mark that they leave.
#[derive(Clone, Copy, PartialEq, Eq)]
struct OrderPoint {
    one: usize,
    other: usize,
    mark: Mark,
}

/// Whether the calls have an order in which the sequential tracker gives each its reply and leaves
/// this mark. No call stands in it before one that had ended when it began.
pub(super) fn have_order(
    alloc: Global,
    settings: &Settings,
    one: &[TimedCall],
    other: &[TimedCall],
    last: Mark,
) -> Result<bool, AllocError> {
    let opened = OrderPoint {
        one: 0,
        other: 0,
        mark: Mark::Up(0),
    };
    let mut points = vec![in alloc; opened]?;
    let mut following = Vec::new(alloc);
    for _ in one {
        next_points(settings, one, other, &mut points, &mut following)?;
    }
    for _ in other {
        next_points(settings, one, other, &mut points, &mut following)?;
    }
    Ok(points.iter().any(|point| point.mark == last))
}

/// The points with one call more.
fn next_points(
    settings: &Settings,
    one: &[TimedCall],
    other: &[TimedCall],
    points: &mut Vec<OrderPoint>,
    following: &mut Vec<OrderPoint>,
) -> Result<(), AllocError> {
    following.clear();
    for point in points.iter() {
        let (call, beside) = (one.get(point.one), other.get(point.other));
        if let Some(mark) = mark_after(settings, point.mark, call, beside) {
            let one = point.one.wrapping_add(1);
            add(
                following,
                OrderPoint {
                    one,
                    mark,
                    ..*point
                },
            )?;
        }
        if let Some(mark) = mark_after(settings, point.mark, beside, call) {
            let other = point.other.wrapping_add(1);
            add(
                following,
                OrderPoint {
                    other,
                    mark,
                    ..*point
                },
            )?;
        }
    }
    swap(points, following);
    Ok(())
}

fn add(points: &mut Vec<OrderPoint>, point: OrderPoint) -> Result<(), AllocError> {
    if points.contains(&point) {
        return Ok(());
    }
    points.push(point)?;
    Ok(())
}

/// The mark after a call, if it may stand before the other thread's next call and its reply is that
/// of the sequential tracker. A call that was answered Contended changed nothing, and lost its
/// tries to a call beside it.
fn mark_after(
    settings: &Settings,
    mark: Mark,
    call: Option<&TimedCall>,
    beside: Option<&TimedCall>,
) -> Option<Mark> {
    let call = call?;
    let mut is_beside = false;
    if let Some(beside) = beside {
        if beside.end < call.begin {
            return None;
        }
        is_beside = beside.begin < call.end;
    }
    if call.reply == Reply::Contended {
        return if is_beside { Some(mark) } else { None };
    }
    // No other server has a soft mark, so there is room for one.
    let on = ServerState { mark, stamp: 0 };
    let transition = Transition::of(settings, true, call.number, call.op, on);
    if transition.reply != call.reply {
        return None;
    }
    Some(transition.change.unwrap_or(mark))
}
