//! The walk over the clients, each of which is to keep its limits.
ghost use Rattle.std.specs.Prelude.{◌≡◌, ◌≤◌, ◌⊎◌, [], length};
ghost use Rattle.tko_roster.specs.Rosters.{session_at};
ghost use Rattle.tko_worker.specs.Workers.{IsInOrder, OthersStay};
ghost use Rattle.tko_loop.specs.Walks.{AreWaits, HasWalked, IsHeaviestIf, IsJudged, IsRelieved, IsSeenIf, LeavesBy, bound_without, progress_at, waiting_at};

use std::alloc::Global;
use tko_pace::{ClientProgress, ClientTime, Verdict};
use tko_port::{End, Port, Talking};
use tko_worker::Worker;

/// How many clients leave for the bound in one walk at most.
const LEAVERS: u32 = 256;

/// Looks at each client. One that completed no request for `idle` milliseconds, or that took too
/// little of its replies, is to leave.
pub(crate) fn look_at_all<P, L: Port + Drop, T: Talking<P> + Drop>(
    clients: &mut Worker<L, T, P>,
    times: &mut Vec<ClientTime>,
    alloc: Global,
    now: u64,
    idle: u32,
)
    requires order { IsInOrder (T.awaited, T.talk, L.port) T.ready clients.old }
    ensures walked { HasWalked (T.awaited, T.talk, L.port) now idle times.old.items
        clients.old.mux.roster.slots times.new.items clients.new.mux.roster.slots }
    ensures order { IsInOrder (T.awaited, T.talk, L.port) T.ready clients.new }
{
    for number in 0..times.len() {
        look_at(clients, &mut times[number], alloc, number, now, idle);
    }
}

/// Looks at the client of a number, if one has it.
fn look_at<P, L: Port + Drop, T: Talking<P> + Drop>(
    clients: &mut Worker<L, T, P>,
    time: &mut ClientTime,
    alloc: Global,
    number: usize,
    now: u64,
    idle: u32,
)
    requires order { IsInOrder (T.awaited, T.talk, L.port) T.ready clients.old }
    ensures seen { IsSeenIf now idle
        (progress_at (T.awaited, T.talk, L.port) clients.old.mux.roster.slots number)
        time.old (session_at clients.old.mux.roster.slots number) time.new
        (session_at clients.new.mux.roster.slots number) }
    ensures others { OthersStay number clients.old.mux.roster.slots
        clients.new.mux.roster.slots }
    ensures order { IsInOrder (T.awaited, T.talk, L.port) T.ready clients.new }
{
    if let Some(progress) = progress_of(clients, number) {
        let verdict = time.look(now, progress, idle);
        judge(clients, alloc, number, verdict);
    }
}

/// Has a client leave that does not keep its limits.
fn judge<P, L: Port + Drop, T: Talking<P> + Drop>(
    clients: &mut Worker<L, T, P>,
    alloc: Global,
    number: usize,
    verdict: Verdict,
)
    requires order { IsInOrder (T.awaited, T.talk, L.port) T.ready clients.old }
    ensures judged { IsJudged verdict (session_at clients.old.mux.roster.slots number)
        (session_at clients.new.mux.roster.slots number) }
    ensures others { OthersStay number clients.old.mux.roster.slots
        clients.new.mux.roster.slots }
    ensures order { IsInOrder (T.awaited, T.talk, L.port) T.ready clients.new }
{
    match verdict {
        Verdict::Stays => {}
        Verdict::Silent => end(clients, alloc, number, End::ReadFailed),
        Verdict::Slow => end(clients, alloc, number, End::WriteFailed),
    }
}

/// Has a client leave.
fn end<P, L: Port + Drop, T: Talking<P> + Drop>(
    clients: &mut Worker<L, T, P>,
    alloc: Global,
    number: usize,
    why: End,
)
    requires order { IsInOrder (T.awaited, T.talk, L.port) T.ready clients.old }
    ensures leaves { LeavesBy why (session_at clients.new.mux.roster.slots number) }
    ensures others { OthersStay number clients.old.mux.roster.slots
        clients.new.mux.roster.slots }
    ensures order { IsInOrder (T.awaited, T.talk, L.port) T.ready clients.new }
{
    clients.gone(alloc, number, why);
}

/// How far the client of a number is, if one has it that is not to leave.
fn progress_of<P, L: Port + Drop, T: Talking<P> + Drop>(
    clients: &Worker<L, T, P>,
    number: usize,
) -> Option<ClientProgress>
    ensures { result
        ≡ progress_at (T.awaited, T.talk, L.port) clients.now.mux.roster.slots number }
{
    let tally = clients.tally(number)?;
    Some(ClientProgress {
        requests: tally.requests,
        taken: tally.taken,
        waiting: tally.waiting,
        is_asking: !clients.is_idle(number),
    })
}

/// While more bytes of replies wait than the bound, the client with the most of them is to leave.
/// After 256 of them the others are left to the next walk.
pub(crate) fn relieve<P, L: Port + Drop, T: Talking<P> + Drop>(
    clients: &mut Worker<L, T, P>,
    alloc: Global,
    bound: usize,
)
    requires order { IsInOrder (T.awaited, T.talk, L.port) T.ready clients.old }
    ensures relieved { IsRelieved (T.awaited, T.talk, L.port) bound clients.old.mux.roster.slots
        clients.new.mux.roster.slots }
    ensures order { IsInOrder (T.awaited, T.talk, L.port) T.ready clients.new }
{
    let mut waits = Vec::new(alloc);
    if heaviest(clients, waits.as_slice(), bound).is_none() {
        return;
    }
    note_waits(clients, &mut waits);
    for _ in 0..LEAVERS {
        let Some(number) = heaviest(clients, waits.as_slice(), bound) else {
            return;
        };
        dismiss(clients, &mut waits, alloc, number);
    }
}

/// Notes how many bytes wait for each client, as far as there is memory for that.
fn note_waits<P, L: Port + Drop, T: Talking<P> + Drop>(
    clients: &Worker<L, T, P>,
    waits: &mut Vec<usize>,
)
    requires none { waits.old.items ≡ [] }
    ensures noted { AreWaits (T.awaited, T.talk, L.port) clients.now.mux.roster.slots
        waits.new.items }
{
    for number in 0..clients.numbers() {
        if waits.push(waiting_of(clients, number)).is_err() {
            return;
        }
    }
}

/// Has a client leave for the bound. None of its bytes wait any more.
fn dismiss<P, L: Port + Drop, T: Talking<P> + Drop>(
    clients: &mut Worker<L, T, P>,
    waits: &mut [usize],
    alloc: Global,
    number: usize,
)
    requires waits { AreWaits (T.awaited, T.talk, L.port) clients.old.mux.roster.slots waits.old }
    requires order { IsInOrder (T.awaited, T.talk, L.port) T.ready clients.old }
    ensures waits { AreWaits (T.awaited, T.talk, L.port) clients.new.mux.roster.slots waits.new }
    ensures leaves { LeavesBy End.WriteFailed
        (session_at clients.new.mux.roster.slots number) }
    ensures others { OthersStay number clients.old.mux.roster.slots
        clients.new.mux.roster.slots }
    ensures order { IsInOrder (T.awaited, T.talk, L.port) T.ready clients.new }
{
    end(clients, alloc, number, End::WriteFailed);
    if waits.len() <= number {
        return;
    }
    waits[number] = 0;
}

/// The client with the most bytes that wait, where more wait than the bound.
fn heaviest<P, L: Port + Drop, T: Talking<P> + Drop>(
    clients: &Worker<L, T, P>,
    waits: &[usize],
    bound: usize,
) -> Option<usize>
    requires waits { AreWaits (T.awaited, T.talk, L.port) clients.now.mux.roster.slots waits.now }
    ensures { IsHeaviestIf (T.awaited, T.talk, L.port) clients.now.mux.roster.slots bound
        result }
{
    let mut left = Some(bound);
    let mut most = 0;
    for number in 0..clients.numbers() {
        left = without(left, waiting_in(clients, waits, number));
        most = heavier(clients, waits, most, number);
    }
    match left {
        Some(_) => None,
        None => Some(most),
    }
}

/// The one of two clients with more bytes that wait.
fn heavier<P, L: Port + Drop, T: Talking<P> + Drop>(
    clients: &Worker<L, T, P>,
    waits: &[usize],
    one: usize,
    other: usize,
) -> usize
    requires waits { AreWaits (T.awaited, T.talk, L.port) clients.now.mux.roster.slots waits.now }
    ensures one { waiting_at (T.awaited, T.talk, L.port) clients.now.mux.roster.slots one
        ≤ waiting_at (T.awaited, T.talk, L.port) clients.now.mux.roster.slots result }
    ensures other { waiting_at (T.awaited, T.talk, L.port) clients.now.mux.roster.slots other
        ≤ waiting_at (T.awaited, T.talk, L.port) clients.now.mux.roster.slots result }
    ensures either { (result ≡ one) ⊎ (result ≡ other) }
{
    if waiting_in(clients, waits, one) < waiting_in(clients, waits, other) {
        return other;
    }
    one
}

/// How many bytes of the replies of a number's client wait, as it was noted, or else as it is.
fn waiting_in<P, L: Port + Drop, T: Talking<P> + Drop>(
    clients: &Worker<L, T, P>,
    waits: &[usize],
    number: usize,
) -> usize
    requires waits { AreWaits (T.awaited, T.talk, L.port) clients.now.mux.roster.slots waits.now }
    ensures { result
        ≡ waiting_at (T.awaited, T.talk, L.port) clients.now.mux.roster.slots number }
{
    match waits.get(number) {
        Some(waiting) => *waiting,
        None => waiting_of(clients, number),
    }
}

/// How many bytes of replies wait in memory for a number's client, with those of a reply that is
/// under way.
pub(crate) fn waiting_of<P, L: Port + Drop, T: Talking<P> + Drop>(
    clients: &Worker<L, T, P>,
    number: usize,
) -> usize
    ensures { result
        ≡ waiting_at (T.awaited, T.talk, L.port) clients.now.mux.roster.slots number }
{
    match clients.tally(number) {
        Some(tally) => tally.held,
        None => 0,
    }
}

/// What is left of a bound without so many bytes; none where it is passed.
fn without(left: Option<usize>, waiting: usize) -> Option<usize>
    ensures { result ≡ bound_without left waiting }
{
    let left = left?;
    left.checked_sub(waiting)
}
