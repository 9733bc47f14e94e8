//! What waits for clients is offered to them again.
ghost use Rattle.std.specs.Prelude.{◌≡◌, length};
ghost use Rattle.tko_roster.specs.Rosters.{session_at};
ghost use Rattle.tko_worker.specs.Workers.{IsInOrder, OthersStay};
ghost use Rattle.tko_loop.specs.Offers.{AreOffered, IsWritableIf, outgoing_at};

use std::alloc::Global;
use tko_port::{Port, Talking};
use tko_worker::Worker;

/// Has what waits for each client be written as far as its socket takes it. The system says that a
/// socket is writable only once a third of its buffer is free, so a client that reads slowly would
/// seem to take nothing for long.
pub(crate) fn offer_again<P, L: Port + Drop, T: Talking<P> + Drop>(
    clients: &mut Worker<L, T, P>,
    alloc: Global,
)
    requires order { IsInOrder (T.awaited, T.talk, L.port) T.ready clients.old }
    ensures offered { AreOffered (T.awaited, T.talk, L.port)
        (length clients.old.mux.roster.slots)
        clients.old.mux.roster.slots clients.new.mux.roster.slots }
    ensures order { IsInOrder (T.awaited, T.talk, L.port) T.ready clients.new }
{
    for number in 0..clients.numbers() {
        if 0 < outgoing_of(clients, number) {
            offer(clients, alloc, number);
        }
    }
}

/// How many bytes of the replies of a number's client may be written.
fn outgoing_of<P, L: Port + Drop, T: Talking<P> + Drop>(
    clients: &Worker<L, T, P>,
    number: usize,
) -> usize
    ensures { result
        ≡ outgoing_at (T.awaited, T.talk, L.port) clients.now.mux.roster.slots number }
{
    match clients.tally(number) {
        Some(tally) => tally.waiting,
        None => 0,
    }
}

/// Has what waits for a client be written.
fn offer<P, L: Port + Drop, T: Talking<P> + Drop>(
    clients: &mut Worker<L, T, P>,
    alloc: Global,
    number: usize,
)
    requires order { IsInOrder (T.awaited, T.talk, L.port) T.ready clients.old }
    ensures writable { IsWritableIf L.port (session_at clients.new.mux.roster.slots number) }
    ensures others { OthersStay number clients.old.mux.roster.slots
        clients.new.mux.roster.slots }
    ensures order { IsInOrder (T.awaited, T.talk, L.port) T.ready clients.new }
{
    clients.writable(alloc, number);
}
