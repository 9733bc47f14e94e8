//! One client is served, or noted as one that is to be served; where it ends, that is counted.
ghost use Rattle.std.specs.Prelude.{◌≡◌, Some, []};
ghost use Rattle.std.specs.Bool.{OnFalse, OnTrue};
ghost use Rattle.tko_mux.specs.Linking.{IsNotForgotten};
ghost use Rattle.tko_mux.specs.Muxes.{IsMuxInOrder};
ghost use Rattle.tko_worker.specs.Acts.{HaveActed};
ghost use Rattle.tko_worker.specs.Servers.{ListsReached};
ghost use Rattle.tko_worker.specs.Serving.{OnceEnds, ServeCounts, SpentEnds};
ghost use Rattle.tko_worker.specs.Workers.{DropEnds, IsHere, IsListedFor, IsNotedToServe, IsNumberServed, ListEnds, OthersStay, OthersStayFor, RestAt};

use crate::ends::{CountedEnds, Protocol};
use crate::numbers::Numbers;
use std::alloc::Global;
use tko_mux::{Asking, Client, Delivery, Mux};
use tko_port::{
    ClientEvent, End, Guest, Port, Presence, SessionStage, SharedParts, Talking, Turned,
};
use tko_roster::Driven;

/// How often a client that asks a server each time and can go on is served at once. What is left
/// then is done in the next turn, after the other clients.
const ASKS: u32 = 64;

/// What serving a client once came to.
pub(crate) enum AfterServing {
    /// Nothing can be done for it, or it left.
    Rests,
    /// It asked a server, and can go on.
    AsksMore,
    /// It is to be served again later.
    Later,
}

/// Serves a client, and puts it off if it is to be served again.
pub(crate) fn serve<P, L: Port + Drop, T: Talking<P> + Drop>(
    mux: &mut Mux<Guest<L, T>, SharedParts<P>>,
    spent: &mut Numbers,
    ends: &mut CountedEnds,
    alloc: Global,
    number: usize,
    due: u64,
)
    requires order { IsMuxInOrder ⟦<Client<Guest<L, T>> as Driven<SharedParts<P>>>⟧.ready
        ⟦<Guest<L, T> as Asking<SharedParts<P>>>⟧.awaited mux.old }
    ensures served { IsNumberServed (T.awaited, T.talk, L.port)
        ⟦<Guest<L, T> as Asking<SharedParts<P>>>⟧.asks_for mux.old number due mux.new
        spent.old spent.new }
    ensures counted { ServeCounts (T.awaited, T.talk, L.port)
        ⟦<Guest<L, T> as Asking<SharedParts<P>>>⟧.asks_for (mux.old, ends.old) number due
        (mux.new, ends.new) }
    ensures others { OthersStay number mux.old.roster.slots mux.new.roster.slots }
    ensures acted { HaveActed (T.awaited, T.talk, L.port) (mux.old.roster, ends.old)
        (mux.new.roster, ends.new) }
    ensures order { IsMuxInOrder ⟦<Client<Guest<L, T>> as Driven<SharedParts<P>>>⟧.ready
        ⟦<Guest<L, T> as Asking<SharedParts<P>>>⟧.awaited mux.new }
{
    if is_spent(mux, ends, alloc, number, due) {
        put(mux, spent, ends, alloc, number);
    }
}

/// Notes the client that something reached, so that it is served.
pub(crate) fn list_reached<P, L: Port + Drop, T: Talking<P> + Drop>(
    mux: &mut Mux<Guest<L, T>, SharedParts<P>>,
    off: &Numbers,
    numbers: &mut Numbers,
    ends: &mut CountedEnds,
    alloc: Global,
    delivery: &Delivery<Turned>,
)
    requires order { IsMuxInOrder ⟦<Client<Guest<L, T>> as Driven<SharedParts<P>>>⟧.ready
        ⟦<Guest<L, T> as Asking<SharedParts<P>>>⟧.awaited mux.old }
    ensures ends { ListsReached (T.awaited, T.talk, L.port) (mux.old, ends.old)
        (Some delivery.now) off.now numbers.old (mux.new, ends.new) numbers.new }
    ensures listed { IsListedFor (T.awaited, T.talk, L.port) mux.new.roster.slots delivery.now
        off.now numbers.old numbers.new }
    ensures others { OthersStayFor delivery.now mux.old.roster.slots mux.new.roster.slots }
    ensures lines { mux.new.lines ≡ mux.old.lines }
    ensures order { IsMuxInOrder ⟦<Client<Guest<L, T>> as Driven<SharedParts<P>>>⟧.ready
        ⟦<Guest<L, T> as Asking<SharedParts<P>>>⟧.awaited mux.new }
{
    match delivery {
        Delivery::Reached(number, _) => list(mux, off, numbers, ends, alloc, *number),
        Delivery::Probed(_) | Delivery::Dropped(_) => {}
    }
}

/// Notes a number, so that its client is served, unless that waits among those that were put off.
pub(crate) fn list<P, L: Port + Drop, T: Talking<P> + Drop>(
    mux: &mut Mux<Guest<L, T>, SharedParts<P>>,
    off: &Numbers,
    numbers: &mut Numbers,
    ends: &mut CountedEnds,
    alloc: Global,
    number: usize,
)
    requires order { IsMuxInOrder ⟦<Client<Guest<L, T>> as Driven<SharedParts<P>>>⟧.ready
        ⟦<Guest<L, T> as Asking<SharedParts<P>>>⟧.awaited mux.old }
    ensures ends { ListEnds (T.awaited, T.talk, L.port) (mux.old, ends.old) number off.now
        numbers.old (mux.new, ends.new) numbers.new }
    ensures listed { IsNotedToServe (T.awaited, T.talk, L.port) mux.new.roster.slots number
        off.now numbers.old numbers.new }
    ensures lines { mux.new.lines ≡ mux.old.lines }
    ensures others { OthersStay number mux.old.roster.slots mux.new.roster.slots }
    ensures order { IsMuxInOrder ⟦<Client<Guest<L, T>> as Driven<SharedParts<P>>>⟧.ready
        ⟦<Guest<L, T> as Asking<SharedParts<P>>>⟧.awaited mux.new }
{
    if !off.has(number) {
        put(mux, numbers, ends, alloc, number);
    }
}

/// Puts a number behind the others. Without memory for that its client leaves, which counts as an
/// end for want of memory; if a request of it is under way it stays where it rests, and else leaves
/// as soon as none is.
fn put<P, L: Port + Drop, T: Talking<P> + Drop>(
    mux: &mut Mux<Guest<L, T>, SharedParts<P>>,
    numbers: &mut Numbers,
    ends: &mut CountedEnds,
    alloc: Global,
    number: usize,
)
    requires order { IsMuxInOrder ⟦<Client<Guest<L, T>> as Driven<SharedParts<P>>>⟧.ready
        ⟦<Guest<L, T> as Asking<SharedParts<P>>>⟧.awaited mux.old }
    ensures ends { ListEnds (T.awaited, T.talk, L.port) (mux.old, ends.old) number []
        numbers.old (mux.new, ends.new) numbers.new }
    ensures listed { IsNotedToServe (T.awaited, T.talk, L.port) mux.new.roster.slots number
        [] numbers.old numbers.new }
    ensures lines { mux.new.lines ≡ mux.old.lines }
    ensures others { OthersStay number mux.old.roster.slots mux.new.roster.slots }
    ensures order { IsMuxInOrder ⟦<Client<Guest<L, T>> as Driven<SharedParts<P>>>⟧.ready
        ⟦<Guest<L, T> as Asking<SharedParts<P>>>⟧.awaited mux.new }
{
    if numbers.push(number).is_err() {
        drop_client(mux, ends, alloc, number, End::Memory);
    }
}

/// The client of a number leaves, which is counted as this end. If a request of it is under way, it
/// stays where it rests, and else it is to leave so.
fn drop_client<P, L: Port + Drop, T: Talking<P> + Drop>(
    mux: &mut Mux<Guest<L, T>, SharedParts<P>>,
    ends: &mut CountedEnds,
    alloc: Global,
    number: usize,
    why: End,
)
    requires order { IsMuxInOrder ⟦<Client<Guest<L, T>> as Driven<SharedParts<P>>>⟧.ready
        ⟦<Guest<L, T> as Asking<SharedParts<P>>>⟧.awaited mux.old }
    ensures ends { DropEnds (T.awaited, T.talk, L.port) why (mux.old, ends.old) number
        (mux.new, ends.new) }
    ensures rests { RestAt (T.awaited, T.talk, L.port) mux.new.roster.slots number }
    ensures lines { mux.new.lines ≡ mux.old.lines }
    ensures others { OthersStay number mux.old.roster.slots mux.new.roster.slots }
    ensures order { IsMuxInOrder ⟦<Client<Guest<L, T>> as Driven<SharedParts<P>>>⟧.ready
        ⟦<Guest<L, T> as Asking<SharedParts<P>>>⟧.awaited mux.new }
{
    let Some(guest) = mux.close(number) else {
        if !is_resting(mux, number) {
            let _ = mux.act(alloc, number, ClientEvent::Leave(why), 0);
        }
        return;
    };
    let protocol = Protocol::of(&guest.port);
    drop(guest);
    ends.count(why, protocol);
}

/// Whether the client of a number, of which a request is under way, waits for what comes of that,
/// or is to leave then.
fn is_resting<P, L: Port + Drop, T: Talking<P> + Drop>(
    mux: &Mux<Guest<L, T>, SharedParts<P>>,
    number: usize,
) -> bool
    requires { IsNotForgotten ⟦<Guest<L, T> as Asking<SharedParts<P>>>⟧.awaited
        mux.now.roster.slots number }
    ensures rests { OnTrue result
        (RestAt (T.awaited, T.talk, L.port) mux.now.roster.slots number) }
    ensures here { OnFalse result (IsHere mux.now.roster.slots number) }
{
    let Some(guest) = mux.get(number) else {
        return true;
    };
    match guest.presence {
        Presence::Leaving(_) => true,
        Presence::Here => waits::<P, _>(&guest.talk),
    }
}

/// Whether a session can do nothing before something comes for one of its requests.
fn waits<P, T: Talking<P>>(talk: &T) -> bool
    ensures { OnTrue result ((T.talk talk.now).stage ≡ SessionStage.Waits) }
{
    talk.stage() == SessionStage::Waits
}

/// Serves a client, as long as it asks a server each time and can go on, and returns whether it is
/// to be served again later. If it ended, it leaves.
fn is_spent<P, L: Port + Drop, T: Talking<P> + Drop>(
    mux: &mut Mux<Guest<L, T>, SharedParts<P>>,
    ends: &mut CountedEnds,
    alloc: Global,
    number: usize,
    due: u64,
) -> bool
    requires order { IsMuxInOrder ⟦<Client<Guest<L, T>> as Driven<SharedParts<P>>>⟧.ready
        ⟦<Guest<L, T> as Asking<SharedParts<P>>>⟧.awaited mux.old }
    ensures ends { SpentEnds (T.awaited, T.talk, L.port)
        ⟦<Guest<L, T> as Asking<SharedParts<P>>>⟧.asks_for (mux.old, ends.old) number due result
        (mux.new, ends.new) }
    ensures counted { ServeCounts (T.awaited, T.talk, L.port)
        ⟦<Guest<L, T> as Asking<SharedParts<P>>>⟧.asks_for (mux.old, ends.old) number due
        (mux.new, ends.new) }
    ensures others { OthersStay number mux.old.roster.slots mux.new.roster.slots }
    ensures acted { HaveActed (T.awaited, T.talk, L.port) (mux.old.roster, ends.old)
        (mux.new.roster, ends.new) }
    ensures order { IsMuxInOrder ⟦<Client<Guest<L, T>> as Driven<SharedParts<P>>>⟧.ready
        ⟦<Guest<L, T> as Asking<SharedParts<P>>>⟧.awaited mux.new }
{
    for _ in 1..ASKS {
        match serve_once(mux, ends, alloc, number, due) {
            AfterServing::Rests => return false,
            AfterServing::AsksMore => {}
            AfterServing::Later => return true,
        }
    }
    match serve_once(mux, ends, alloc, number, due) {
        AfterServing::Rests => false,
        AfterServing::AsksMore => true,
        AfterServing::Later => true,
    }
}

/// Serves a client once. If it ended, it leaves.
fn serve_once<P, L: Port + Drop, T: Talking<P> + Drop>(
    mux: &mut Mux<Guest<L, T>, SharedParts<P>>,
    ends: &mut CountedEnds,
    alloc: Global,
    number: usize,
    due: u64,
) -> AfterServing
    requires order { IsMuxInOrder ⟦<Client<Guest<L, T>> as Driven<SharedParts<P>>>⟧.ready
        ⟦<Guest<L, T> as Asking<SharedParts<P>>>⟧.awaited mux.old }
    ensures ends { OnceEnds (T.awaited, T.talk, L.port)
        ⟦<Guest<L, T> as Asking<SharedParts<P>>>⟧.asks_for (mux.old, ends.old) number due result
        (mux.new, ends.new) }
    ensures others { OthersStay number mux.old.roster.slots mux.new.roster.slots }
    ensures acted { HaveActed (T.awaited, T.talk, L.port) (mux.old.roster, ends.old)
        (mux.new.roster, ends.new) }
    ensures order { IsMuxInOrder ⟦<Client<Guest<L, T>> as Driven<SharedParts<P>>>⟧.ready
        ⟦<Guest<L, T> as Asking<SharedParts<P>>>⟧.awaited mux.new }
{
    let Some(done) = mux.act(alloc, number, ClientEvent::Serve, due) else {
        return AfterServing::Rests;
    };
    if done.stopped.is_some() {
        return AfterServing::Later;
    }
    match done.did {
        Turned::Rests => AfterServing::Rests,
        Turned::Asks => AfterServing::Rests,
        Turned::AsksMore => AfterServing::AsksMore,
        Turned::Ends(why) => {
            drop_client(mux, ends, alloc, number, why);
            AfterServing::Rests
        }
        Turned::Spent | Turned::Noted | Turned::Took => AfterServing::Later,
    }
}
