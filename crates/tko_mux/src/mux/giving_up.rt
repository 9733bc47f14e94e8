//! A client whose request waits too long behind others goes on to its next target.
ghost use Rattle.std.specs.Prelude.{◌≡◌, ◌<◌, IfNone, IfOk, IfSome, OnErr, OnOk};
ghost use Rattle.std.specs.Bool.{OnFalse, OnTrue};
ghost use Rattle.tko_mux.specs.Awaits.{times_due};
ghost use Rattle.tko_mux.specs.Giving.{GiveUpEnds, GivesUpOn, HasToWait, IsOverdueOn, HasAnother, NoneOverdueOn};
ghost use Rattle.tko_mux.specs.Linking.{awaited_at};
ghost use Rattle.tko_mux.specs.Muxes.{IsMuxInOrder, MayShut};

use crate::{Asking, Came, Client, Delivery, Given, Line, Mux};
use std::alloc::Global;
use tko_bytes::NoMemory;
use tko_pipe::{Asker, Fate};
use tko_roster::{Driven, Roster};

/// One that is to give up: where it waits in the queue, and the number of its client.
#[derive(Clone, Copy)]
struct Overdue {
    place: usize,
    number: usize,
}

impl<P, S: Asking<P> + Drop> Mux<S, P> {
    /// The next of those that wait for a server gives up, if its time limit passed by `now` behind
    /// responses that are being received, and its route has another target. Its session takes that
    /// as a request that was aborted, and what it asks is due at `due`. Without memory for what the
    /// response is read by, nothing changes.
    pub fn give_up(
        &mut self,
        alloc: Global,
        server: usize,
        now: u64,
        due: u64,
    ) -> Result<Option<Delivery<S::Output>>, NoMemory>
        requires may_shut { MayShut self.old server }
        requires order { IsMuxInOrder ⟦<Client<S> as Driven<P>>⟧.ready S.awaited self.old }
        ensures ends { IfOk result (λ it. GiveUpEnds S.acts S.awaited S.asks_for S.waits_for
            S.has_next self.old server now due it self.new) }
        ensures err { OnErr result (self.new ≡ self.old) }
        ensures order { IsMuxInOrder ⟦<Client<S> as Driven<P>>⟧.ready S.awaited self.new }
    {
        let Some(it) = next_overdue(&self.lines[server], now) else {
            return Ok(None);
        };
        if !may_go_on(&self.roster, server, it.number) {
            return Ok(None);
        }
        let line = &mut self.lines[server];
        give_up_on(&self.roster, line, alloc, server, now, it)?;
        let done = self.give(alloc, it.number, server, Came::Fate(Fate::Aborted), due);
        Ok(Some(Delivery::Reached(it.number, done)))
    }
}

/// The next that is to give up on a line, if its session has another target.
fn next_overdue(line: &Line, now: u64) -> Option<Overdue>
    ensures some { IfSome result (λ it. IsOverdueOn line.now now it) }
    ensures none { IfNone result (NoneOverdueOn line.now now) }
{
    let pipe = line.pipe()?;
    let place = pipe.overdue(now)?;
    match pipe.waiter(place)?.by {
        Asker::Client(number) => Some(Overdue { place, number }),
        Asker::Probe | Asker::GaveUp(_) => None,
    }
}

/// Whether the session of a number has another target than this server.
fn may_go_on<P, S: Asking<P> + Drop>(
    roster: &Roster<Client<S>, P>,
    server: usize,
    number: usize,
) -> bool
    ensures yes { OnTrue result (HasAnother S.has_next roster.now server number) }
    ensures not { OnFalse result (HasToWait S.has_next roster.now server number) }
{
    match roster.get(number) {
        Some(client) => client.session.has_next_target(server),
        None => false,
    }
}

/// It gives up.
fn give_up_on<P, S: Asking<P> + Drop>(
    roster: &Roster<Client<S>, P>,
    line: &mut Line,
    alloc: Global,
    server: usize,
    now: u64,
    it: Overdue,
) -> Result<(), NoMemory>
    requires overdue { IsOverdueOn line.old now it }
    requires may { HasAnother S.has_next roster.now server it.number }
    requires awaits { 0 < times_due (awaited_at S.awaited roster.now.slots it.number) server }
    ensures ok { OnOk result
        (GivesUpOn S.waits_for S.has_next roster.now server now it.number line.old line.new) }
    ensures err { OnErr result (line.new ≡ line.old) }
{
    let Some(client) = roster.get(it.number) else {
        unreachable!();
    };
    line.give_up(alloc, now, it.place, client.session.request_to(server))
}
