//! Who gets what a server answered, or what became of a request without an answer.
ghost use Rattle.std.specs.Prelude.{◌≡◌, ◌<◌, false, None, Some, IfNone, IsSome, length};
ghost use Rattle.tko_roster.specs.Rosters.{AreReady};
ghost use Rattle.tko_mux.specs.Awaits.{times_due};
ghost use Rattle.tko_mux.specs.Lines.{first_on, is_gone_on};
ghost use Rattle.tko_mux.specs.Linking.{AreLinked, AwaitsFirst, IsFree, IsLoose, awaited_at, waiters_at};
ghost use Rattle.tko_mux.specs.Muxes.{HasNoneLeaving, IsDelivered, IsMade, IsMuxInOrder, IsReadFor, IsResponseRead, MayShut, ReadsOn, TellEnds, line_at};

use crate::{Asking, Came, Client, Given, Line, Mux};
use std::alloc::Global;
use tko_pipe::{Asker, ShutCause};
use tko_roster::{Driven, Roster};
use tko_text::{Request, Response};

/// What a session did.
#[derive(Debug, Drop)]
pub struct Done<O> {
    pub did: O,
    /// What it did where its request could not be sent for want of memory.
    pub stopped: Option<O>,
}

/// Who got what came.
#[derive(Debug, Drop)]
pub enum Delivery<O> {
    /// The session of this number, which did this.
    Reached(usize, Done<O>),
    /// This came for a probe.
    Probed(Came),
    /// What came was for the client of this number, which had given up, and was dropped.
    Dropped(usize),
}

impl<P, S: Asking<P> + Drop> Mux<S, P> {
    /// Reads the next response of a server, as soon as all of it came, and gives it to the session
    /// of the first that waits for one. If that asks a server, the response is due at this moment.
    /// An `Err` says why this shut the connection.
    pub fn take(
        &mut self,
        alloc: Global,
        server: usize,
        due: u64,
    ) -> Result<Option<Delivery<S::Output>>, ShutCause>
        requires may_shut { MayShut self.old server }
        requires order { IsMuxInOrder ⟦<Client<S> as Driven<P>>⟧.ready S.awaited self.old }
        ensures read { IsResponseRead S.acts S.awaited S.asks_for S.waits_for self.old
            server due result self.new }
        ensures order { IsMuxInOrder ⟦<Client<S> as Driven<P>>⟧.ready S.awaited self.new }
    {
        match read_first(&self.roster, &mut self.lines[server], alloc, server) {
            Ok(Some((by, response))) => {
                Ok(Some(self.deliver(alloc, server, by, Came::Response(response), due)))
            }
            Ok(None) => Ok(None),
            Err(cause) => Err(cause),
        }
    }

    /// The next of those that waited on a connection to this server that was shut is told what
    /// became of its request, as long as there is one.
    pub fn leave(&mut self, alloc: Global, server: usize, due: u64) -> Option<Delivery<S::Output>>
        requires server { server < length self.old.lines }
        requires order { IsMuxInOrder ⟦<Client<S> as Driven<P>>⟧.ready S.awaited self.old }
        ensures left { TellEnds S.acts S.awaited S.asks_for self.old server due result self.new }
        ensures none { IfNone result (HasNoneLeaving (line_at self.new server)) }
        ensures order { IsMuxInOrder ⟦<Client<S> as Driven<P>>⟧.ready S.awaited self.new }
    {
        match self.lines[server].leave() {
            Some((by, fate)) => Some(self.deliver(alloc, server, by, Came::Fate(fate), due)),
            None => None,
        }
    }

    /// What came from a server for the first that waited, whose request is in no queue now, reaches
    /// it.
    fn deliver(
        &mut self,
        alloc: Global,
        server: usize,
        by: Asker,
        came: Came,
        due: u64,
    ) -> Delivery<S::Output>
        requires free { IsFree (awaited_at S.awaited self.old.roster.slots)
            (waiters_at self.old.lines) server by }
        requires ready { AreReady ⟦<Client<S> as Driven<P>>⟧.ready self.old.roster }
        ensures delivered { IsDelivered S.acts S.awaited S.asks_for self.old server by came due
            result self.new }
        ensures ready { AreReady ⟦<Client<S> as Driven<P>>⟧.ready self.new.roster }
        ensures linked { AreLinked S.awaited self.new.roster.slots self.new.lines }
    {
        match by {
            Asker::Client(number) => {
                Delivery::Reached(number, self.give(alloc, number, server, came, due))
            }
            Asker::Probe => Delivery::Probed(came),
            Asker::GaveUp(number) => Delivery::Dropped(number),
        }
    }

    /// The session of a client takes what came of its request to this server, which is in no queue
    /// now.
    pub(super) fn give(
        &mut self,
        alloc: Global,
        number: usize,
        server: usize,
        came: Came,
        due: u64,
    ) -> Done<S::Output>
        requires loose { IsLoose (awaited_at S.awaited self.old.roster.slots)
            (waiters_at self.old.lines) number server }
        requires ready { AreReady ⟦<Client<S> as Driven<P>>⟧.ready self.old.roster }
        ensures made { IsMade S.acts S.awaited S.asks_for self.old number
            (Given.Outcome server came) due result self.new }
        ensures ready { AreReady ⟦<Client<S> as Driven<P>>⟧.ready self.new.roster }
        ensures linked { AreLinked S.awaited self.new.roster.slots self.new.lines }
    {
        let Some((asked, did)) = self.roster.act(number, Given::Outcome(server, came)) else {
            unreachable!();
        };
        let stopped = self.send(alloc, number, asked, due);
        Done { did, stopped }
    }
}

/// Takes the next response of a server on its line, if somebody waits for one there.
fn read_first<P, S: Asking<P> + Drop>(
    roster: &Roster<Client<S>, P>,
    line: &mut Line,
    alloc: Global,
    server: usize,
) -> Result<Option<(Asker, Response)>, ShutCause>
    requires awaits { AwaitsFirst (awaited_at S.awaited roster.now.slots) server
        (first_on line.old.pipe) }
    requires left { line.old.ended ≡ None }
    ensures { ReadsOn S.waits_for roster.now server line.old result line.new }
{
    let Some(waiter) = line.first() else {
        return Ok(None);
    };
    match waiter.by {
        Asker::Client(number) => read_for(roster, line, alloc, number, server),
        Asker::Probe => line.take(alloc, &Request::Version),
        Asker::GaveUp(_) => line.take_dropped(alloc),
    }
}

/// The same, where this client waits for it.
fn read_for<P, S: Asking<P> + Drop>(
    roster: &Roster<Client<S>, P>,
    line: &mut Line,
    alloc: Global,
    number: usize,
    server: usize,
) -> Result<Option<(Asker, Response)>, ShutCause>
    requires awaits { 0 < times_due (awaited_at S.awaited roster.now.slots number) server }
    requires pipe { IsSome line.old.pipe }
    requires here { is_gone_on line.old.pipe ≡ false }
    requires left { line.old.ended ≡ None }
    ensures { IsReadFor S.waits_for roster.now server (Asker.Client number) line.old result
        line.new }
{
    let Some(client) = roster.get(number) else {
        unreachable!();
    };
    line.take(alloc, client.session.request_to(server))
}
