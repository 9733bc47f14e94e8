//! The sessions of a worker's clients, and the lines to the servers that they wait on.
ghost use Rattle.std.specs.Prelude.{◌≡◌, ◌<◌, ℕ, [], None, Some, IfErr, IfNone, IfSome, IsSome, IfOk, OnErr, OnOk, length, option_copied, option_map, replicate};
ghost use Rattle.std.specs.Bool.{OnFalse, OnTrue};
ghost use Rattle.tko_pipe.specs.Pipes.{pushing};
ghost use Rattle.tko_roster.specs.Rosters.{AreReady, IfHas, IsAdmitted, IsReleased, session_at};
ghost use Rattle.tko_mux.specs.Lines.{IsLinePushed, idle_line};
ghost use Rattle.tko_mux.specs.Linking.{AreLinked, IsAsker, IsLoose, IsNotForgotten, awaited_at, waiters_at};
ghost use Rattle.tko_mux.specs.Muxes.{HasRequest, IsMade, IsMuxInOrder, IsPushedFor, IsRequestSent, IsSendStopped, LinesStay, MayJoin, OneLineChanges, SendEnds, begun_mux};

mod delivery;
mod giving_up;
mod wire;

use crate::{Asking, Came, Client, Given, Line};
pub use delivery::{Delivery, Done};
use std::alloc::Global;
use std::marker::Model;
use tko_bytes::NoMemory;
use tko_model::{Clear, Duty};
use tko_pipe::Asker;
use tko_roster::{Driven, PartsVisit, Roster};
use tko_text::Request;

/// The sessions by number, and for each server the connections that their requests go out on.
#[derive(Drop)]
pub struct Mux<S, P> {
    /// How long a response may take, in milliseconds.
    limit: u64,
    roster: Roster<Client<S>, P>,
    lines: Vec<Line>,
}

impl<S, P> Model for Mux<S, P> {
    ghost use Rattle.tko_mux.specs.Muxes.{MuxState};

    ghost Value = { MuxState S P };

    ghost view = { λ m. record { limit = m.limit; roster = m.roster; lines = m.lines.items } };
}

impl<P: Drop, S: Asking<P> + Drop> Mux<S, P> {
    /// Nobody has a number, and there is no connection to any of so many servers. If memory runs
    /// out, the parts come back.
    pub fn new(alloc: Global, parts: P, servers: usize, limit: u64) -> Result<Mux<S, P>, P>
        ensures state { IfOk result (λ mux. mux ≡ begun_mux limit parts servers) }
        ensures err { IfErr result (λ back. back ≡ parts) }
        ensures order { IfOk result (λ mux.
            IsMuxInOrder ⟦<Client<S> as Driven<P>>⟧.ready S.awaited mux) }
    {
        let Ok(lines) = idle_lines(alloc, servers) else {
            return Err(parts);
        };
        Ok(Mux {
            limit,
            roster: Roster::new(alloc, parts),
            lines,
        })
    }
}

impl<P, S: Asking<P> + Drop> Mux<S, P> {
    /// Gives a session a number that no other has. Without memory for it, the session is dropped.
    pub fn open(&mut self, session: S) -> Result<usize, NoMemory>
        requires session { MayJoin S.awaited (S.ready self.old.roster.parts) session }
        requires order { IsMuxInOrder ⟦<Client<S> as Driven<P>>⟧.ready S.awaited self.old }
        ensures ok { IfOk result (λ number.
            IsAdmitted self.old.roster number (record { session = session }) self.new.roster) }
        ensures err { OnErr result (self.new ≡ self.old) }
        ensures lines { LinesStay self.old self.new }
        ensures order { IsMuxInOrder ⟦<Client<S> as Driven<P>>⟧.ready S.awaited self.new }
    {
        self.roster.admit(Client { session })
    }

    /// Frees a number and returns its session, unless a request of it is under way: then the
    /// session keeps the number until it took what comes of that.
    pub fn close(&mut self, number: usize) -> Option<S>
        requires order { IsMuxInOrder ⟦<Client<S> as Driven<P>>⟧.ready S.awaited self.old }
        ensures some { IfSome result (λ session. IsReleased ⟦<Client<S> as Driven<P>>⟧.awaited
            self.old.roster number (record { session = session }) self.new.roster) }
        ensures none { IfNone result ((self.new ≡ self.old)
            × IsNotForgotten S.awaited self.old.roster.slots number) }
        ensures lines { LinesStay self.old self.new }
        ensures order { IsMuxInOrder ⟦<Client<S> as Driven<P>>⟧.ready S.awaited self.new }
    {
        if !self.is_idle(number) {
            return None;
        }
        Some(self.roster.release(number)?.session)
    }

    /// Whether the number has a session, and no request of it is under way.
    pub fn is_idle(&self, number: usize) -> bool
        ensures idle { OnTrue result (awaited_at S.awaited self.now.roster.slots number ≡ []) }
        ensures not { OnFalse result (IsNotForgotten S.awaited self.now.roster.slots number) }
    {
        match self.roster.get(number) {
            Some(client) => !client.session.is_asking(),
            None => false,
        }
    }

    /// Each number that has a session is below this one.
    pub fn numbers(&self) -> usize
        ensures { result ≡ length self.now.roster.slots }
    {
        self.roster.numbers()
    }

    /// The session of a number.
    pub fn get(&self, number: usize) -> Option<&S>
        ensures { option_copied result
            ≡ option_map (λ client. client.session) (session_at self.now.roster.slots number) }
    {
        match self.roster.get(number) {
            Some(client) => Some(&client.session),
            None => None,
        }
    }

    /// The parts that all sessions share.
    pub fn parts(&self) -> &P
        ensures { result.now ≡ self.now.roster.parts }
    {
        self.roster.parts()
    }

    /// Whether no number has a session.
    pub fn is_empty(&self) -> bool
        ensures none { OnTrue result ((number : ℕ) → number < length self.now.roster.slots
            → session_at self.now.roster.slots number ≡ None) }
        ensures some { OnFalse result
            ((number : ℕ) × IsSome (session_at self.now.roster.slots number)) }
    {
        self.roster.is_empty()
    }

    /// Makes one call of the number's session, if it has one. If that asks a server, the response
    /// is due at this moment.
    pub fn act(
        &mut self,
        alloc: Global,
        number: usize,
        input: S::Input,
        due: u64,
    ) -> Option<Done<S::Output>>
        requires order { IsMuxInOrder ⟦<Client<S> as Driven<P>>⟧.ready S.awaited self.old }
        requires may { IfHas self.old.roster.slots number (λ client. S.may client.session input) }
        ensures some { IfSome result (λ done. IsMade S.acts S.awaited S.asks_for self.old number
            (Given.Input input) due done self.new) }
        ensures none { IfNone result (session_at self.old.roster.slots number ≡ None) }
        ensures kept { IfNone result (self.new ≡ self.old) }
        ensures order { IsMuxInOrder ⟦<Client<S> as Driven<P>>⟧.ready S.awaited self.new }
    {
        let (asked, did) = self.roster.act(number, Given::Input(input))?;
        let stopped = self.send(alloc, number, asked, due);
        Some(Done { did, stopped })
    }

    /// The parts that all sessions shared, once none is called any more. The sessions and the
    /// connections are dropped.
    pub fn into_parts(self) -> P
        ensures { result ≡ self.roster.parts }
    {
        let Mux {
            roster,
            lines,
            limit: _,
        } = self;
        drop(lines);
        roster.into_parts()
    }

    /// Does something with the parts that all sessions share, which leaves them ready.
    pub fn visit<V: PartsVisit<P>>(&mut self, visit: V) -> V::Output
        requires stays { (old new : P) → V.stays old new → S.stays old new }
        requires order { IsMuxInOrder ⟦<Client<S> as Driven<P>>⟧.ready S.awaited self.old }
        ensures does { V.does visit self.old.roster.parts result self.new.roster.parts }
        ensures slots { self.new.roster.slots ≡ self.old.roster.slots }
        ensures lines { LinesStay self.old self.new }
        ensures order { IsMuxInOrder ⟦<Client<S> as Driven<P>>⟧.ready S.awaited self.new }
    {
        self.roster.visit(visit)
    }

    /// A probe of a server is to be sent, whose response is due at this moment.
    pub fn probe(&mut self, alloc: Global, duty: Duty, due: u64) -> Result<(), NoMemory>
        requires server { duty < length self.old.lines }
        requires linked { AreLinked S.awaited self.old.roster.slots self.old.lines }
        ensures ok { OnOk result (OneLineChanges (λ was it. IsLinePushed self.old.limit was
            (pushing Asker.Probe due Request.Version) it) self.old duty self.new) }
        ensures err { OnErr result (self.new ≡ self.old) }
        ensures linked { AreLinked S.awaited self.new.roster.slots self.new.lines }
    {
        let line = &mut self.lines[duty.server()];
        line.push(alloc, self.limit, Asker::Probe, due, &Request::Version)
    }

    /// Sends the request of a session that asks a server, if it does. Without memory for that its
    /// session is told, and what that did is returned.
    fn send(
        &mut self,
        alloc: Global,
        number: usize,
        asked: Option<Clear>,
        due: u64,
    ) -> Option<S::Output>
        requires asked { IsAsker (awaited_at S.awaited self.old.roster.slots)
            (waiters_at self.old.lines) number asked }
        requires request { HasRequest S.asks_for self.old.roster.slots number asked }
        requires ready { AreReady ⟦<Client<S> as Driven<P>>⟧.ready self.old.roster }
        ensures ends { SendEnds S.acts S.awaited S.asks_for self.old number asked due result
            self.new }
        ensures ready { AreReady ⟦<Client<S> as Driven<P>>⟧.ready self.new.roster }
        ensures linked { AreLinked S.awaited self.new.roster.slots self.new.lines }
    {
        let clear = asked?;
        let to = clear.server();
        if self.push(alloc, number, clear, due) {
            return None;
        }
        Some(self.stop(number, to))
    }

    /// Puts the request of a session that asks this server on its line, and returns whether that
    /// was possible.
    fn push(&mut self, alloc: Global, number: usize, clear: Clear, due: u64) -> bool
        requires request { IfHas self.old.roster.slots number
            (λ client. IsSome (S.asks_for client.session)) }
        requires loose { IsLoose (awaited_at S.awaited self.old.roster.slots)
            (waiters_at self.old.lines) number clear }
        ensures sent { OnTrue result (IsRequestSent S.asks_for self.old number clear due self.new) }
        ensures linked { OnTrue result (AreLinked S.awaited self.new.roster.slots self.new.lines) }
        ensures not { OnFalse result (self.new ≡ self.old) }
        ensures roster { self.new.roster ≡ self.old.roster }
    {
        let server = clear.server();
        if server >= self.lines.len() {
            return false;
        }
        push_for(
            &self.roster,
            &mut self.lines[server],
            alloc,
            self.limit,
            number,
            due,
        )
    }

    /// The session of a client is told that memory ran out before its request to this server was
    /// sent.
    fn stop(&mut self, number: usize, server: usize) -> S::Output
        requires loose { IsLoose (awaited_at S.awaited self.old.roster.slots)
            (waiters_at self.old.lines) number server }
        requires ready { AreReady ⟦<Client<S> as Driven<P>>⟧.ready self.old.roster }
        ensures stopped { IsSendStopped S.acts S.awaited self.old number server result self.new }
        ensures ready { AreReady ⟦<Client<S> as Driven<P>>⟧.ready self.new.roster }
        ensures linked { AreLinked S.awaited self.new.roster.slots self.new.lines }
    {
        let Some((_, did)) = self.roster.act(number, unsent(server)) else {
            unreachable!();
        };
        did
    }
}

/// Puts the request of the number's session on a line, and returns whether that was possible.
fn push_for<P, S: Asking<P> + Drop>(
    roster: &Roster<Client<S>, P>,
    line: &mut Line,
    alloc: Global,
    limit: u64,
    number: usize,
    due: u64,
) -> bool
    requires { IfHas roster.now.slots number (λ client. IsSome (S.asks_for client.session)) }
    ensures pushed { OnTrue result
        (IsPushedFor S.asks_for roster.now limit number due line.old line.new) }
    ensures not { OnFalse result (line.new ≡ line.old) }
{
    let Some(client) = roster.get(number) else {
        return false;
    };
    let request = client.session.request();
    match line.push(alloc, limit, Asker::Client(number), due, request) {
        Ok(()) => true,
        Err(_) => false,
    }
}

/// What a session is told whose request to this server could not be sent.
fn unsent<I>(server: usize) -> Given<I>
    ensures { result ≡ Given.Outcome server Came.Unsent }
{
    Given::Outcome(server, Came::Unsent)
}

/// Lines on which there is no connection.
fn idle_lines(alloc: Global, count: usize) -> Result<Vec<Line>, NoMemory>
    ensures { IfOk result (λ lines. lines.items ≡ replicate count idle_line) }
{
    let mut lines = Vec::new(alloc);
    for _ in 0..count {
        lines.push(Line::new())?;
    }
    Ok(lines)
}
