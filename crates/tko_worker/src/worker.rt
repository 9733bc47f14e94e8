//! The clients of a worker.
ghost use Rattle.std.specs.Prelude.{◌≡◌, ◌<◌, ℕ, [], None, IfErr, IfOk, IsSome, OnErr, is_some, length};
ghost use Rattle.std.specs.Bool.{OnFalse, OnTrue};
ghost use Rattle.tko_roster.specs.Rosters.{session_at};
ghost use Rattle.tko_mux.specs.Linking.{IsNotForgotten, awaited_at};
ghost use Rattle.tko_mux.specs.Muxes.{MayJoin};
ghost use Rattle.tko_port.specs.Lives.{ReadyAt};
ghost use Rattle.tko_worker.specs.Acts.{HasActed};
ghost use Rattle.tko_worker.specs.Counts.{no_ends};
ghost use Rattle.tko_worker.specs.Workers.{IsClientOpened, IsInOrder, tally_at};

use crate::ends::CountedEnds;
use crate::numbers::Numbers;
use crate::serving::list;
use crate::{BinaryClients, EndCounts};
use std::alloc::Global;
use std::marker::Model;
use tko_bytes::NoMemory;
use tko_mux::{Asking, Mux};
use tko_port::{Guest, Port, Presence, SharedParts, Talking, Tally};

/// The clients of a worker, and which of them are to be served.
#[derive(Drop)]
pub struct Worker<L, T, P> {
    pub(crate) mux: Mux<Guest<L, T>, SharedParts<P>>,
    /// The numbers of clients that are to be served in this turn.
    pub(crate) touched: Numbers,
    /// The numbers of clients that were put off, since they had their share: they are served after
    /// the others, a few in each turn.
    pub(crate) spent: Numbers,
    /// The clients that ended since their ends were taken.
    pub(crate) ends: CountedEnds,
}

impl<L, T, P> Model for Worker<L, T, P> {
    ghost use Rattle.tko_worker.specs.Workers.{WorkerState};

    ghost Value = { WorkerState L T P };

    ghost view = { λ w. record {
      mux = w.mux;
      touched = w.touched;
      spent = w.spent;
      ends = w.ends;
    } };
}

impl<P: Drop, L: Port + Drop, T: Talking<P> + Drop> Worker<L, T, P> {
    /// No client, and so many servers, each of which has this long for a response. If memory runs
    /// out, what is shared comes back.
    pub fn new(
        alloc: Global,
        shared: SharedParts<P>,
        servers: usize,
        limit: u64,
    ) -> Result<Worker<L, T, P>, SharedParts<P>>
        ensures order { IfOk result (λ worker.
            IsInOrder (T.awaited, T.talk, L.port) T.ready worker) }
        ensures parts { IfOk result (λ worker. worker.mux.roster.parts ≡ shared) }
        ensures ends { IfOk result (λ worker. worker.ends ≡ no_ends) }
        ensures err { IfErr result (λ back. back ≡ shared) }
    {
        match Mux::new(alloc, shared, servers, limit) {
            Ok(mux) => Ok(Worker {
                mux,
                touched: Numbers::new(alloc),
                spent: Numbers::new(alloc),
                ends: CountedEnds::none(),
            }),
            Err(back) => Err(back),
        }
    }
}

impl<P, L: Port + Drop, T: Talking<P> + Drop> Worker<L, T, P> {
    /// A client came, whose session is ready for what was read from its port and written to it,
    /// nothing as a rule. It is served in this turn. Without memory for it, it is dropped.
    pub fn open(&mut self, alloc: Global, port: L, talk: T) -> Result<usize, NoMemory>
        requires session { MayJoin T.awaited (λ it.
            ReadyAt T.ready self.old.mux.roster.parts.parts (L.port port) it) talk }
        requires order { IsInOrder (T.awaited, T.talk, L.port) T.ready self.old }
        ensures ok { IfOk result (λ number.
            IsClientOpened (T.awaited, T.talk, L.port) self.old port talk number self.new) }
        ensures err { OnErr result (self.new ≡ self.old) }
        ensures acted { HasActed (T.awaited, T.talk, L.port) self.old self.new }
        ensures order { IsInOrder (T.awaited, T.talk, L.port) T.ready self.new }
    {
        let guest = Guest {
            port,
            talk,
            presence: Presence::Here,
        };
        let number = self.mux.open(guest)?;
        list(
            &mut self.mux,
            &self.spent,
            &mut self.touched,
            &mut self.ends,
            alloc,
            number,
        );
        Ok(number)
    }

    /// The parts that all sessions share.
    pub fn parts(&self) -> &P
        ensures { result.now ≡ self.now.mux.roster.parts.parts }
    {
        &self.mux.parts().parts
    }

    /// Whether there is no client.
    pub fn is_empty(&self) -> bool
        ensures none { OnTrue result ((number : ℕ) → number < length self.now.mux.roster.slots
            → session_at self.now.mux.roster.slots number ≡ None) }
        ensures some { OnFalse result
            ((number : ℕ) × IsSome (session_at self.now.mux.roster.slots number)) }
    {
        self.mux.is_empty()
    }

    /// Each number that a client has is below this one.
    pub fn numbers(&self) -> usize
        ensures { result ≡ length self.now.mux.roster.slots }
    {
        self.mux.numbers()
    }

    /// How many servers there are.
    pub fn servers(&self) -> usize
        ensures { result ≡ length self.now.mux.lines }
    {
        self.mux.servers()
    }

    /// What was done with the session of a number, if a client has it that is not to leave.
    pub fn tally(&self, number: usize) -> Option<Tally>
        ensures { result ≡ tally_at T.talk self.now.mux.roster.slots number }
    {
        let guest = self.mux.get(number)?;
        match guest.presence {
            Presence::Here => Some(guest.talk.tally()),
            Presence::Leaving(_) => None,
        }
    }

    /// Whether a client has the number.
    pub fn has_client(&self, number: usize) -> bool
        ensures { result ≡ is_some (session_at self.now.mux.roster.slots number) }
    {
        match self.mux.get(number) {
            Some(_) => true,
            None => false,
        }
    }

    /// Whether a client has the number, and no request of it is under way.
    pub fn is_idle(&self, number: usize) -> bool
        ensures idle { OnTrue result (awaited_at ⟦<Guest<L, T> as Asking<SharedParts<P>>>⟧.awaited
            self.now.mux.roster.slots number ≡ []) }
        ensures not { OnFalse result
            (IsNotForgotten ⟦<Guest<L, T> as Asking<SharedParts<P>>>⟧.awaited
            self.now.mux.roster.slots number) }
    {
        self.mux.is_idle(number)
    }

    /// How many clients ended since this was last called, by how they did.
    pub fn take_ends(&mut self) -> EndCounts
        ensures taken { result ≡ self.old.ends }
        ensures cleared { self.new ≡ record self.old { ends = no_ends } }
    {
        self.ends.take()
    }

    /// Those of the clients that ended since this was last called that spoke the binary protocol,
    /// if there are any: each was closed before any of its bytes came to its session. Contracts do
    /// not see them.
    pub fn take_binary(&mut self) -> Option<BinaryClients>
        ensures { self.new ≡ self.old }
    {
        self.ends.take_binary()
    }

    /// How many clients were put off. Where there is one, the next turn waits for no event.
    pub fn put_off(&self) -> usize
        ensures { result ≡ length self.now.spent }
    {
        self.spent.len()
    }

    /// The parts that all sessions shared, at the end. The clients are dropped, and their ports
    /// with them.
    pub fn into_parts(self) -> P
        ensures { result ≡ self.mux.roster.parts.parts }
    {
        let Worker {
            mux,
            touched,
            spent,
            ends,
        } = self;
        drop(ends);
        drop(touched);
        drop(spent);
        let SharedParts { parts, buffer } = mux.into_parts();
        drop(buffer);
        parts
    }
}
