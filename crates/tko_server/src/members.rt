//! The members of a server's pool.
ghost use Rattle.std.specs.Prelude.{◌≡◌, ◌<◌, ◌↔◌, ℕ, All, IfOk, IsTrue, is_some, length, map};
ghost use Rattle.tko_steps.specs.declared.phase.ThreadState.TheVariants.{Idle};
ghost use Rattle.tko_tracker.specs.Seated.{IsOf};
ghost use Rattle.tko_server.specs.Runs.{tracker_settings};
ghost use Rattle.tko_threads.specs.Workers.{IsEquipped};
ghost use Rattle.tko_server.specs.Members.{AreMembersOf, HasOptions};

use crate::Options;
use crate::crew::WorkerKind;
use crate::naming::Naming;
use crossbeam_channel::Receiver;
use std::alloc::Global;
use std::sync::Mutex;
use tko_accept::{AcceptedClient, Allotment, Clients, FirstAsk};
use tko_bytes::NoMemory;
use tko_desk::{Book, Share};
use tko_events::{Log, WorkerLog};
use tko_health::{Seating, SharedSeating};
use tko_io::{IoRuntime, MonotonicClock};
use tko_links::Links;
use tko_prober::Probers;
use tko_tcp::{TcpLinks, TcpWire};
use tko_threads::{Account, Member, WorkerParts};
use tko_tracker::{IdlePass, Named};

/// What all workers of a server share.
#[derive(Drop)]
pub(crate) struct WorkersShared<'o, N: Named> {
    pub(crate) options: &'o Options,
    pub(crate) seating: SharedSeating<'o, N>,
    pub(crate) book: Mutex<Book>,
    pub(crate) log: &'o Log,
    /// Looks up the names of the servers meanwhile.
    pub(crate) naming: Naming,
    pub(crate) kind: WorkerKind,
    /// How many of the workers serve clients: of blocking ones the others end at once, and of
    /// event-driven ones no others are started.
    pub(crate) allotment: Allotment,
}

/// What one worker of a server is started with.
pub(crate) type ServerMember<'a, 'o, N> = Member<
    'a,
    Clients,
    IdlePass,
    SharedSeating<'o, N>,
    TcpLinks,
    MonotonicClock,
>;

/// What one of them works with.
type ServerParts<'a, 'o, N> = WorkerParts<'a, SharedSeating<'o, N>, TcpLinks, MonotonicClock>;

impl<'o, N: Named> WorkersShared<'o, N> {
    /// A member for each pass, in order, with the share of the same place. All of them take the
    /// clients from one channel.
    pub(crate) fn members<'a, R: IoRuntime>(
        &'a self,
        rt: &R,
        alloc: Global,
        passes: Vec<IdlePass>,
        shares: &'a mut [Share],
        accepted: &Receiver<AcceptedClient>,
        first_ask: &FirstAsk,
    ) -> Result<Vec<ServerMember<'a, 'o, N>>, NoMemory>
        requires own { All (λ idle. IsOf N.tracker idle) passes.items }
        requires passes { length passes.items ≡ N.tracker.settings.threads }
        requires shares { length shares.old ≡ N.tracker.settings.threads }
        requires asked { N.tracker.settings ≡ tracker_settings self.now.options.now }
        ensures ready { IfOk result (λ members.
            AreMembersOf self.now.options.now N.tracker passes.items members.items) }
    {
        let mut members = Vec::new(alloc);
        for (idle, share) in passes.into_iter().zip(shares.iter_mut()) {
            let log = WorkerLog::open(Some(self.log), idle.number())?;
            members.push(Member {
                source: self.source(&idle, accepted, first_ask)?,
                idle,
                parts: self.parts(rt, alloc, log, share)?,
            })?;
        }
        Ok(members)
    }

    /// The clients of the worker with this pass.
    fn source(
        &self,
        idle: &IdlePass,
        accepted: &Receiver<AcceptedClient>,
        first_ask: &FirstAsk,
    ) -> Result<Clients, NoMemory>
        ensures { IfOk result (λ source. (number : ℕ) → idle.now.pass.state ≡ Idle number
            → IsTrue (is_some source.accepted) ↔ (number < self.now.allotment.workers)) }
    {
        let accepted = if idle.number() < self.allotment.workers {
            Some(accepted.clone()?)
        } else {
            None
        };
        let first_ask = Some(first_ask.another()?);
        Ok(Clients {
            first_ask,
            accepted,
        })
    }

    /// What one worker works with, which has this share.
    fn parts<'a, R: IoRuntime>(
        &'a self,
        rt: &R,
        alloc: Global,
        log: WorkerLog,
        share: &'a mut Share,
    ) -> Result<ServerParts<'a, 'o, N>, NoMemory>
        requires asked { N.tracker.settings ≡ tracker_settings self.now.options.now }
        ensures equipped { IfOk result (IsEquipped
            ⟦<SharedSeating<'o, N> as Seating>⟧.servers
            ⟦<TcpLinks as Links>⟧.servers) }
        ensures asked { IfOk result (HasOptions self.now.options.now) }
    {
        let addresses = self.options.config.addresses();
        let names = self.naming.names()?;
        let wire = TcpWire::new(alloc, addresses, names, self.options.timeout)?;
        Ok(WorkerParts {
            seating: &self.seating,
            links: TcpLinks::new(alloc, wire)?,
            config: self.options.config.copy(alloc)?,
            probers: Probers::new(alloc, self.options.delays, addresses.len())?,
            clock: MonotonicClock::new(rt),
            account: Account {
                book: &self.book,
                share,
            },
            log,
        })
    }
}
