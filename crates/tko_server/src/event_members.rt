//! The members of a server whose workers are event-driven.
ghost use Rattle.std.specs.Prelude.{◌≡◌, All, IfOk, length, min};
ghost use Rattle.tko_tracker.specs.Seated.{IsOf};
ghost use Rattle.tko_event_threads.specs.Worked.{IsEventEquipped};
ghost use Rattle.tko_server.specs.EventMembers.{AreEventMembersOf, AreServersAt, HasEventOptions, IsEventReadyAt, event_limits};
ghost use Rattle.tko_server.specs.Runs.{tracker_settings};

use crate::Options;
use crate::members::WorkersShared;
use std::alloc::Global;
use tko_accept::{ClientPlace, FirstAsk, MAX_QUEUED};
use tko_bytes::NoMemory;
use tko_desk::Share;
use tko_event_threads::EventParts;
use tko_events::WorkerLog;
use tko_health::{Seating, SharedSeating};
use tko_io::IoRuntime;
use tko_loop::{Addresses, Handover, LoopEntry, LoopLimits};
use tko_prober::Probers;
use tko_threads::Account;
use tko_tracker::{IdlePass, Named};

/// How many bytes of replies may wait in one event-driven worker: 64 MiB.
const UNWRITTEN: usize = 67_108_864;

/// What an event-driven worker is started with.
#[derive(Drop)]
pub(crate) struct EventMember<'a, P, S> {
    pub(crate) idle: P,
    pub(crate) parts: EventParts<'a, S, ClientPlace>,
}

/// What one of a server is started with.
pub(crate) type ServerEventMember<'a, 'o, N> = EventMember<'a, IdlePass, SharedSeating<'o, N>>;

impl<'o, N: Named> WorkersShared<'o, N> {
    /// How many event-driven workers there are: those that the process has descriptors for.
    pub(crate) fn event_workers(&self) -> u32
        ensures { result
            ≡ min self.now.allotment.workers self.now.options.now.settings.threads }
    {
        let options = self.options;
        self.allotment.workers.min(options.settings.threads)
    }

    /// A member for each pass, in order, with the share of the same place, and the ways to them.
    pub(crate) fn event_members<'a, R: IoRuntime>(
        &'a self,
        rt: &R,
        alloc: Global,
        passes: Vec<IdlePass>,
        shares: &'a mut [Share],
        first_ask: &FirstAsk,
    ) -> Result<
        (
            Vec<ServerEventMember<'a, 'o, N>>,
            Vec<Handover<ClientPlace>>,
        ),
        NoMemory,
    >
        requires own { All (λ idle. IsOf N.tracker idle) passes.items }
        requires shares { length shares.old ≡ length passes.items }
        requires asked { N.tracker.settings ≡ tracker_settings self.now.options.now }
        ensures ready { IfOk result (λ made.
            AreEventMembersOf self.now.options.now N.tracker passes.items made.0.items) }
        ensures ways { IfOk result (λ made. length made.1.items ≡ length made.0.items) }
    {
        let mut members = Vec::new(alloc);
        let mut ways = Vec::new(alloc);
        for (idle, share) in passes.into_iter().zip(shares.iter_mut()) {
            let (way_in, way) = open_way(rt, alloc)?;
            ways.push(way)?;
            members.push(self.event_member(alloc, idle, share, way_in, first_ask)?)?;
        }
        Ok((members, ways))
    }

    /// The member with this pass and this share, to which clients come here.
    fn event_member<'a>(
        &'a self,
        alloc: Global,
        idle: IdlePass,
        share: &'a mut Share,
        way_in: LoopEntry<ClientPlace>,
        first_ask: &FirstAsk,
    ) -> Result<ServerEventMember<'a, 'o, N>, NoMemory>
        requires own { IsOf N.tracker idle }
        requires asked { N.tracker.settings ≡ tracker_settings self.now.options.now }
        ensures seat { IfOk result (λ member. member.idle ≡ idle) }
        ensures ready { IfOk result (λ member. IsEventReadyAt N.tracker member) }
        ensures asked { IfOk result (λ member.
            HasEventOptions self.now.options.now member.parts) }
    {
        let log = WorkerLog::open(Some(self.log), idle.number())?;
        let parts = self.event_parts(alloc, log, share, way_in, first_ask)?;
        Ok(EventMember { idle, parts })
    }

    /// What one worker works with, which has this share and this entry.
    fn event_parts<'a>(
        &'a self,
        alloc: Global,
        log: WorkerLog,
        share: &'a mut Share,
        way_in: LoopEntry<ClientPlace>,
        first_ask: &FirstAsk,
    ) -> Result<EventParts<'a, SharedSeating<'o, N>, ClientPlace>, NoMemory>
        requires asked { N.tracker.settings ≡ tracker_settings self.now.options.now }
        ensures equipped { IfOk result (IsEventEquipped
            ⟦<SharedSeating<'o, N> as Seating>⟧.servers) }
        ensures asked { IfOk result (HasEventOptions self.now.options.now) }
    {
        let count = self.options.config.addresses().len();
        Ok(EventParts {
            seating: &self.seating,
            config: self.options.config.copy(alloc)?,
            probers: Probers::new(alloc, self.options.delays, count)?,
            account: Account {
                book: &self.book,
                share,
            },
            log,
            servers: self.event_servers(alloc)?,
            limits: limits_of(self.options),
            keys: self.options.keys,
            way_in,
            first_ask: first_ask.another()?,
        })
    }

    /// Where the servers of the configuration may be, in order.
    fn event_servers(&self, alloc: Global) -> Result<Vec<Addresses>, NoMemory>
        ensures number { IfOk result (λ servers.
            length servers.items ≡ length self.now.options.now.config.addresses) }
        ensures at { IfOk result (λ servers.
            AreServersAt self.now.options.now.config.addresses servers.items) }
    {
        let names = self.naming.names()?;
        let mut servers = Vec::new(alloc);
        for address in self.options.config.addresses() {
            servers.push(Addresses::of(alloc, address.as_str(), &names)?)?;
        }
        Ok(servers)
    }
}

/// A way to an event-driven worker. It fails for want of memory, or of a descriptor.
fn open_way<R: IoRuntime>(
    rt: &R,
    alloc: Global,
) -> Result<(LoopEntry<ClientPlace>, Handover<ClientPlace>), NoMemory> {
    match LoopEntry::open(rt, alloc, MAX_QUEUED as usize) {
        Ok(ways) => Ok(ways),
        Err(_) => Err(NoMemory),
    }
}

/// The limits of an event-driven worker.
fn limits_of(options: &Options) -> LoopLimits
    ensures { result ≡ event_limits options.now }
{
    LoopLimits {
        response: u64::from(options.timeout),
        write: options.patience.write_timeout,
        idle: options.patience.idle_timeout,
        unwritten: UNWRITTEN,
    }
}
