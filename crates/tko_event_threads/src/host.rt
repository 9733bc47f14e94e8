//! What the loop of an event-driven worker calls.
ghost use Rattle.std.specs.Prelude.{◌≡◌, [], sum_by};
ghost use Rattle.tko_bytes.specs.Numbers.{capped};
ghost use Rattle.tko_client.specs.Clients.{IsReadyAfter, awaits, client_of, talk_of};
ghost use Rattle.tko_pools.specs.Configs.{Configuration};
ghost use Rattle.tko_session.specs.Clients.{new_client};
ghost use Rattle.tko_rounds.specs.Workers.{is_ready, parts_in};
ghost use Rattle.tko_worker.specs.Counts.{no_ends};
ghost use Rattle.tko_worker.specs.Workers.{IsInOrder};
ghost use Rattle.tko_event_threads.specs.Hosts.{for_client};
ghost use Rattle.tko_event_threads.specs.Turns.{IsTurnEnd, KeepsToServe};

use crate::accounted::Accounted;
use crate::ends::are_any;
use crate::loads::server_load;
use crate::origin::Opening;
use std::alloc::Global;
use std::net::SocketAddr;
use std::sync::Wait;
use tko_bytes::NoMemory;
use tko_client::{EventClient, Lent};
use tko_health::Health;
use tko_io::IoRuntime;
use tko_keys::KeyPlan;
use tko_loop::{Host, Load, ServerLack, TurnClock};
use tko_port::Port;
use tko_roster::PartsVisit;
use tko_rounds::Rounds;
use tko_worker::{EndCounts, EventWorker};

/// Makes the sessions of a worker's clients, runs its rounds, and counts those that ended.
#[derive(Drop)]
pub(crate) struct EventHost<'r, R> {
    rt: &'r R,
    rounds: Rounds,
    /// How the keys of a client's request are sent.
    keys: KeyPlan,
    /// The clients that could not be taken in since the last turn.
    refused: u64,
    /// How much the worker serves, if there was a walk since the last turn.
    load: Option<Load>,
    /// What the proxy itself lacked for a connection since the last turn, if it lacked anything.
    lacked: Option<ServerLack>,
}

/// A turn begins at the moment that this clock shows.
#[derive(Drop)]
struct TurnBegin<'k> {
    clock: &'k TurnClock,
}

/// What is counted at the end of a turn.
#[derive(Drop)]
struct TurnEnd<'r, R> {
    rt: &'r R,
    ends: EndCounts,
    /// Whether memory ran out in the round.
    ran_out: bool,
    /// How many probes were sent in all.
    sent: u64,
}

impl<'r, R: IoRuntime> EventHost<'r, R> {
    /// No round was run yet. The keys of each client's request are sent so.
    pub(crate) fn new(rt: &'r R, rounds: Rounds, keys: KeyPlan) -> EventHost<'r, R>
        ensures keys { result.keys ≡ keys }
    {
        EventHost {
            rt,
            rounds,
            keys,
            refused: 0,
            load: None,
            lacked: None,
        }
    }

    /// How many probes were sent in all; it stays at 2^64 - 1.
    pub(crate) fn probes(&self) -> u64
        ensures { result ≡ capped (sum_by (λ count. count) self.now.rounds.counts) }
    {
        self.rounds.total()
    }

    /// Counts the clients that ended since the turn before, and settles the account where there are
    /// any. Memory ran out in this turn's round, or did not.
    fn end_turn<'c, 'a, 'm, L: Port + Drop, H: Health, N: Opening, C>(
        &mut self,
        worker: &mut EventWorker<L, EventClient, Lent<'c, R, H, Accounted<'a, 'm, N>, C>>,
        ran_out: bool,
    )
        requires order { IsInOrder (awaits, talk_of, L.port) is_ready worker.old.clients }
        ensures counted { IsTurnEnd worker.old.clients.ends ran_out
            (capped (sum_by (λ count. count) self.old.rounds.counts))
            (parts_in worker.old.clients) (parts_in worker.new.clients) }
        ensures none { worker.new.clients.ends ≡ no_ends }
        ensures served { KeepsToServe worker.old.clients worker.new.clients }
        ensures peers { worker.new.peers ≡ worker.old.peers }
        ensures order { IsInOrder (awaits, talk_of, L.port) is_ready worker.new.clients }
    {
        let turn = TurnEnd {
            rt: self.rt,
            ends: worker.clients.take_ends(),
            ran_out,
            sent: self.probes(),
        };
        worker.clients.visit(turn);
    }

    /// Tells what was seen since the turn before, where anything was. The turn is of this moment.
    fn tell<'c, 'a, 'm, L: Port + Drop, H: Health, N: Opening, C>(
        &mut self,
        worker: &mut EventWorker<L, EventClient, Lent<'c, R, H, Accounted<'a, 'm, N>, C>>,
        moment: u64,
    )
        ensures rounds { self.new.rounds ≡ self.old.rounds }
        ensures same { worker.new ≡ worker.old }
    {
        if let Some(clients) = worker.clients.take_binary() {
            trails_of(worker).refuse_binary(self.rt, clients);
        }
        if 0 < self.refused {
            trails_of(worker).refuse_clients(self.refused);
            self.refused = 0;
        }
        if let Some(load) = self.load.take() {
            tell_load(worker, &load, moment);
        }
        if let Some(lacked) = self.lacked.take() {
            trails_of(worker).tell_lack(self.rt, lacked);
        }
    }
}

impl<'c, 'a, 'm, R, H: Health, N: Opening, C> PartsVisit<Lent<'c, R, H, Accounted<'a, 'm, N>, C>>
    for TurnBegin<'_> {
    ghost use Rattle.std.specs.Prelude.{◌≡◌};
    ghost use Rattle.tko_client.specs.Steps.{HasStayed};

    type Output = ();

    ghost does = { λ turn old it new. new.parts ≡ old.parts };

    ghost stays = { λ old new. HasStayed H.servers old.parts new.parts };

    fn visit(self, lent: &mut Lent<'c, R, H, Accounted<'a, 'm, N>, C>) {
        lent.parts.trails.look_at(self.clock);
    }
}

impl<'r, 'c, 'a, 'm, R: IoRuntime, H: Health, N: Opening, C> PartsVisit<
    Lent<'c, R, H, Accounted<'a, 'm, N>, C>,
> for TurnEnd<'r, R> {
    ghost use Rattle.tko_client.specs.Steps.{HasStayed};
    ghost use Rattle.tko_event_threads.specs.Turns.{IsTurnEnd};

    type Output = ();

    ghost does = { λ turn old it new. IsTurnEnd turn.ends turn.ran_out turn.sent old.parts
        new.parts };

    ghost stays = { λ old new. HasStayed H.servers old.parts new.parts };

    fn visit(self, lent: &mut Lent<'c, R, H, Accounted<'a, 'm, N>, C>) {
        let trails = &mut lent.parts.trails;
        trails.note_short(self.ran_out);
        trails.count_ends(&self.ends);
        if are_any(&self.ends) {
            trails.settle(self.rt, self.sent);
        }
    }
}

impl<'r, 'c, 'a, 'm, R: IoRuntime, H: Health, N: Opening, C: Drop> Host<
    Lent<'c, R, H, Accounted<'a, 'm, N>, C>,
    EventClient,
> for EventHost<'r, R> {
    ghost use Rattle.tko_event_threads.specs.Turns.{IsHostRound};

    ghost rounds = { λ old moment new. IsHostRound H.Health moment old.parts new.parts };

    fn greet(
        &mut self,
        lent: &Lent<'c, R, H, Accounted<'a, 'm, N>, C>,
        client: SocketAddr,
    ) -> Result<EventClient, NoMemory> {
        Ok(make_client(lent.alloc, self.keys, client))
    }

    fn began<L: Port + Drop>(
        &mut self,
        worker: &mut EventWorker<L, EventClient, Lent<'c, R, H, Accounted<'a, 'm, N>, C>>,
        clock: &TurnClock,
    ) {
        if trails_of(worker).is_metered() {
            worker.clients.visit(TurnBegin { clock });
        }
    }

    fn round<L: Port + Drop>(
        &mut self,
        alloc: Global,
        worker: &mut EventWorker<L, EventClient, Lent<'c, R, H, Accounted<'a, 'm, N>, C>>,
        moment: u64,
        due: u64,
    ) {
        let rounded = self.rounds.run(alloc, worker, moment, due);
        self.tell(worker, moment);
        self.end_turn(worker, rounded.is_err());
    }

    fn looked(&mut self, load: &Load) {
        self.load = Some(*load);
    }

    fn lacked(&mut self, lacked: ServerLack) {
        self.lacked = Some(lacked);
    }

    fn refused(&mut self) {
        self.refused = self.refused.saturating_add(1);
    }
}

/// The observer of a worker's sessions.
fn trails_of<'w, 'c, 'a, 'm, L: Port + Drop, R: IoRuntime, H: Health, N: Opening, C>(
    worker: &'w EventWorker<L, EventClient, Lent<'c, R, H, Accounted<'a, 'm, N>, C>>,
) -> &'w Accounted<'a, 'm, N> {
    &worker.clients.parts().parts.trails
}

/// Tells that this is a worker's load, and what it has to do with each server at this moment.
fn tell_load<'c, 'a, 'm, L: Port + Drop, R: IoRuntime, H: Health, N: Opening, C>(
    worker: &EventWorker<L, EventClient, Lent<'c, R, H, Accounted<'a, 'm, N>, C>>,
    load: &Load,
    moment: u64,
) {
    let parts = &worker.clients.parts().parts;
    if !parts.trails.is_metered() {
        return;
    }
    parts.trails.set_load(load);
    let probers = &parts.backend.probers;
    for server in 0..probers.servers() {
        let load = server_load(worker, probers, server, moment);
        parts.trails.set_server_load(server, load);
    }
}

/// A client that has just come from this address. The keys of its requests are sent so, and one may
/// be under way in any case.
fn make_client(alloc: Global, keys: KeyPlan, address: SocketAddr) -> EventClient
    ensures client { client_of result ≡ new_client (for_client keys) }
    ensures here { awaits result ≡ [] }
    ensures ready { (config : Configuration) → IsReadyAfter config [] [] result }
{
    let plan = KeyPlan {
        most: keys.most.max(1),
        grouping: keys.grouping,
    };
    let mut client = EventClient::new(alloc, plan);
    client.note_address(address);
    client
}
