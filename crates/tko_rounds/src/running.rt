//! A round.
ghost use Rattle.std.specs.Prelude.{◌≡◌, ◌<◌, is_err, length, min};
ghost use Rattle.std.specs.Bool.{OnFalse, OnTrue};
ghost use Rattle.tko_client.specs.Clients.{awaits, talk_of};
ghost use Rattle.tko_worker.specs.Workers.{IsInOrder};
ghost use Rattle.tko_rounds.specs.Parts.{IsProbeSettled};
ghost use Rattle.tko_rounds.specs.Rounds.{AreEventVisited, HasNext, HasNoProbes, HasProbeTaken, IsEventRound, IsEventVisited, IsRoundServer, round_servers};
ghost use Rattle.tko_rounds.specs.Workers.{OnlyPartsChange, OnlyRoundChanges, is_ready, parts_in, state_of};

use crate::Rounds;
use crate::visits::{BeginProbers, FindDue, TakeResult};
use std::alloc::Global;
use tko_bytes::NoMemory;
use tko_client::{EventClient, Lent};
use tko_io::IoRuntime;
use tko_model::Reply;
use tko_mux::Came;
use tko_pipe::Fate;
use tko_port::{Port, Talking};
use tko_route::Health;
use tko_session::Trails;
use tko_worker::{EventWorker, Worker};

/// The clients of a worker.
type RoundClients<'r, L, R, H, T, C> = Worker<L, EventClient, Lent<'r, R, H, T, C>>;

/// A worker as a whole: its clients and its servers.
type Whole<'r, L, R, H, T, C> = EventWorker<L, EventClient, Lent<'r, R, H, T, C>>;

impl Rounds {
    /// A round at this moment, at the end of a turn of events: a prober begins for each server that
    /// was marked; then for each server, in number order, what came of its probe is taken, and the
    /// next one is put on its line where it is due. Its response is due at the second moment. If
    /// memory runs out for a probe, it has failed, and the round goes on to the other servers
    /// before it returns `NoMemory`.
    pub fn run<'r, L: Port + Drop, R: IoRuntime, H: Health, T: Trails, C>(
        &mut self,
        alloc: Global,
        worker: &mut Whole<'r, L, R, H, T, C>,
        moment: u64,
        due: u64,
    ) -> Result<(), NoMemory>
        requires order { IsInOrder (awaits, talk_of, L.port) is_ready worker.old.clients }
        ensures round { IsEventRound H.Health moment due
            (state_of self.old worker.old) (is_err result) (state_of self.new worker.new) }
        ensures idle { HasNoProbes (parts_in worker.old.clients).backend.probers self.old
            → (self.new ≡ self.old) × (worker.new ≡ worker.old) }
        ensures only { OnlyRoundChanges H.servers L.port (self.old, worker.old)
            (self.new, worker.new) }
        ensures order { IsInOrder (awaits, talk_of, L.port) is_ready worker.new.clients }
    {
        if self.is_idle(&worker.clients) {
            return Ok(());
        }
        if self.work(alloc, worker, moment, due) {
            return Err(NoMemory);
        }
        Ok(())
    }

    /// Whether no prober is at work or going to be, and no probe is out.
    fn is_idle<'r, L: Port + Drop, R: IoRuntime, H: Health, T: Trails, C>(
        &self,
        clients: &RoundClients<'r, L, R, H, T, C>,
    ) -> bool
        ensures yes { OnTrue result (HasNoProbes (parts_in clients.now).backend.probers self.now) }
        ensures no { OnFalse result
            (¬ HasNoProbes (parts_in clients.now).backend.probers self.now) }
    {
        if !self.has_none_out() {
            return false;
        }
        clients.parts().parts.backend.probers.is_quiet()
    }

    /// A round in which there is something to do. Returns whether memory ran out for a probe.
    fn work<'r, L: Port + Drop, R: IoRuntime, H: Health, T: Trails, C>(
        &mut self,
        alloc: Global,
        worker: &mut Whole<'r, L, R, H, T, C>,
        moment: u64,
        due: u64,
    ) -> bool
        requires order { IsInOrder (awaits, talk_of, L.port) is_ready worker.old.clients }
        ensures round { IsEventRound H.Health moment due (state_of self.old worker.old) result
            (state_of self.new worker.new) }
        ensures only { OnlyRoundChanges H.servers L.port (self.old, worker.old)
            (self.new, worker.new) }
        ensures order { IsInOrder (awaits, talk_of, L.port) is_ready worker.new.clients }
    {
        worker.clients.visit(BeginProbers { moment });
        self.visit_all(alloc, worker, moment, due)
    }

    /// Visits each server in number order, and returns whether memory ran out for a probe.
    fn visit_all<'r, L: Port + Drop, R: IoRuntime, H: Health, T: Trails, C>(
        &mut self,
        alloc: Global,
        worker: &mut Whole<'r, L, R, H, T, C>,
        moment: u64,
        due: u64,
    ) -> bool
        requires order { IsInOrder (awaits, talk_of, L.port) is_ready worker.old.clients }
        ensures visits { AreEventVisited H.Health moment due (state_of self.old worker.old)
            (round_servers H.Health (state_of self.old worker.old)) result
            (state_of self.new worker.new) }
        ensures only { OnlyRoundChanges H.servers L.port (self.old, worker.old)
            (self.new, worker.new) }
        ensures order { IsInOrder (awaits, talk_of, L.port) is_ready worker.new.clients }
    {
        let mut short = false;
        for server in 0..self.servers_of(&worker.clients) {
            short |= self.visit(alloc, worker, server, moment, due);
        }
        short
    }

    /// How many servers a round visits: those that have a count, a line and a health.
    fn servers_of<'r, L: Port + Drop, R: IoRuntime, H: Health, T: Trails, C>(
        &self,
        clients: &RoundClients<'r, L, R, H, T, C>,
    ) -> usize
        ensures { result ≡ min (length self.now.out) (min (length clients.now.mux.lines)
            (H.servers (parts_in clients.now).backend.health)) }
    {
        let healthy = clients.parts().parts.backend.health.servers();
        self.servers().min(clients.servers().min(healthy))
    }

    /// Visits a server. Returns whether memory ran out for its probe.
    fn visit<'r, L: Port + Drop, R: IoRuntime, H: Health, T: Trails, C>(
        &mut self,
        alloc: Global,
        worker: &mut Whole<'r, L, R, H, T, C>,
        server: usize,
        moment: u64,
        due: u64,
    ) -> bool
        requires server { IsRoundServer H.servers (state_of self.old worker.old) server }
        requires order { IsInOrder (awaits, talk_of, L.port) is_ready worker.old.clients }
        ensures visit { IsEventVisited H.Health moment due
            (state_of self.old worker.old) server result (state_of self.new worker.new) }
        ensures only { OnlyRoundChanges H.servers L.port (self.old, worker.old)
            (self.new, worker.new) }
        ensures order { IsInOrder (awaits, talk_of, L.port) is_ready worker.new.clients }
    {
        self.take(worker, server, moment);
        self.send(alloc, worker, server, moment, due)
    }

    /// Takes what came of the probe of a server, if one is out and something came.
    fn take<'r, L: Port + Drop, R: IoRuntime, H: Health, T: Trails, C>(
        &mut self,
        worker: &mut Whole<'r, L, R, H, T, C>,
        server: usize,
        moment: u64,
    )
        requires server { IsRoundServer H.servers (state_of self.old worker.old) server }
        requires order { IsInOrder (awaits, talk_of, L.port) is_ready worker.old.clients }
        ensures taken { HasProbeTaken H.Health moment (state_of self.old worker.old) server
            (state_of self.new worker.new) }
        ensures only { OnlyRoundChanges H.servers L.port (self.old, worker.old)
            (self.new, worker.new) }
        ensures order { IsInOrder (awaits, talk_of, L.port) is_ready worker.new.clients }
    {
        if !self.is_out(server) {
            return;
        }
        let Some(came) = worker.probed(server) else {
            return;
        };
        self.set_out(server, false);
        self.settle(&mut worker.clients, server, moment, came);
    }

    /// Sends the next probe of a server, where none is out and it is due. Returns whether memory
    /// ran out for it.
    fn send<'r, L: Port + Drop, R: IoRuntime, H: Health, T: Trails, C>(
        &mut self,
        alloc: Global,
        worker: &mut Whole<'r, L, R, H, T, C>,
        server: usize,
        moment: u64,
        due: u64,
    ) -> bool
        requires server { IsRoundServer H.servers (state_of self.old worker.old) server }
        requires order { IsInOrder (awaits, talk_of, L.port) is_ready worker.old.clients }
        ensures next { HasNext H.Health moment due (state_of self.old worker.old) server result
            (state_of self.new worker.new) }
        ensures peers { worker.new.peers ≡ worker.old.peers }
        ensures only { OnlyRoundChanges H.servers L.port (self.old, worker.old)
            (self.new, worker.new) }
        ensures order { IsInOrder (awaits, talk_of, L.port) is_ready worker.new.clients }
    {
        if self.is_out(server) {
            return false;
        }
        let Some(duty) = worker.clients.visit(FindDue { server, moment }) else {
            return false;
        };
        match worker.clients.probe(alloc, duty, due) {
            Ok(()) => {
                self.set_out(server, true);
                false
            }
            Err(_) => {
                self.settle(
                    &mut worker.clients,
                    server,
                    moment,
                    Came::Fate(Fate::Memory),
                );
                true
            }
        }
    }

    /// Counts a probe that came to this, records that, and tells it. Returns how the health
    /// replied.
    fn settle<'r, L: Port + Drop, R: IoRuntime, H: Health, T: Trails, C>(
        &mut self,
        clients: &mut RoundClients<'r, L, R, H, T, C>,
        server: usize,
        moment: u64,
        came: Came,
    ) -> Option<Reply>
        requires within { server < length self.old.out }
        requires health { server < H.servers (parts_in clients.old).backend.health }
        requires order { IsInOrder (awaits, talk_of, L.port) is_ready clients.old }
        ensures settled { IsProbeSettled H.Health moment server came
            (self.old, parts_in clients.old) result (self.new, parts_in clients.new) }
        ensures only { OnlyPartsChange clients.old clients.new }
        ensures order { IsInOrder (awaits, talk_of, L.port) is_ready clients.new }
    {
        self.count(clients.parts().rt, server, &came);
        let probes = self.of(server);
        clients.visit(TakeResult {
            server,
            moment,
            came,
            probes,
        })
    }
}
