//! The loop.
ghost use Rattle.std.specs.Prelude.{◌≡◌, ◌<◌, ℕ, None, IfErr, IfOk, OnOk, length};
ghost use Rattle.tko_roster.specs.Rosters.{session_at};
ghost use Rattle.tko_pace.specs.TurnTimes.{HasTurnEnded};
ghost use Rattle.tko_worker.specs.Workers.{IsInOrder};
ghost use Rattle.tko_loop.specs.Held.{held_port};
ghost use Rattle.tko_loop.specs.Loops.{CanTurn, IsLoopTimed};
ghost use Rattle.tko_loop.specs.Waits.{MayWait};

use crate::connecting::connect_all;
use crate::noted::NotedEvents;
use crate::noting::note_all;
use crate::offering::offer_again;
use crate::pause::pause_after;
use crate::seats::Seats;
use crate::targets::seat_token;
use crate::times::Times;
use crate::walk::{look_at_all, relieve};
use crate::{Addresses, Arrival, Held, Host, Load, LoopEntry, LoopLimits, ServerLack, TurnClock};
use crossbeam_channel::TryRecvError;
use mio::Events;
use std::alloc::{AllocError, Global};
use std::io;
use std::time::Duration;
use tko_io::IoRuntime;
use tko_pace::{ClientTime, TurnTimes};
use tko_port::{SharedParts, Talking};
use tko_socket::Socket;
use tko_worker::EventWorker;

/// How many events a turn has at most; how many clients come in it; and how many bytes one read
/// gives. What is left comes in the next turn.
const EVENTS: usize = 1_024;

const ADMISSIONS: u32 = 64;

const READ_BYTES: usize = 65_536;

/// How many milliseconds there are between two walks over the clients.
const WALK: u64 = 100;

/// Whether another turn of events follows.
#[derive(Clone, Copy, Debug, PartialEq, Eq)]
pub enum NextTurn {
    Goes,
    /// No client is left, and none can come.
    Over,
}

/// What the way of clients has after a turn took some.
#[derive(Clone, Copy, Debug, PartialEq, Eq)]
enum Intake {
    /// More clients may wait there.
    More,
    /// None waits.
    Empty,
    /// None waits, and none can come.
    Closed,
}

/// A worker over a poll of the system.
#[derive(Drop)]
pub struct EventLoop<T, P, K> {
    entry: LoopEntry<K>,
    events: Events,
    pub worker: EventWorker<Held<K>, T, P>,
    servers: Vec<Addresses>,
    /// For what servers send.
    buffer: Vec<u8>,
    seats: Seats,
    times: Times,
    clock: TurnClock,
    limits: LoopLimits,
    turns: TurnTimes,
    noted: NotedEvents,
    /// The moment of the last turn, and how many milliseconds the poll may wait after it.
    moment: u64,
    pause: u64,
    /// The moment of the last walk over the clients.
    walked: u64,
    /// The first moment at which a connection that is being made is given up for another address.
    until: Option<u64>,
    /// What the proxy itself lacked last in this turn for a connection to a server.
    lacked: Option<ServerLack>,
}

impl<P: Drop, T: Talking<P> + Drop, K: Drop> EventLoop<T, P, K> {
    /// A loop without clients, over these parts and these servers. Without memory the parts come
    /// back.
    pub fn new<R: IoRuntime>(
        rt: &R,
        alloc: Global,
        entry: LoopEntry<K>,
        parts: P,
        servers: Vec<Addresses>,
        limits: LoopLimits,
    ) -> Result<EventLoop<T, P, K>, P>
        ensures back { IfErr result (λ back. back ≡ parts) }
        ensures parts { IfOk result (λ it.
            it.worker.clients.mux.roster.parts.parts ≡ parts) }
        ensures peers { IfOk result (λ it.
            length it.worker.peers.items ≡ length servers.items) }
        ensures can { IfOk result (λ it. CanTurn (T.awaited, T.talk, held_port) T.ready
            it.buffer.items it.worker.clients) }
    {
        let (Ok(events), Ok(buffer), Ok(pieces)) = (
            Events::with_capacity(alloc, EVENTS),
            new_buffer(alloc),
            new_buffer(alloc),
        ) else {
            return Err(parts);
        };
        let shared = SharedParts {
            parts,
            buffer: pieces,
        };
        match EventWorker::new(alloc, shared, servers.len(), limits.response) {
            Ok(worker) => Ok(EventLoop {
                entry,
                events,
                worker,
                servers,
                buffer,
                seats: Seats::new(alloc),
                times: Times::new(alloc),
                clock: TurnClock::new(rt),
                limits,
                turns: TurnTimes::new(limits.response),
                noted: NotedEvents::none(),
                moment: 0,
                pause: 0,
                walked: 0,
                until: None,
                lacked: None,
            }),
            Err(SharedParts { parts, .. }) => Err(parts),
        }
    }
}

/// A buffer for what a client or a server sends.
fn new_buffer(alloc: Global) -> Result<Vec<u8>, AllocError>
    ensures { IfOk result (λ buffer. 0 < length buffer.items) }
{
    vec![in alloc; 0; READ_BYTES]
}

impl<P, T: Talking<P> + Drop, K: Drop> EventLoop<T, P, K> {
    /// Turn after turn, until no client is left and none can come.
    pub fn run<R: IoRuntime, H: Host<P, T>>(
        &mut self,
        rt: &R,
        alloc: Global,
        host: &mut H,
    ) -> io::Result<()>
        requires can { CanTurn (T.awaited, T.talk, held_port) T.ready self.old.buffer.items
            self.old.worker.clients }
        ensures over { OnOk result ((number : ℕ)
            → number < length self.new.worker.clients.mux.roster.slots
            → session_at self.new.worker.clients.mux.roster.slots number ≡ None) }
        ensures round { OnOk result ((before : P) × H.rounds before self.new.moment
            self.new.worker.clients.mux.roster.parts.parts) }
        ensures can { CanTurn (T.awaited, T.talk, held_port) T.ready self.new.buffer.items
            self.new.worker.clients }
    {
        for _ in rt.forever() {
            match self.turn(rt, alloc, host)? {
                NextTurn::Goes => {}
                NextTurn::Over => return Ok(()),
            }
        }
        unreachable!()
    }

    /// Waits for events, and does what they allow. The system's refusal to wait is the only error.
    pub fn turn<R: IoRuntime, H: Host<P, T>>(
        &mut self,
        rt: &R,
        alloc: Global,
        host: &mut H,
    ) -> io::Result<NextTurn>
        requires can { CanTurn (T.awaited, T.talk, held_port) T.ready self.old.buffer.items
            self.old.worker.clients }
        ensures waits { OnOk result (MayWait self.new.turns.judged self.new.turns.next
            self.new.pause self.new.servers.items self.new.worker) }
        ensures times { OnOk result (IsLoopTimed self.old.turns self.new.moment self.new.turns) }
        ensures round { OnOk result ((before : P) × H.rounds before self.new.moment
            self.new.worker.clients.mux.roster.parts.parts) }
        ensures over { IfOk result (λ turn. turn ≡ NextTurn.Over → (number : ℕ)
            → number < length self.new.worker.clients.mux.roster.slots
            → session_at self.new.worker.clients.mux.roster.slots number ≡ None) }
        ensures can { CanTurn (T.awaited, T.talk, held_port) T.ready self.new.buffer.items
            self.new.worker.clients }
    {
        let pause = Duration::from_millis(self.pause);
        self.entry.poll.poll(&mut self.events, Some(pause))?;
        let shown = self.clock.read(rt);
        host.began(&mut self.worker, &self.clock);
        let is_noted = self.begin(rt, alloc);
        self.turns.begin(shown, self.pause, is_noted);
        self.moment = self.turns.moments().began();
        self.connect(rt);
        self.tell_lack(host);
        let intake = self.admit_all(rt, alloc, host);
        self.walk(alloc, host);
        self.end(rt, alloc, host, intake);
        Ok(self.after(intake))
    }

    /// Notes what came. Returns whether all was noted that had come before the poll.
    fn begin<R: IoRuntime>(&mut self, rt: &R, alloc: Global) -> bool
        requires order { IsInOrder (T.awaited, T.talk, held_port) T.ready self.old.worker.clients }
        ensures buffer { self.new.buffer ≡ self.old.buffer }
        ensures turns { self.new.turns ≡ self.old.turns }
        ensures order { IsInOrder (T.awaited, T.talk, held_port) T.ready self.new.worker.clients }
    {
        let count = note_all(
            rt,
            &mut self.worker,
            &mut self.servers,
            &self.seats,
            alloc,
            &self.events,
            &mut self.lacked,
        );
        let sockets = self
            .worker
            .clients
            .numbers()
            .saturating_add(self.servers.len());
        self.noted.note(count, EVENTS, sockets.saturating_add(1))
    }

    /// Begins the connections that are wanted, at the moment of the turn: deadlines are of the same
    /// clock, which does not count pauses.
    fn connect<R: IoRuntime>(&mut self, rt: &R)
        requires order { IsInOrder (T.awaited, T.talk, held_port) T.ready self.old.worker.clients }
        ensures buffer { self.new.buffer ≡ self.old.buffer }
        ensures turns { self.new.turns ≡ self.old.turns }
        ensures moment { self.new.moment ≡ self.old.moment }
        ensures order { IsInOrder (T.awaited, T.talk, held_port) T.ready self.new.worker.clients }
    {
        let registry = self.entry.poll.registry();
        self.until = connect_all(
            rt,
            &mut self.worker,
            &mut self.servers,
            registry,
            self.moment,
            &mut self.lacked,
        );
    }

    /// Tells the host what was lacking for a connection in this turn, if anything was.
    fn tell_lack<H: Host<P, T>>(&mut self, host: &mut H)
        ensures { self.new ≡ record self.old { lacked = None } }
    {
        if let Some(lacked) = self.lacked.take() {
            host.lacked(lacked);
        }
    }

    /// Takes in clients that other threads handed over.
    fn admit_all<R: IoRuntime, H: Host<P, T>>(
        &mut self,
        rt: &R,
        alloc: Global,
        host: &mut H,
    ) -> Intake
        requires order { IsInOrder (T.awaited, T.talk, held_port) T.ready self.old.worker.clients }
        ensures buffer { self.new.buffer ≡ self.old.buffer }
        ensures turns { self.new.turns ≡ self.old.turns }
        ensures moment { self.new.moment ≡ self.old.moment }
        ensures order { IsInOrder (T.awaited, T.talk, held_port) T.ready self.new.worker.clients }
    {
        for _ in 0..ADMISSIONS {
            match self.entry.clients.try_recv(rt) {
                Ok(arrival) => self.admit(alloc, host, arrival),
                Err(TryRecvError::Empty) => return Intake::Empty,
                Err(TryRecvError::Disconnected) => return Intake::Closed,
            }
        }
        Intake::More
    }

    /// Takes in a client. It is closed at once if there is no memory for it, or if its socket
    /// cannot be registered.
    fn admit<H: Host<P, T>>(&mut self, alloc: Global, host: &mut H, arrival: Arrival<K>)
        requires order { IsInOrder (T.awaited, T.talk, held_port) T.ready self.old.worker.clients }
        ensures buffer { self.new.buffer ≡ self.old.buffer }
        ensures turns { self.new.turns ≡ self.old.turns }
        ensures moment { self.new.moment ≡ self.old.moment }
        ensures order { IsInOrder (T.awaited, T.talk, held_port) T.ready self.new.worker.clients }
    {
        if self.take_in(alloc, host, arrival).is_none() {
            host.refused();
        }
    }

    /// Takes in a client, and returns its number.
    fn take_in<H: Host<P, T>>(
        &mut self,
        alloc: Global,
        host: &mut H,
        arrival: Arrival<K>,
    ) -> Option<usize>
        requires order { IsInOrder (T.awaited, T.talk, held_port) T.ready self.old.worker.clients }
        ensures buffer { self.new.buffer ≡ self.old.buffer }
        ensures turns { self.new.turns ≡ self.old.turns }
        ensures moment { self.new.moment ≡ self.old.moment }
        ensures order { IsInOrder (T.awaited, T.talk, held_port) T.ready self.new.worker.clients }
    {
        self.times.make_room(self.worker.clients.numbers()).ok()?;
        let seat = self.seats.next().ok()?;
        let token = seat_token(self.servers.len(), seat)?;
        let Arrival {
            stream,
            client,
            ticket,
        } = arrival;
        let socket = Socket::accepted(self.entry.poll.registry(), token, stream).ok()?;
        let talk = host.greet(self.worker.clients.parts(), client).ok()?;
        let port = Held::client(socket, ticket);
        let number = self.worker.clients.open(alloc, port, talk).ok()?;
        self.seats.take(number);
        let time = ClientTime::begin(self.moment, self.limits.write);
        self.times.begin(number, time);
        Some(number)
    }

    /// Has clients leave that do not keep their limits, once 100 ms passed since it last did, and
    /// tells the host how much is served then.
    fn walk<H: Host<P, T>>(&mut self, alloc: Global, host: &mut H)
        requires order { IsInOrder (T.awaited, T.talk, held_port) T.ready self.old.worker.clients }
        ensures buffer { self.new.buffer ≡ self.old.buffer }
        ensures moment { self.new.moment ≡ self.old.moment }
        ensures turns { self.new.turns ≡ self.old.turns }
        ensures order { IsInOrder (T.awaited, T.talk, held_port) T.ready self.new.worker.clients }
    {
        if self.moment.saturating_sub(self.walked) < WALK {
            return;
        }
        self.walked = self.moment;
        let LoopLimits {
            idle,
            unwritten,
            ..
        } = self.limits;
        let clients = &mut self.worker.clients;
        look_at_all(clients, &mut self.times.all, alloc, self.moment, idle);
        relieve(clients, alloc, unwritten);
        offer_again(clients, alloc);
        host.looked(&Load::of(&self.worker));
    }

    /// Does what can be done, and decides how long the next turn may wait for events. The clock is
    /// read once all is written.
    fn end<R: IoRuntime, H: Host<P, T>>(
        &mut self,
        rt: &R,
        alloc: Global,
        host: &mut H,
        intake: Intake,
    )
        requires can { CanTurn (T.awaited, T.talk, held_port) T.ready self.old.buffer.items
            self.old.worker.clients }
        ensures moment { self.new.moment ≡ self.old.moment }
        ensures waits { MayWait self.new.turns.judged self.new.turns.next self.new.pause
            self.new.servers.items self.new.worker }
        ensures ended { HasTurnEnded self.old.turns self.new.turns }
        ensures round { (before : P) × H.rounds before self.new.moment
            self.new.worker.clients.mux.roster.parts.parts }
        ensures can { CanTurn (T.awaited, T.talk, held_port) T.ready self.new.buffer.items
            self.new.worker.clients }
    {
        let moments = self.turns.moments();
        let buffer = self.buffer.as_mut_slice();
        self.worker.serve(alloc, buffer, moments);
        host.round(alloc, &mut self.worker, self.moment, moments.due());
        let mut ahead = self.worker.finish(moments.judged());
        self.turns.end(self.clock.read(rt));
        ahead.rests &= intake != Intake::More && self.turns.is_noted();
        let next = self.turns.next();
        self.pause = pause_after(
            &self.worker,
            &self.servers,
            ahead,
            self.until,
            moments.judged(),
            next,
        );
    }

    /// The parts that all sessions shared, at the end. The clients, the connections to the servers
    /// and the poll are closed.
    pub fn into_parts(self) -> P
        ensures { result ≡ self.worker.clients.mux.roster.parts.parts }
    {
        let EventLoop {
            entry,
            events,
            worker,
            servers,
            buffer,
            seats,
            times,
            ..
        } = self;
        let parts = worker.into_parts();
        drop((entry, events, servers, buffer, seats, times));
        parts
    }

    /// Whether another turn follows.
    fn after(&self, intake: Intake) -> NextTurn
        ensures { result ≡ NextTurn.Over → (number : ℕ)
            → number < length self.now.worker.clients.mux.roster.slots
            → session_at self.now.worker.clients.mux.roster.slots number ≡ None }
    {
        match intake {
            Intake::Closed if self.worker.clients.is_empty() => NextTurn::Over,
            _ => NextTurn::Goes,
        }
    }
}
