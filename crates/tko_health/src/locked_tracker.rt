//! The tracker that lies under the lock, and a thread's seat at it.
ghost use Rattle.std.specs.Prelude.{◌≡◌, ◌<◌, IfOk, length};
ghost use Rattle.tko_model.specs.Looks.{duty_of, look_of};
ghost use Rattle.tko_model.specs.Tracker.{after, reply_of, server_at};
ghost use Rattle.tko_model.specs.declared.mark.Op.TheVariants.{LookUp};
ghost use Rattle.tko_health.specs.Locked.{IsSeat, IsTrackerFound, fresh_seat, is_own, seat_noted};

use std::alloc::Global;
use std::marker::{Brand, Model, PhantomData};
use tko_bytes::NoMemory;
use tko_model::{Duty, Look, Mark, Op, Plain, Reply};

/// Names the settings of a tracker in a lock, which all its threads rely on. The program picks them
/// at a call that passes `Brand`.
pub trait TrackerSettings {
    ghost use Rattle.tko_model.specs.Settings.{Settings};

    ghost settings: { Settings };
}

impl TrackerSettings for Brand {
    ghost use Rattle.std.specs.Prelude.{[], ◌∷◌};

    ghost settings = { record {
      servers = 1;
      threads = 1;
      failures = 1;
      limits = 0 ∷ [];
      group_of = 0 ∷ [];
      tries = 1;
      opening_stamp = 0;
    } };
}

/// A thread's place at a tracker in a lock: its number, and for each server whether the thread's
/// last call there left the mark its own. Only calls of the tracker change it.
#[derive(Drop)]
pub(crate) struct LockedSeat {
    thread: u32,
    owned: Vec<bool>,
}

impl Model for LockedSeat {
    ghost use Rattle.tko_health.specs.Locked.{SeatState};

    ghost Value = { SeatState };

    ghost view = { λ s. record { thread = s.thread; owned = s.owned.items } };
}

impl LockedSeat {
    pub(crate) fn new(alloc: Global, servers: usize, thread: u32) -> Result<LockedSeat, NoMemory>
        ensures { IfOk result (λ seat. seat ≡ fresh_seat servers thread) }
    {
        let owned = vec![in alloc; false; servers]?;
        Ok(LockedSeat { thread, owned })
    }

    pub(crate) fn thread(&self) -> u32
        ensures { result ≡ self.now.thread }
    {
        self.thread
    }

    pub(crate) fn servers(&self) -> usize
        ensures { result ≡ length self.now.owned }
    {
        self.owned.len()
    }

    /// Keeps whether this mark of a server is the thread's own.
    fn note(&mut self, server: usize, mark: Mark)
        requires { server < length self.old.owned }
        ensures { self.new ≡ seat_noted server mark self.old }
    {
        self.owned[server] = is_own(self.thread, mark);
    }
}

/// Whether a mark is this thread's.
fn is_own(thread: u32, mark: Mark) -> bool
    ensures { result ≡ is_own thread mark }
{
    match mark {
        Mark::Up(_) => false,
        Mark::Soft(owner) | Mark::Hard(owner) => owner == thread,
    }
}

/// A tracker with these settings.
#[derive(Drop)]
pub(crate) struct LockedTracker<S: TrackerSettings> {
    plain: Plain,
    of: PhantomData<S>,
}

impl<S: TrackerSettings> Model for LockedTracker<S> {
    ghost use Rattle.std.specs.Prelude.{◌≡◌};
    ghost use Rattle.tko_model.specs.Tracker.{Tracker};

    ghost Value = { Tracker };

    ghost view = { λ t. t.plain };

    ghost invariant = { λ t. t.plain.settings ≡ S.settings };
}

impl<S: TrackerSettings> LockedTracker<S> {
    pub(crate) fn new(plain: Plain) -> LockedTracker<S>
        requires { plain.settings ≡ S.settings }
        ensures { result ≡ plain }
    {
        LockedTracker {
            plain,
            of: PhantomData,
        }
    }

    /// Does one operation of the seat's thread. The seat then knows the mark that it left.
    pub(crate) fn apply(&mut self, seat: &mut LockedSeat, op: Op, server: usize) -> Reply
        requires seat { IsSeat S.settings seat.old }
        requires server { server < S.settings.servers }
        ensures found { IsTrackerFound S.settings self.old }
        ensures reply { result ≡ reply_of self.old seat.old.thread op server }
        ensures state { self.new ≡ after self.old seat.old.thread op server }
        ensures seat { seat.new ≡ seat_noted server
            (server_at self.new.servers server).mark seat.old }
    {
        let _settings = self.plain.settings();
        let reply = self.plain.apply(seat.thread, op, server);
        let _settings = self.plain.settings();
        seat.note(server, self.plain.mark(server));
        reply
    }

    /// What a look-up finds. The seat then knows that mark.
    pub(crate) fn look_up(&self, seat: &mut LockedSeat, server: usize) -> Look
        requires seat { IsSeat S.settings seat.old }
        requires server { server < S.settings.servers }
        ensures found { IsTrackerFound S.settings self.now }
        ensures look { result ≡ look_of server (server_at self.now.servers server).mark }
        ensures seat { seat.new ≡ seat_noted server
            (server_at self.now.servers server).mark seat.old }
    {
        let _settings = self.plain.settings();
        let mark = self.plain.mark(server);
        seat.note(server, mark);
        Look::of(server, mark)
    }

    /// The right of the seat's thread to probe a server, where the server's mark is its own.
    pub(crate) fn duty(&self, seat: &LockedSeat, server: usize) -> Option<Duty>
        requires { server < S.settings.servers }
        ensures found { IsTrackerFound S.settings self.now }
        ensures exact { result
            ≡ duty_of server (server_at self.now.servers server).mark seat.now.thread }
    {
        let _settings = self.plain.settings();
        Duty::of(server, self.plain.mark(server), seat.thread)
    }
}
