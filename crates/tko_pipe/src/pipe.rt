//! The requests on one connection, and the responses to them.
ghost use Rattle.std.specs.Prelude.{◌≡◌, ◌≤◌, ◌<◌, OnOk, OnErr, false, length, take, slice_get};
ghost use Rattle.std.specs.Option.{option_copied};
ghost use Rattle.tko_pipe.specs.Ends.{ExpireEnds, GotEnds, LeaveEnds};
ghost use Rattle.tko_pipe.specs.Pipes.{IsCause, IsConnected, IsLive, IsPushed, IsShut, IsWritten, is_silent, late_at, opened_pipe, pushing, shutting};
ghost use Rattle.tko_pipe.specs.Waiters.{has_gone};

mod giving;
mod taking;

use crate::byte_queue::ByteQueue;
use crate::waiters::{is_first_gone, is_first_written};
use crate::{Asker, Fate, Fates, Link, ShutCause, Waiter, Window};
use std::alloc::Global;
use std::collections::VecDeque;
use std::marker::Model;
use tko_text::{NoMemory, Request};

/// One connection to a server, from connecting until it was shut and all that waited have left. The
/// k-th response that comes is that to the k-th request.
///
/// After each read the caller calls `got`, and then `take`, or `take_dropped` where the first one
/// gave up, until that returns `None`; after each write `wrote`, and as time passes `expire`, and
/// `give_up` for those that `overdue` finds. Once the connection was shut, it closes its socket and
/// calls `leave` until that returns `None`.
#[derive(Drop)]
pub struct Pipe {
    /// How long a response may take, in milliseconds.
    limit: u64,
    link: Link,
    /// Whose responses have not come, first come first.
    waiters: VecDeque<Waiter>,
    /// How long the texts of all their requests are.
    queued: usize,
    unwritten: ByteQueue,
    unread: ByteQueue,
    /// When bytes came last.
    heard: Option<u64>,
    window: Window,
    /// What the responses to those that gave up are read by, in the order of the queue.
    forms: VecDeque<Request>,
}

impl Model for Pipe {
    ghost use Rattle.std.specs.Prelude.{◌≡◌, true};
    ghost use Rattle.tko_pipe.specs.Pipes.{MayBeUnread, PipeState, is_asked};
    ghost use Rattle.tko_pipe.specs.Waiters.{HasForms, lengths_of};

    ghost Value = { PipeState };

    ghost view = { λ p. record {
      limit = p.limit;
      link = p.link;
      waiters = p.waiters.items;
      unwritten = p.unwritten;
      unread = p.unread;
      heard = p.heard;
      window = p.window;
      forms = p.forms.items;
    } };

    ghost invariant = { λ p. (p.queued ≡ lengths_of p.waiters.items)
        × (is_asked p.unread p.waiters.items p.unwritten ≡ true)
        × MayBeUnread p.link p.unread
        × HasForms p.link p.waiters.items p.forms.items };
}

impl Pipe {
    /// A connection that is being made, on which a response may take `limit` milliseconds.
    pub fn new(alloc: Global, limit: u64) -> Pipe
        ensures { result ≡ opened_pipe limit }
    {
        Pipe {
            limit,
            link: Link::Connecting,
            waiters: VecDeque::new(alloc),
            queued: 0,
            unwritten: ByteQueue::new(alloc),
            unread: ByteQueue::new(alloc),
            heard: None,
            window: Window::unbegun(),
            forms: VecDeque::new(alloc),
        }
    }

    /// How far the connection is.
    pub fn link(&self) -> Link
        ensures { result ≡ self.now.link }
    {
        self.link
    }

    /// The connection was made.
    pub fn connected(&mut self)
        requires { self.old.link ≡ Link.Connecting }
        ensures { IsConnected self.old self.new }
    {
        self.link = Link::Connected;
    }

    /// A request is to be sent after the others, and the response to it is due at this moment. It
    /// must be one that the server answers, so without `noreply` and of one key at most.
    pub fn push(&mut self, by: Asker, due: u64, request: &Request) -> Result<(), NoMemory>
        requires live { IsLive self.old.link }
        requires here { has_gone by ≡ false }
        ensures ok { OnOk result (IsPushed self.old (pushing by due request.now) self.new) }
        ensures err { OnErr result (self.new ≡ self.old) }
    {
        let before = self.unwritten.len();
        self.unwritten.append_request(request)?;
        let len = self.unwritten.len() - before;
        let Some(queued) = self.queued.checked_add(len) else {
            self.unwritten.truncate(before);
            return Err(NoMemory);
        };
        if self.waiters.push_back(Waiter { by, due, len }).is_err() {
            self.unwritten.truncate(before);
            return Err(NoMemory);
        }
        self.queued = queued;
        Ok(())
    }

    /// What is to be written, once the connection was made.
    pub fn unwritten(&self) -> &[u8]
        ensures { result.now ≡ self.now.unwritten }
    {
        self.unwritten.as_slice()
    }

    /// So many bytes of it were written.
    pub fn wrote(&mut self, count: usize)
        requires connected { self.old.link ≡ Link.Connected }
        requires within { count ≤ length self.old.unwritten }
        ensures { IsWritten self.old (take count self.old.unwritten) self.new }
    {
        self.unwritten.pass(count);
    }

    /// These bytes were read, at this moment. An `Err` says that this shut the connection: nobody
    /// asked for them, or memory ran out.
    pub fn got(&mut self, now: u64, bytes: &[u8]) -> Result<(), ShutCause>
        requires connected { self.old.link ≡ Link.Connected }
        requires some { 0 < length bytes.now }
        ensures { GotEnds self.old bytes.now now result self.new }
    {
        if !is_first_written(&self.waiters, self.queued, self.unwritten.len()) {
            self.shut(ShutCause::Unasked);
            return Err(ShutCause::Unasked);
        }
        if self.unread.append(bytes).is_err() {
            self.shut(ShutCause::Memory);
            return Err(ShutCause::Memory);
        }
        self.heard = Some(now);
        self.window = self.window.after_read(now, bytes.len());
        Ok(())
    }

    /// Who waits for the next response, or is the next to leave. The response to one that gave up
    /// comes from `take_dropped`, and that to each other from `take`.
    pub fn first(&self) -> Option<&Waiter>
        ensures { option_copied result ≡ slice_get self.now.waiters 0 }
    {
        self.waiters.front()
    }

    /// The one at this place, from the front on.
    pub fn waiter(&self, place: usize) -> Option<&Waiter>
        ensures { option_copied result ≡ slice_get self.now.waiters place }
    {
        self.waiters.get(place)
    }

    /// How many wait for their responses, or to leave.
    pub fn in_flight(&self) -> usize
        ensures { result ≡ length self.now.waiters }
    {
        self.waiters.len()
    }

    /// When the first response is late, if one is awaited and no byte comes: one time limit after
    /// its request, and after the last moment at which the connection had brought 64 KiB more.
    pub fn late_at(&self) -> Option<u64>
        ensures { result ≡ late_at self.now }
    {
        let first = self.waiters.front()?;
        Some(self.window.late_after(self.limit, first.due))
    }

    /// Shuts the connection if the first response is late at this moment, and returns for which
    /// cause. Those behind it are not looked at: one time limit for all makes them due later.
    pub fn expire(&mut self, now: u64) -> Option<ShutCause>
        requires { IsLive self.old.link }
        ensures { ExpireEnds self.old now result self.new }
    {
        if self.late_at()? > now {
            return None;
        }
        if is_silent(self.heard, self.limit, now) {
            self.shut(ShutCause::Silent(now));
            return Some(ShutCause::Silent(now));
        }
        self.shut(ShutCause::Late(now));
        Some(ShutCause::Late(now))
    }

    /// Gives up the connection for this cause, with all that came on it and all that is to be
    /// written.
    pub fn shut(&mut self, cause: ShutCause)
        requires live { IsLive self.old.link }
        requires cause { IsCause self.old cause }
        ensures { IsShut self.old (shutting self.old cause) self.new }
    {
        let is_gone = is_first_gone(&self.waiters);
        self.link = Link::Shut(Fates::of(self.link, is_gone, cause));
        self.unwritten.clear();
        self.unread.clear();
        self.forms.clear();
    }

    /// The next of those that waited when the connection was shut, and what became of its request.
    /// As long as it isn't shut none leaves. One that gave up is nobody's.
    pub fn leave(&mut self) -> Option<(Asker, Fate)>
        ensures { LeaveEnds self.old result self.new }
    {
        let Link::Shut(fates) = self.link else {
            return None;
        };
        let waiter = self.waiters.pop_front()?;
        self.queued -= waiter.len;
        self.link = Link::Shut(fates.after(waiter.by));
        Some((waiter.by, fates.fate_for(waiter.by)))
    }
}

/// Whether no byte came for the whole time limit, up to this moment.
fn is_silent(heard: Option<u64>, limit: u64, now: u64) -> bool
    ensures { result ≡ is_silent heard limit now }
{
    match heard {
        Some(heard) => now.saturating_sub(heard) >= limit,
        None => true,
    }
}
