//! How the responses are taken, from the front on.
ghost use Rattle.std.specs.Prelude.{◌≡◌, List, ◌∷◌, Some, true, false, slice_get};
ghost use Rattle.tko_pipe.specs.Ends.{EndsFirst, IsTakenByForm, TakeEnds};
ghost use Rattle.tko_pipe.specs.Pipes.{IsLive};
ghost use Rattle.tko_pipe.specs.Waiters.{is_first_gone};

use super::Pipe;
use crate::form::{drop_form, read_by_form};
use crate::waiters::is_asked;
use crate::{Asker, Link, ShutCause, Waiter};
use std::alloc::Global;
use tko_text::{ReadFault, Request, Response};

impl Pipe {
    /// The response to the first request, which is lent, as soon as all of it was read. An `Err`
    /// says that this shut the connection: what came is no response to it, or memory ran out. Bytes
    /// that follow a response and that nobody asked for shut it too. On a connection that was shut
    /// no response comes.
    pub fn take(
        &mut self,
        alloc: Global,
        request: &Request,
    ) -> Result<Option<(Asker, Response)>, ShutCause>
        requires here { is_first_gone self.old.waiters ≡ false }
        ensures { TakeEnds self.old request.now result self.new }
    {
        match self.link {
            Link::Connected => self.take_connected(alloc, request),
            Link::Connecting => Ok(None),
            Link::Shut(_) => Ok(None),
        }
    }

    /// The same while the connection is there.
    fn take_connected(
        &mut self,
        alloc: Global,
        request: &Request,
    ) -> Result<Option<(Asker, Response)>, ShutCause>
        requires connected { self.old.link ≡ Link.Connected }
        requires here { is_first_gone self.old.waiters ≡ false }
        ensures { TakeEnds self.old request.now result self.new }
    {
        let Some(first) = self.waiters.front() else {
            return Ok(None);
        };
        let by = first.by;
        if self.unread.is_empty() {
            return Ok(None);
        }
        match self.unread.take_response(alloc, request) {
            Ok(response) => {
                self.end_first();
                Ok(Some((by, response)))
            }
            Err(ReadFault::Short) => Ok(None),
            Err(ReadFault::Unreadable) => {
                self.shut(ShutCause::Unreadable);
                Err(ShutCause::Unreadable)
            }
            Err(ReadFault::Memory) => {
                self.shut(ShutCause::Memory);
                Err(ShutCause::Memory)
            }
        }
    }

    /// The response to the first one, which gave up, as soon as all of it was read. It is nobody's:
    /// the caller drops it. An `Err` says what it does after `take`.
    pub fn take_dropped(&mut self, alloc: Global) -> Result<Option<(Asker, Response)>, ShutCause>
        requires live { IsLive self.old.link }
        requires gone { is_first_gone self.old.waiters ≡ true }
        ensures { IsTakenByForm self.old result self.new }
    {
        match self.link {
            Link::Connected => self.drop_connected(alloc),
            Link::Connecting => Ok(None),
            Link::Shut(_) => Ok(None),
        }
    }

    /// The same while the connection is there.
    fn drop_connected(&mut self, alloc: Global) -> Result<Option<(Asker, Response)>, ShutCause>
        requires connected { self.old.link ≡ Link.Connected }
        requires gone { is_first_gone self.old.waiters ≡ true }
        ensures { (form : Request) → slice_get self.old.forms 0 ≡ Some form
            → TakeEnds self.old form result self.new }
    {
        let Some(first) = self.waiters.front() else {
            return Ok(None);
        };
        let by = first.by;
        if self.unread.is_empty() {
            return Ok(None);
        }
        match read_by_form(alloc, &self.forms, &mut self.unread) {
            Ok(response) => {
                self.end_first();
                Ok(Some((by, response)))
            }
            Err(ReadFault::Short) => Ok(None),
            Err(ReadFault::Unreadable) => {
                self.shut(ShutCause::Unreadable);
                Err(ShutCause::Unreadable)
            }
            Err(ReadFault::Memory) => {
                self.shut(ShutCause::Memory);
                Err(ShutCause::Memory)
            }
        }
    }

    /// The first one's response is out of what was read. Bytes that are left and that nobody asked
    /// for shut the connection.
    fn end_first(&mut self)
        requires { self.old.link ≡ Link.Connected }
        ensures { (waiter : Waiter) (others : List Waiter) → self.old.waiters ≡ waiter ∷ others
            → EndsFirst self.old waiter others self.new }
    {
        let Some(waiter) = self.waiters.pop_front() else {
            return;
        };
        self.queued -= waiter.len;
        drop_form(&mut self.forms, waiter.by);
        if is_asked(&self.unread, &self.waiters, self.queued, &self.unwritten) {
            return;
        }
        self.unread.clear();
        self.shut(ShutCause::Unasked);
    }
}
