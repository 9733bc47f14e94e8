//! The connections to one server.
ghost use Rattle.std.specs.Prelude.{◌≡◌, ◌<◌, ◌≤◌, [], true, false, Some, None, IsSome, Ok, OnErr, OnOk, length, option_copied, option_map, take};
ghost use Rattle.std.specs.Bool.{OnFalse, OnTrue};
ghost use Rattle.tko_pipe.specs.Ends.{ExpireEnds, GotEnds, IsTakenByForm, TakeEnds};
ghost use Rattle.tko_pipe.specs.Giving.{HasGivenUp, MayGiveUp};
ghost use Rattle.tko_pipe.specs.Pipes.{IsCause, IsConnected, IsShut, IsWritten, PipeState, pushing, shutting};
ghost use Rattle.tko_pipe.specs.Waiters.{has_gone};
ghost use Rattle.tko_mux.specs.Lines.{IsLinePushed, IsOnLive, IsOnPipe, LineLeaves, first_on, idle_line, is_gone_on, line_of, link_on, unwritten_on};

use std::alloc::Global;
use std::marker::Model;
use tko_bytes::NoMemory;
use tko_pipe::{Asker, Fate, Link, Pipe, ShutCause, Waiter};
use tko_text::{Request, Response};

/// The connections to one server: the one that requests go out on, if there is one, and one that
/// was shut, until all that waited on it have left.
#[derive(Drop)]
pub struct Line {
    pipe: Option<Pipe>,
    ended: Option<Pipe>,
}

impl Model for Line {
    ghost use Rattle.tko_pipe.specs.Waiters.{has_gone};
    ghost use Rattle.tko_mux.specs.Lines.{AreApart, LineState};

    ghost Value = { LineState };

    ghost view = { λ line. record { pipe = line.pipe; ended = line.ended } };

    ghost invariant = { λ line. AreApart line.pipe line.ended };
}

impl Line {
    /// Nobody waits, and there is no connection.
    pub fn new() -> Line
        ensures { result ≡ idle_line }
    {
        Line {
            pipe: None,
            ended: None,
        }
    }

    /// The connection that requests go out on.
    pub fn pipe(&self) -> Option<&Pipe>
        ensures { option_copied result ≡ self.now.pipe }
    {
        self.pipe.as_ref()
    }

    /// Whether there was a connection that was shut, and that not all who waited on it have left.
    pub fn is_leaving(&self) -> bool
        ensures some { OnTrue result (IsSome self.now.ended) }
        ensures none { OnFalse result (self.now.ended ≡ None) }
    {
        self.ended.is_some()
    }

    /// Who waits for the next response.
    pub fn first(&self) -> Option<&Waiter>
        ensures { option_copied result ≡ first_on self.now.pipe }
    {
        self.pipe.as_ref()?.first()
    }

    /// A request is to be sent after the others. Where there is no connection, one begins.
    pub fn push(
        &mut self,
        alloc: Global,
        limit: u64,
        by: Asker,
        due: u64,
        request: &Request,
    ) -> Result<(), NoMemory>
        requires here { has_gone by ≡ false }
        ensures ok { OnOk result
            (IsLinePushed limit self.old (pushing by due request.now) self.new) }
        ensures err { OnErr result (self.new ≡ self.old) }
    {
        let Some(pipe) = &mut self.pipe else {
            let mut pipe = Pipe::new(alloc, limit);
            pipe.push(by, due, request)?;
            self.pipe = Some(pipe);
            return Ok(());
        };
        pipe.push(by, due, request)
    }

    /// The response to the first request, which is lent, as soon as all of it was read.
    pub fn take(
        &mut self,
        alloc: Global,
        request: &Request,
    ) -> Result<Option<(Asker, Response)>, ShutCause>
        requires pipe { IsSome self.old.pipe }
        requires here { is_gone_on self.old.pipe ≡ false }
        requires left { self.old.ended ≡ None }
        ensures { IsOnPipe (λ was now. TakeEnds was request.now result now) self.old self.new }
    {
        let Some(mut pipe) = self.pipe.take() else {
            unreachable!();
        };
        let taken = pipe.take(alloc, request);
        *self = line_of(pipe);
        taken
    }

    /// The response to the first request, whose client gave up, as soon as all of it was read. It
    /// is to be dropped.
    pub fn take_dropped(&mut self, alloc: Global) -> Result<Option<(Asker, Response)>, ShutCause>
        requires pipe { IsSome self.old.pipe }
        requires gone { is_gone_on self.old.pipe ≡ true }
        requires left { self.old.ended ≡ None }
        ensures { IsOnPipe (λ was now. IsTakenByForm was result now) self.old self.new }
    {
        let Some(mut pipe) = self.pipe.take() else {
            unreachable!();
        };
        let taken = pipe.take_dropped(alloc);
        *self = line_of(pipe);
        taken
    }

    /// The one at this place gives up, whose request is lent. The response to it will be dropped.
    pub fn give_up(
        &mut self,
        alloc: Global,
        now: u64,
        place: usize,
        request: &Request,
    ) -> Result<(), NoMemory>
        requires may { (pipe : PipeState) → self.old.pipe ≡ Some pipe → MayGiveUp pipe now place }
        requires pipe { IsSome self.old.pipe }
        ensures ok { OnOk result
            (IsOnLive (λ was it. HasGivenUp was now place request.now it) self.old self.new) }
        ensures err { OnErr result (self.new ≡ self.old) }
    {
        match &mut self.pipe {
            Some(pipe) => pipe.give_up(alloc, now, place, request),
            None => unreachable!(),
        }
    }

    /// The connection was made.
    pub fn connected(&mut self)
        requires { link_on self.old.pipe ≡ Some Link.Connecting }
        ensures { IsOnLive IsConnected self.old self.new }
    {
        if let Some(pipe) = &mut self.pipe {
            pipe.connected();
        }
    }

    /// So many bytes of what is to be written were written.
    pub fn wrote(&mut self, count: usize)
        requires connected { link_on self.old.pipe ≡ Some Link.Connected }
        requires within { count ≤ length (unwritten_on self.old.pipe) }
        ensures { IsOnLive (λ was it. IsWritten was (take count was.unwritten) it)
            self.old self.new }
    {
        if let Some(pipe) = &mut self.pipe {
            pipe.wrote(count);
        }
    }

    /// These bytes were read, at this moment.
    pub fn got(&mut self, now: u64, bytes: &[u8]) -> Result<(), ShutCause>
        requires connected { link_on self.old.pipe ≡ Some Link.Connected }
        requires left { self.old.ended ≡ None }
        requires some { 0 < length bytes.now }
        ensures { IsOnPipe (λ was it. GotEnds was bytes.now now result it) self.old self.new }
    {
        let Some(mut pipe) = self.pipe.take() else {
            unreachable!();
        };
        let done = pipe.got(now, bytes);
        *self = line_of(pipe);
        done
    }

    /// Shuts the connection if the first response is late at this moment.
    pub fn expire(&mut self, now: u64) -> Option<ShutCause>
        requires pipe { IsSome self.old.pipe }
        requires left { self.old.ended ≡ None }
        ensures { IsOnPipe (λ was it. ExpireEnds was now result it) self.old self.new }
    {
        let Some(mut pipe) = self.pipe.take() else {
            unreachable!();
        };
        let cause = pipe.expire(now);
        *self = line_of(pipe);
        cause
    }

    /// Gives up the connection for this cause.
    pub fn shut(&mut self, cause: ShutCause)
        requires pipe { IsSome self.old.pipe }
        requires left { self.old.ended ≡ None }
        requires cause { (pipe : PipeState) → self.old.pipe ≡ Some pipe → IsCause pipe cause }
        ensures { IsOnPipe (λ was it. IsShut was (shutting was cause) it) self.old self.new }
    {
        let Some(mut pipe) = self.pipe.take() else {
            unreachable!();
        };
        pipe.shut(cause);
        *self = line_of(pipe);
    }

    /// The next that leaves, and what became of its request.
    pub fn leave(&mut self) -> Option<(Asker, Fate)>
        ensures { LineLeaves self.old result self.new }
    {
        let left = self.ended.as_mut()?.leave();
        if left.is_none() {
            self.ended = None;
        }
        left
    }
}

/// A connection on its line: apart once it was shut.
fn line_of(pipe: Pipe) -> Line
    ensures { result ≡ line_of pipe }
{
    match pipe.link() {
        Link::Connecting | Link::Connected => Line {
            pipe: Some(pipe),
            ended: None,
        },
        Link::Shut(_) => Line {
            pipe: None,
            ended: Some(pipe),
        },
    }
}
