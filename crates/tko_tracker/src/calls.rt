//! The five calls of a thread on a server. None of them waits.
ghost use Rattle.std.specs.Prelude.{◌≡◌, ◌<◌, Some, None, if◌then◌else◌};
ghost use Rattle.tko_model.specs.Looks.{look_reply};
ghost use Rattle.tko_model.specs.declared.mark.Op.TheVariants as op;
ghost use Rattle.tko_table.specs.Passes.{owns};
ghost use Rattle.tko_tracker.specs.Seated.{Answered, IsOf, LookedUp, Retired, tracker_of};

use crate::pass::idle;
use crate::run::{look_at, run};
use crate::{IdlePass, Pass, Tracker};
use tko_model::{Duty, Look, Mark, Op, Reply};
use tko_table::Words;

impl Tracker {
    /// Looks a server up by one atomic load.
    pub fn look_up(&self, pass: &mut Pass, server: usize) -> Look
        requires tracker { IsOf self.now pass.old }
        requires server { server < self.now.settings.servers }
        ensures { LookedUp self.now pass.old server result pass.new }
    {
        let mark = look_at(&self.words, &mut pass.seat, pass.number, server);
        Look::of(server, mark)
    }

    /// Records a failure that may pass.
    pub fn soft_failure(&self, pass: &mut Pass, server: usize) -> Reply
        requires tracker { IsOf self.now pass.old }
        requires server { server < self.now.settings.servers }
        ensures { Answered self.now pass.old op.SoftFailure server result pass.new }
    {
        call(&self.words, pass, Op::SoftFailure, server)
    }

    /// Records that the server cannot be reached.
    pub fn hard_failure(&self, pass: &mut Pass, server: usize) -> Reply
        requires tracker { IsOf self.now pass.old }
        requires server { server < self.now.settings.servers }
        ensures { Answered self.now pass.old op.HardFailure server result pass.new }
    {
        call(&self.words, pass, Op::HardFailure, server)
    }

    /// Records a response.
    pub fn success(&self, pass: &mut Pass, server: usize) -> Reply
        requires tracker { IsOf self.now pass.old }
        requires server { server < self.now.settings.servers }
        ensures { Answered self.now pass.old op.Success server result pass.new }
    {
        call(&self.words, pass, Op::Success, server)
    }

    /// Gives the thread's own mark up.
    pub fn release(&self, pass: &mut Pass, server: usize) -> Reply
        requires tracker { IsOf self.now pass.old }
        requires server { server < self.now.settings.servers }
        ensures { Answered self.now pass.old op.Release server result pass.new }
    {
        call(&self.words, pass, Op::Release, server)
    }

    /// The right to probe the server, which its responsible thread has.
    pub fn duty(&self, pass: &Pass, server: usize) -> Option<Duty>
        requires tracker { IsOf self.now pass.now }
        requires server { server < self.now.settings.servers }
        ensures { result ≡ (if owns pass.now.pass.owned server then Some server else None) }
    {
        if !pass.owns(server) {
            return None;
        }
        Duty::of(server, Mark::Hard(pass.number()), pass.number())
    }

    /// Releases every mark of the thread, which then makes no more calls.
    pub fn retire(&self, pass: Pass) -> IdlePass
        requires tracker { IsOf self.now pass }
        ensures { Retired self.now pass result }
    {
        let mut awake = pass;
        release_all(&self.words, &mut awake);
        idle(awake)
    }
}

/// Releases each mark of the pass's thread.
fn release_all(words: &Words, pass: &mut Pass)
    requires { IsOf (tracker_of words.now) pass.old }
    ensures { Retired (tracker_of words.now) pass.old pass.new }
{
    for server in 0..words.settings.servers as usize {
        if pass.owns(server) {
            let _ = call(words, pass, Op::Release, server);
        }
    }
    let _ = pass.number();
}

/// Makes the call, and brings the owned servers up to date.
fn call(words: &Words, pass: &mut Pass, op: Op, server: usize) -> Reply
    requires tracker { IsOf (tracker_of words.now) pass.old }
    requires server { server < words.now.settings.servers }
    ensures { Answered (tracker_of words.now) pass.old op server result pass.new }
{
    let reply = run(words, &mut pass.seat, pass.number, op, server);
    pass.owned.record(reply, server);
    reply
}
