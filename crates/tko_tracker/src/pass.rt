//! A thread's place at the tracker.
ghost use Rattle.std.specs.Prelude.{◌≡◌, ◌<◌};
ghost use Rattle.tko_steps.specs.declared.phase.ThreadState.TheVariants.{Idle};
ghost use Rattle.tko_table.specs.Passes.{owns};
ghost use Rattle.tko_tracker.specs.Seated.{OwnsBelow, OwnsNothing};

use crate::owned::{Owned, SERVER_END};
use std::marker::Model;
use tko_table::Seat;

/// The place of a thread that makes no calls. It owns no server.
#[derive(Drop)]
pub struct IdlePass {
    pub(crate) number: u32,
    pub(crate) seat: Seat,
}

impl Model for IdlePass {
    ghost use Rattle.tko_tracker.specs.Seated.{HasIdlePass, Seated, seated};

    ghost Value = { Seated };

    ghost view = { λ p. seated p.seat };

    ghost invariant = { λ p. HasIdlePass p.number p.seat };
}

impl IdlePass {
    /// The number of its thread.
    pub fn number(&self) -> u32
        ensures number { self.now.pass.state ≡ Idle result }
        ensures none { OwnsNothing self.now.pass }
    {
        self.number
    }
}

/// The place of a thread that makes calls.
#[derive(Drop)]
pub struct Pass {
    pub(crate) number: u32,
    pub(crate) seat: Seat,
    pub(crate) owned: Owned,
}

impl Model for Pass {
    ghost use Rattle.tko_tracker.specs.Seated.{HasOwnedPass, Seated, seated};

    ghost Value = { Seated };

    ghost view = { λ p. seated p.seat };

    ghost invariant = { λ p. HasOwnedPass p.number p.owned.words p.seat };
}

/// Makes a pass for calls. It takes no step.
pub fn wake(idle: IdlePass) -> Pass
    ensures same { result ≡ idle }
    ensures none { OwnsNothing result.pass }
{
    Pass {
        number: idle.number,
        seat: idle.seat,
        owned: Owned::none(),
    }
}

/// The pass of a thread that owns nothing, when it makes no more calls.
pub(crate) fn idle(pass: Pass) -> IdlePass
    requires { OwnsNothing pass.pass }
    ensures { result ≡ pass }
{
    IdlePass {
        number: pass.number,
        seat: pass.seat,
    }
}

impl Pass {
    /// The number of its thread.
    pub fn number(&self) -> u32
        ensures number { self.now.pass.state ≡ Idle result }
        ensures below { OwnsBelow self.now.pass }
    {
        self.number
    }

    /// Whether its thread is responsible for the server: whether the server's mark names it.
    pub fn owns(&self, server: usize) -> bool
        ensures { result ≡ owns self.now.pass.owned server }
    {
        server < SERVER_END && self.owned.has(server)
    }
}
