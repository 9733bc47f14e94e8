//! The health of the servers, as one worker has it between two seats.
ghost use Rattle.std.specs.Prelude.{◌≡◌};
ghost use Rattle.tko_event_threads.specs.Origins.{IsReached};

use crate::origin::Origin;
use std::marker::{Model, PhantomData};
use std::sync::Wait;
use tko_health::Health;
use tko_model::{Duty, Look, Reply};

/// The health of the servers, which was reached by its own calls from where its worker began.
#[derive(Drop)]
pub(crate) struct SeatHealth<N: Origin<H>, H: Health> {
    health: H,
    of: PhantomData<N>,
}

impl<N: Origin<H>, H: Health> Model for SeatHealth<N, H> {
    ghost use Rattle.tko_event_threads.specs.Origins.{IsReached};

    ghost Value = { H };

    ghost view = { λ it. it.health };

    ghost invariant = { λ it. IsReached H.steps N.seated it.health };
}

impl<N: Origin<H>, H: Health> SeatHealth<N, H> {
    /// A worker begins.
    pub(crate) fn new(health: H) -> SeatHealth<N, H>
        requires { N.seated health }
        ensures { result ≡ health }
    {
        SeatHealth {
            health,
            of: PhantomData,
        }
    }

    /// The worker ends.
    pub(crate) fn into_health(self) -> H
        ensures health { result ≡ self }
        ensures reached { IsReached H.steps N.seated result }
    {
        self.health
    }
}

impl<N: Origin<H>, H: Health> Health for SeatHealth<N, H> {
    ghost servers = { H.servers };

    ghost steps = { H.steps };

    ghost grants = { H.grants };

    fn look_up<R: Wait>(&mut self, rt: &R, server: usize) -> Look {
        self.health.look_up(rt, server)
    }

    fn soft_failure<R: Wait>(&mut self, rt: &R, server: usize) -> Reply {
        self.health.soft_failure(rt, server)
    }

    fn hard_failure<R: Wait>(&mut self, rt: &R, server: usize) -> Reply {
        self.health.hard_failure(rt, server)
    }

    fn success<R: Wait>(&mut self, rt: &R, server: usize) -> Reply {
        self.health.success(rt, server)
    }

    fn release<R: Wait>(&mut self, rt: &R, server: usize) -> Reply {
        self.health.release(rt, server)
    }

    fn duty<R: Wait>(&mut self, rt: &R, server: usize) -> Option<Duty> {
        self.health.duty(rt, server)
    }

    fn servers(&self) -> usize {
        self.health.servers()
    }
}
