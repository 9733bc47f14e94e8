//! The seats of workers: each worker thread has a health object of its own while it works.
ghost use Rattle.tko_health.specs.Seating.{Leaves};

use crate::health::Health;
use std::sync::Wait;

/// Gives each worker its health object, and takes it back when the worker ends. What a worker has
/// while it does not work is an idle seat; it can be seated again by any thread.
pub trait Seating {
    ghost use Rattle.std.specs.Prelude.{◌≡◌, ℕ};

    type Idle;

    type Worker: Health;

    /// How many servers its workers know.
    ghost servers: { Self → ℕ };

    /// The idle seats that are its own.
    ghost own: { Self → Self.Idle → Type 0 };

    /// A worker begins so from its idle seat.
    ghost begins: { Self → Self.Idle → Self.Worker → Type 0 };

    /// The seat is what a worker gives back so.
    ghost gives_back: { Self → Self.Worker → Self.Idle → Type 0 };

    /// Seats a worker. It takes no memory and waits for nobody.
    fn seat(&self, idle: Self::Idle) -> Self::Worker
        requires { own self.now idle }
        ensures servers { Self.Worker.servers result ≡ servers self.now }
        ensures begins { begins self.now idle result };

    /// A worker leaves, and gives up its marks. It may release servers first.
    fn leave<R: Wait>(&self, rt: &R, worker: Self::Worker) -> Self::Idle
        ensures own { own self.now result }
        ensures leaves { Leaves Self.Worker.steps (gives_back self.now) worker result };
}
