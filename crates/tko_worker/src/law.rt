//! What the calls of a worker are together.
ghost use Rattle.tko_worker.specs.Acts.{HasActed, HasServed};
ghost use Rattle.tko_worker.specs.Workers.{WorkerState};

use tko_port::{Port, Talking};

/// What the clients of a worker did by one call, and then by another, they did by both: so a whole
/// turn, or many, are one relation.
pub fn acts_compose<P, L: Port, T: Talking<P>>()
    ensures { (one two three : WorkerState L T P)
        → HasActed (T.awaited, T.talk, L.port) one two
        → HasActed (T.awaited, T.talk, L.port) two three
        → HasActed (T.awaited, T.talk, L.port) one three }
{}

/// What the clients of a worker did is for each number one session after another, over the parts
/// that all share; and each client that left was counted as one end.
pub fn clients_act<P, L: Port, T: Talking<P>>()
    ensures { (old new : WorkerState L T P) → HasActed (T.awaited, T.talk, L.port) old new
        → HasServed (T.awaited, T.talk, L.port) old new }
{}
