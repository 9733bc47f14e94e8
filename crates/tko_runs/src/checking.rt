//! The check of a run: whether each step finds the word that was left, and where each call takes
//! effect.
ghost use Rattle.std.specs.Prelude.{◌≡◌, IfOk, IfErr};
ghost use Rattle.tko_runs.specs.Orders.{IsLegalRun, IsOrderOf, IsRunFault};

mod calls;
mod effect;
pub(crate) mod order;
mod point;
mod state;
mod words;

use crate::checking::state::CheckState;
use crate::{Order, Run};
use std::alloc::Global;
use thiserror::Error;
use tko_bytes::NoMemory;

#[cfg(test)]
mod tests;

/// Why a run is refused. Steps are judged before calls.
#[derive(Clone, Copy, Debug, PartialEq, Eq, Error)]
pub enum RunFault {
    /// The number, as printed, of the first step that doesn't find the word that the steps before
    /// it left, or that leaves a word which no step of its kind can leave.
    #[error("step {0}")]
    Step(u64),
    /// The number, in the order of begins, of the first call that isn't legal.
    #[error("call {0}")]
    Call(usize),
    #[error("memory")]
    Memory,
}

impl From<NoMemory> for RunFault {
    ghost use Rattle.std.specs.Prelude.{◌≡◌};
    ghost use Rattle.tko_runs.specs.declared.checking.RunFault.TheVariants as fault;

    ghost from_gives = { λ _ e. e ≡ fault.Memory };

    fn from(_: NoMemory) -> RunFault {
        RunFault::Memory
    }
}

/// Where each call takes effect, if each step of the run finds and leaves a possible word and all
/// calls are legal.
pub fn check(alloc: Global, run: &Run) -> Result<Order, RunFault>
    ensures order { IfOk result (IsOrderOf run.now) }
    ensures legal { IfOk result (λ order. IsLegalRun run.now) }
    ensures err { IfErr result (IsRunFault run.now) }
    ensures never { IsLegalRun run.now → IfErr result (λ fault. fault ≡ RunFault.Memory) }
{
    let mut state = CheckState::open(alloc, run.settings())?;
    let events = run.events();
    for event in events {
        state.enter(alloc, event)?;
    }
    state.order(alloc)
}
