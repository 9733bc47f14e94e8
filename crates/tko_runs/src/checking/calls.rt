//! The calls up to some event of a run.
ghost use Rattle.std.specs.Prelude.{◌≡◌, ◌<◌, length, get_or, OnOk, IfOk};
ghost use Rattle.tko_runs.specs.CheckStates.{AreOpened, HasBegun, HasGrown, HasStepped};

use crate::checking::effect::Effect;
use crate::checking::point::CheckedCall;
use std::alloc::Global;
use tko_bytes::NoMemory;
use tko_model::{Op, Reply};

/// The calls up to some event, in the order of their begins.
#[derive(Drop)]
pub(crate) struct CheckedCalls {
    /// The place of the call that each thread began last.
    pub latest: Vec<usize>,
    pub all: Vec<CheckedCall>,
}

impl CheckedCalls {
    /// So many threads, none of which has begun a call.
    pub fn open(alloc: Global, threads: usize) -> Result<CheckedCalls, NoMemory>
        ensures { IfOk result (AreOpened threads) }
    {
        Ok(CheckedCalls {
            latest: vec![in alloc; 0usize; threads]?,
            all: Vec::new(alloc),
        })
    }

    /// A thread begins a call.
    pub fn begin(
        &mut self,
        alloc: Global,
        thread: usize,
        number: u32,
        op: Op,
        server: usize,
    ) -> Result<(), NoMemory>
        requires { thread < length self.old.latest.items }
        ensures { OnOk result (HasBegun self.old thread number op server self.new) }
    {
        let call = CheckedCall {
            number,
            op,
            server,
            answer: None,
            steps: Vec::new(alloc),
        };
        self.latest[thread] = self.all.len();
        self.all.push(call)?;
        Ok(())
    }

    /// The call that a thread began last.
    pub fn last(&self, thread: usize) -> &CheckedCall
        requires thread { thread < length self.now.latest.items }
        requires latest { get_or self.now.latest.items thread 0 < length self.now.all.items }
        ensures { result.now ≡
            get_or self.now.all.items (get_or self.now.latest.items thread 0) result.now }
    {
        &self.all[self.latest[thread]]
    }

    /// Adds a step to the call that a thread began last, and sets the call's answer.
    pub fn step(
        &mut self,
        thread: usize,
        effect: Effect,
        answer: Option<Reply>,
    ) -> Result<(), NoMemory>
        requires thread { thread < length self.old.latest.items }
        requires latest { get_or self.old.latest.items thread 0 < length self.old.all.items }
        ensures { OnOk result (HasStepped self.old thread effect answer self.new) }
    {
        let latest = self.latest[thread];
        grow(&mut self.all[latest], effect, answer)?;
        Ok(())
    }
}

/// Gives a call one more step, and this answer.
fn grow(call: &mut CheckedCall, effect: Effect, answer: Option<Reply>) -> Result<(), NoMemory>
    ensures { OnOk result (HasGrown call.old effect answer call.new) }
{
    call.answer = answer;
    call.steps.push(effect)?;
    Ok(())
}
