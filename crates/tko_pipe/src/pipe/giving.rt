//! How those behind the front give up, at their places.
ghost use Rattle.std.specs.Prelude.{◌≡◌, ℕ, IfSome, IfNone, OnOk, OnErr};
ghost use Rattle.tko_pipe.specs.Giving.{HasGivenUp, IsNextOverdue, MayGiveUp};
ghost use Rattle.tko_pipe.specs.Pipes.{IsLive};

use super::{Pipe, is_silent};
use crate::form::{form_of, keep_form};
use crate::waiters::{behind_gone, give_up_at, is_next_due, overdue_from};
use std::alloc::Global;
use tko_text::{NoMemory, Request};

impl Pipe {
    /// The place of the next one that may give up at this moment: a client behind the front, whose
    /// response is due while one before it is being received, and which asked for nothing else
    /// before. None is before one that gave up.
    pub fn overdue(&self, now: u64) -> Option<usize>
        ensures some { IfSome result (λ place. IsNextOverdue self.now now place) }
        ensures none { IfNone result ((place : ℕ) → MayGiveUp self.now now place → ⊥) }
    {
        if !is_next_due(&self.waiters, now) {
            return None;
        }
        if self.unread.is_empty() {
            return None;
        }
        let silent = is_silent(self.heard, self.limit, now);
        if silent {
            return None;
        }
        let from = behind_gone(&self.waiters);
        overdue_from(&self.waiters, from, now)
    }

    /// The one at this place gives up, whose request is lent: its client goes on elsewhere, and its
    /// place stays. The response is dropped when it comes. Without memory for what it is read by
    /// nothing changes.
    pub fn give_up(
        &mut self,
        alloc: Global,
        now: u64,
        place: usize,
        request: &Request,
    ) -> Result<(), NoMemory>
        requires live { IsLive self.old.link }
        requires may { MayGiveUp self.old now place }
        ensures ok { OnOk result (HasGivenUp self.old now place request.now self.new) }
        ensures err { OnErr result (self.new ≡ self.old) }
    {
        let form = form_of(alloc, request)?;
        keep_form(&mut self.forms, form)?;
        give_up_at(&mut self.waiters, place);
        Ok(())
    }
}
