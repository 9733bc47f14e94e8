//! What a session says of itself: the replies that wait, the round that it owes, its report.
ghost use Rattle.std.specs.Prelude.{◌≡◌, ◌≤◌, ◌↔◌, [], false, IsTrue, length, take};
ghost use Rattle.tko_pools.specs.Configs.{Configuration};
ghost use Rattle.tko_reply.specs.Answering.{Extends};
ghost use Rattle.tko_reply.specs.Replies.{reply_bound};
ghost use Rattle.tko_session.specs.Driven.{IsSessionReady};
ghost use Rattle.tko_session.specs.Outgoing.{AreOutgoing, outgoing, sent_from};

use super::{Session, SessionWork};
use crate::step::Report;

impl Session {
    /// The first of the replies that may be written, in one piece; it is empty only if none may be.
    /// While a request is being answered, only those from before its reply may.
    pub fn output(&self) -> &[u8]
        ensures front { Extends result.now (outgoing self.now) }
        ensures some { result.now ≡ [] → outgoing self.now ≡ [] }
    {
        let front = self.outbox.front();
        match &self.work {
            SessionWork::Between => front,
            SessionWork::Key(_) => first_bytes(front, self.begin),
            SessionWork::HandedOver => first_bytes(front, self.begin),
        }
    }

    /// How many bytes of the replies may be written.
    pub fn waiting(&self) -> usize
        ensures { result ≡ length (outgoing self.now) }
    {
        let len = self.outbox.len();
        match &self.work {
            SessionWork::Between => len,
            SessionWork::Key(_) => self.begin.min(len),
            SessionWork::HandedOver => self.begin.min(len),
        }
    }

    /// How many bytes of the replies are held: of those that may be written, and of the one that is
    /// under way.
    pub fn held(&self) -> usize
        ensures { result ≡ length self.now.outbox }
    {
        self.outbox.len()
    }

    /// Whether the replies reached the bound, so that they are to be written first.
    pub fn is_full(&self) -> bool
        ensures { IsTrue result ↔ (reply_bound ≤ length self.now.outbox) }
    {
        self.outbox.is_full()
    }

    /// Drops the first `count` bytes of the replies, which were written. The reply that is under
    /// way then begins that much sooner.
    pub fn sent(&mut self, count: usize)
        requires may { AreOutgoing self.old count }
        ensures sent { self.new ≡ sent_from self.old count }
        ensures ready { (config : Configuration) → IsSessionReady config self.old
            → IsSessionReady config self.new }
    {
        self.outbox.drop_front(count);
        match &mut self.work {
            SessionWork::Between => {}
            SessionWork::Key(at) => {
                at.key.shift(count);
                self.begin = self.begin.saturating_sub(count);
            }
            SessionWork::HandedOver => self.begin = self.begin.saturating_sub(count),
        }
    }

    /// Drops all replies, which nobody can read any more.
    pub(crate) fn drop_replies(&mut self)
        ensures { self.new ≡ record self.old { outbox = [] } }
    {
        self.outbox.truncate(0);
    }

    /// Whether the round after the last request is still to be run.
    pub fn owes_round(&self) -> bool
        ensures { result ≡ self.now.owes }
    {
        self.owes
    }

    /// The round that was owed is run.
    pub fn round_run(&mut self)
        ensures { self.new ≡ record self.old { owes = false } }
    {
        self.owes = false;
    }

    /// What it came to, if the input ends here.
    pub fn report(&self) -> Report
        ensures requests { result.requests ≡ self.now.requests }
        ensures unfinished { result.unfinished ≡ length self.now.reading.unread }
    {
        Report {
            requests: self.requests,
            unfinished: self.reader.unfinished() as u64,
        }
    }

    /// What it came to, if `quit` ended it. What follows `quit` is no part of the session.
    pub fn report_after_quit(&self) -> Report
        ensures requests { result.requests ≡ self.now.requests }
        ensures unfinished { result.unfinished ≡ 0 }
    {
        Report {
            requests: self.requests,
            unfinished: 0,
        }
    }
}

/// The first `len` of these bytes, or all of them where there are fewer.
fn first_bytes(bytes: &[u8], len: usize) -> &[u8]
    ensures { result.now ≡ take len bytes.now }
{
    if len < bytes.len() {
        &bytes[..len]
    } else {
        bytes
    }
}
