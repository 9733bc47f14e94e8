//! The items of a session: the next one is read, and a fault is answered at once.
ghost use Rattle.std.specs.Prelude.{◌≡◌, ◌++◌, IfNone, IfOk, IfSome, OnErr, OnOk};
ghost use Rattle.tko_text.specs.Reading.{Emits, NeedsMore};
ghost use Rattle.tko_text.specs.Requests.{fault_text};
ghost use Rattle.tko_reply.specs.Standing.{whole_of};
ghost use Rattle.tko_session.specs.Driven.{ItemDropped, ItemRead, with_request_read};
ghost use Rattle.tko_session.specs.Working.{Between};

use super::{KeyAtWork, KeyWait, Session, SessionWork};
use crate::step::{Progress, Step};
use tko_bytes::NoMemory;
use tko_reply::OneKey;
use tko_text::{Item, Request, TextFault};

impl Session {
    /// Reads the next item, if one is decided. A fault is answered at once.
    pub(super) fn next_item(&mut self) -> Result<Step, NoMemory>
        requires between { self.old.work ≡ Between }
        ensures ok { IfOk result (λ step. ItemRead self.old step self.new) }
        ensures err { OnErr result (ItemDropped self.old self.new) }
    {
        match self.read_item()? {
            None => Ok(Step::At(Progress::NeedsInput)),
            Some(Item::Fault(fault)) => self.answer_fault(fault),
            Some(Item::Request(request)) => Ok(self.take_request(request)),
        }
    }

    fn read_item(&mut self) -> Result<Option<Item>, NoMemory>
        ensures item { IfOk result (λ found. IfSome found
            (λ item. Emits self.old.reading item self.new.reading)) }
        ensures none { IfOk result (λ found. IfNone found
            (NeedsMore self.old.reading × (self.new ≡ self.old))) }
        ensures others { self.new ≡ record self.old { reading = self.new.reading } }
    {
        self.reader.next()
    }

    /// Answers a fault.
    fn answer_fault(&mut self, fault: TextFault) -> Result<Step, NoMemory>
        ensures ok { OnOk result (self.new
            ≡ record self.old { outbox = self.old.outbox ++ fault_text fault }) }
        ensures step { IfOk result (λ step. step ≡ Step.Refused fault) }
        ensures err { OnErr result (self.new ≡ self.old) }
    {
        self.outbox.append(fault.reply())?;
        Ok(Step::Refused(fault))
    }

    /// Keeps a request that was read. From here on its round is owed.
    fn take_request(&mut self, request: Request) -> Step
        ensures step { result ≡ Step.Began }
        ensures state { self.new ≡ with_request_read (whole_of request) self.old }
    {
        self.owes = true;
        self.begin = self.outbox.len();
        let key = OneKey::whole(request);
        let wait = KeyWait::Read;
        self.work = SessionWork::Key(KeyAtWork { key, wait });
        Step::Began
    }
}
