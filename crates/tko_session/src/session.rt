//! One client's session as a value that is driven: bytes in, requests to be sent out, what came of
//! each in, replies out. It is lent the servers' health and the configuration, and returns what it
//! did; it sends, records and waits for nothing itself.
ghost use Rattle.std.specs.Prelude.{◌≡◌, ◌↔◌, IfErr, IfOk, IsErrOf, IsSome, OnErr, OnOk, Some, length};
ghost use Rattle.tko_text.specs.Reading.{Never};
ghost use Rattle.tko_route.specs.Routing.{GoesOn};
ghost use Rattle.tko_reply.specs.Standing.{SentKey};
ghost use Rattle.tko_reply.specs.declared.asking.OneKey.{OneKey};
ghost use Rattle.tko_session.specs.Driven.{AwaitedDropped, AwaitedTaken, IsAwaiting, IsReadyForNext, IsReadyForOutcome, IsSessionReady, WasDropped, WentOn, dropped};
ghost use Rattle.tko_session.specs.Working.{Awaits, key_in};
ghost use Rattle.tko_session.specs.SessionState.{fed_state, fresh_session};

use crate::step::Step;
use std::alloc::Global;
use std::marker::Model;
use std::mem::replace;
use std::net::SocketAddr;
use std::sync::Wait;
use tko_links::Outcome;
use tko_pools::Config;
use tko_reply::{Dropped, OneKey, Outbox, stop};
use tko_route::{AwaitedSend, Health};
use tko_text::{FeedFault, Reader, Request};

mod attempts;
mod handing;
mod items;
mod keys;
mod moments;
mod output;

/// One client's session: the reader of its bytes, the replies that wait to be written, the number
/// of its requests, whether it owes the round after the last one, and how far the answer to a
/// request came. It borrows nothing between two calls.
#[derive(Drop)]
pub struct Session {
    reader: Reader,
    outbox: Outbox,
    requests: u64,
    owes: bool,
    /// The request that is being answered, by the session or by its driver.
    work: SessionWork,
    /// Where the reply to the request begins in the outbox.
    begin: usize,
    /// The targets of the key that is asked for, and the room for those of the next one.
    targets: Vec<usize>,
    /// When the request was read, and when it was last sent, for an observer that times both; and
    /// where its client is. The model leaves them out.
    read_moment: u64,
    sent_moment: u64,
    client: Option<SocketAddr>,
}

/// What a session is at.
#[derive(Drop)]
enum SessionWork {
    /// No request is being answered.
    Between,
    /// The session answers a request.
    Key(KeyAtWork),
    /// The driver answers a request, which was handed over to it.
    HandedOver,
}

/// A request, or a key of it, and what the session waits for. It stays where it is from the first
/// key to the last.
#[derive(Drop)]
struct KeyAtWork {
    key: OneKey,
    wait: KeyWait,
}

/// What the session waits for before it goes on with a request or a key of it. How far the key is
/// says the `Stage` of its routing; the session keeps only what its driver was not given of it.
#[derive(Drop)]
enum KeyWait {
    /// The record of the request, which was read and is to be begun.
    Read,
    /// What comes of its send.
    Sent(AwaitedSend),
    /// The record of its trail; its response is in the outbox.
    Tried,
}

impl Model for Session {
    ghost use Rattle.tko_session.specs.SessionState.{SessionState};
    ghost use Rattle.tko_session.specs.Working.{work_at};

    ghost Value = { SessionState };

    ghost view = { λ s. record {
      reading = s.reader;
      outbox = s.outbox;
      requests = s.requests;
      owes = s.owes;
      work = work_at s.work;
      begin = s.begin;
      targets = s.targets.items;
    } };
}

impl Session {
    pub fn new(alloc: Global) -> Session
        ensures { result ≡ fresh_session }
    {
        Session {
            reader: Reader::new(alloc),
            outbox: Outbox::new(alloc),
            requests: 0,
            owes: false,
            work: SessionWork::Between,
            begin: 0,
            targets: Vec::new(alloc),
            read_moment: 0,
            sent_moment: 0,
            client: None,
        }
    }

    /// Takes the next piece of the client's bytes. After a line too long it takes none: each call
    /// then fails with `Failed`, and none with `Memory`.
    pub fn feed(&mut self, piece: &[u8]) -> Result<(), FeedFault>
        ensures ok { OnOk result (self.new ≡ fed_state self.old piece.now) }
        ensures failed { IsErrOf result FeedFault.Failed ↔ (self.old.reading.after ≡ Never) }
        ensures err { OnErr result (self.new ≡ self.old) }
    {
        self.reader.feed(piece)
    }

    /// Begins the request that was read, goes on after a key whose attempts ended, or else reads
    /// the next item, if one is decided.
    pub fn next<R: Wait, H: Health>(
        &mut self,
        rt: &R,
        alloc: Global,
        health: &mut H,
        config: &Config,
    ) -> Result<Step, Dropped>
        requires servers { H.servers health.old ≡ length config.now.addresses }
        requires ready { IsReadyForNext config.now self.old }
        ensures ok { IfOk result (λ step. GoesOn H.steps health.old
            (λ calls. WentOn config.now self.old calls step self.new) health.new) }
        ensures err { IfErr result (λ attempts. GoesOn H.steps health.old
            (λ calls. WasDropped config.now self.old calls attempts self.new) health.new) }
        ensures ready { OnOk result (IsSessionReady config.now self.new) }
        ensures servers { H.servers health.new ≡ H.servers health.old }
    {
        match &self.work {
            SessionWork::Between => Ok(self.next_item()?),
            SessionWork::Key(at) => match &at.wait {
                KeyWait::Read => self.begin_request(rt, alloc, health, config),
                KeyWait::Tried => self.go_on(rt, alloc, health, config),
                KeyWait::Sent(_) => unreachable!(),
            },
            SessionWork::HandedOver => unreachable!(),
        }
    }

    /// The request that was read, or that may be sent to the server that the last permission names.
    pub fn request(&self) -> &Request
        requires { IsSome (key_in self.now.work) }
        ensures { (one : OneKey) → key_in self.now.work ≡ Some one → result.now ≡ one.request }
    {
        match &self.work {
            SessionWork::Key(at) => at.key.request(),
            SessionWork::Between | SessionWork::HandedOver => unreachable!(),
        }
    }

    /// Records what came of the send, and goes on to the next target unless it was answered.
    pub fn answered<R: Wait, H: Health>(
        &mut self,
        rt: &R,
        health: &mut H,
        config: &Config,
        outcome: Outcome,
    ) -> Result<Step, Dropped>
        requires servers { H.servers health.old ≡ length config.now.addresses }
        requires ready { IsReadyForOutcome config.now self.old }
        ensures ok { IfOk result (λ step. GoesOn H.steps health.old
            (λ calls. AwaitedTaken config.now outcome self.old calls step self.new) health.new) }
        ensures err { IfErr result (λ attempts. GoesOn H.steps health.old
            (λ calls. AwaitedDropped config.now outcome self.old calls attempts self.new)
            health.new) }
        ensures ready { OnOk result (IsSessionReady config.now self.new) }
        ensures servers { H.servers health.new ≡ H.servers health.old }
    {
        let SessionWork::Key(KeyAtWork { key, wait }) = &mut self.work else {
            unreachable!();
        };
        let KeyWait::Sent(sent) = replace(wait, KeyWait::Tried) else {
            unreachable!();
        };
        let targets = self.targets.as_slice();
        let outbox = &mut self.outbox;
        match key.answered(rt, health, config, targets, outbox, sent, outcome) {
            Ok(stage) => Ok(self.go_to(stage)),
            Err(lost) => Err(self.drop_after(lost)),
        }
    }

    /// Drops the request where memory ran out at the send.
    pub fn stop(&mut self, fault: tko_links::ExchangeNoMemory) -> Dropped
        requires awaiting { IsAwaiting self.old.work }
        ensures dropped { self.new ≡ dropped self.old }
        ensures attempts { (it : SentKey) → self.old.work ≡ Awaits it
            → result ≡ it.awaited.attempts }
    {
        let SessionWork::Key(KeyAtWork { key: _, wait }) = &mut self.work else {
            unreachable!();
        };
        let KeyWait::Sent(sent) = replace(wait, KeyWait::Tried) else {
            unreachable!();
        };
        self.drop_after(stop(sent, fault))
    }

    /// Drops the request that is being answered, with what there is of its reply: where memory ran
    /// out as it was recorded, or as the trail of a key was.
    pub fn drop_request(&mut self)
        ensures { self.new ≡ dropped self.old }
    {
        self.work = SessionWork::Between;
        self.outbox.truncate(self.begin);
    }
}
