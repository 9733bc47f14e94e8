//! A request for several keys is handed over, so that its driver asks for more than one of them at
//! a time, and its reply is taken back.
ghost use Rattle.std.specs.Prelude.{◌≡◌, ◌↔◌, IfNone, IfSome, IsTrue, OnErr, OnOk};
ghost use Rattle.tko_pools.specs.Configs.{Configuration};
ghost use Rattle.tko_keys.specs.KeysState.{reply_in};
ghost use Rattle.tko_session.specs.Driven.{IsSessionReady, dropped};
ghost use Rattle.tko_session.specs.Handing.{HandsNone, HandsOver, IsForSeveral, IsHanded, replied_by};

use super::{KeyAtWork, KeyWait, Session, SessionWork};
use crate::step::Progress;
use std::mem::replace;
use tko_bytes::NoMemory;
use tko_keys::KeysAtOnce;
use tko_reply::has_several;
use tko_text::Request;

impl Session {
    /// Hands over the request that was read, where it is one for several keys and was not begun.
    /// The driver answers it then, in place of the next call.
    pub fn hand_over(&mut self) -> Option<Request>
        ensures some { IfSome result (λ request. HandsOver self.old request self.new) }
        ensures none { IfNone result (HandsNone self.old self.new) }
        ensures ready { (config : Configuration) → IsSessionReady config self.old
            → IsSessionReady config self.new }
    {
        if !self.is_for_several() {
            return None;
        }
        let SessionWork::Key(at) = replace(&mut self.work, SessionWork::HandedOver) else {
            unreachable!();
        };
        Some(at.key.into_request())
    }

    /// Whether a request for several keys was read and is to be begun.
    fn is_for_several(&self) -> bool
        ensures { IsTrue result ↔ IsForSeveral self.now.work }
    {
        match &self.work {
            SessionWork::Key(
                KeyAtWork {
                    key,
                    wait: KeyWait::Read,
                },
            ) => has_several(key.request()),
            _ => false,
        }
    }

    /// Takes the reply to the request that was handed over, and counts it. Where memory runs out
    /// the request is dropped.
    pub fn take_reply(&mut self, keys: KeysAtOnce) -> Result<(), NoMemory>
        requires handed { IsHanded self.old }
        ensures ok { OnOk result (self.new ≡ replied_by (reply_in keys.slots) self.old) }
        ensures err { OnErr result (self.new ≡ dropped self.old) }
    {
        if keys.finish(&mut self.outbox).is_err() {
            self.drop_request();
            return Err(NoMemory);
        }
        self.finish(Progress::More);
        Ok(())
    }
}
