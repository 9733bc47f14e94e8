//! How the values of several keys are joined: each is asked for alone, one after another.
ghost use Rattle.std.specs.Prelude.{◌≡◌, ℕ, IfOk, OnErr, OnOk};
ghost use Rattle.std.specs.Option.{option_copied};
ghost use Rattle.tko_reply.specs.Answering.{Extends};
ghost use Rattle.tko_reply.specs.Answers.{IsKeyed};
ghost use Rattle.tko_reply.specs.Asking.{ContinuesKeys, HasFront, IsFirst, Replies, front_of};
ghost use Rattle.tko_reply.specs.Standing.{shifted_key, whole_of};
ghost use Rattle.tko_reply.specs.declared.asking.ReplyPart.TheVariants.{Joined};

use crate::asking::{OneKey, ReplyPart};
use crate::keys_left::KeysLeft;
use crate::outbox::Outbox;
use crate::requests::{has_several, set_key, split_keys};
use std::alloc::Global;
use tko_bytes::NoMemory;
use tko_text::{Request, Response};

impl OneKey {
    /// Of several keys the first is asked for alone, and the others are left.
    pub(crate) fn split(&mut self, alloc: Global, waiting: usize) -> Result<(), NoMemory>
        requires whole { self.old ≡ whole_of self.old.request }
        requires keyed { IsKeyed self.old.request }
        ensures { OnOk result (IsFirst self.old.request waiting self.new) }
    {
        if !has_several(&self.request) {
            return Ok(());
        }
        let left = split_keys(&mut self.request, alloc)?;
        self.share = ReplyPart::Joined(waiting, left);
        Ok(())
    }

    /// The first `count` bytes of the outbox were dropped, so its reply begins that much sooner.
    pub fn shift(&mut self, count: usize)
        ensures { self.new ≡ shifted_key count self.old }
    {
        if let ReplyPart::Joined(begin, _) = &mut self.share {
            *begin = begin.saturating_sub(count);
        }
    }

    /// Puts the response to a key, or that there is none, into the reply. Among the values of
    /// several keys a response that is no list of values is all of the reply.
    pub(crate) fn put(
        &mut self,
        outbox: &mut Outbox,
        response: Option<&Response>,
    ) -> Result<(), NoMemory>
        requires front { HasFront self.old.share outbox.old }
        ensures ok { OnOk result (Replies self.old.share (option_copied response.entry) outbox.old
            self.new.share outbox.new) }
        ensures request { self.new.request ≡ self.old.request }
        ensures err { OnErr result (Extends (front_of self.old.share outbox.old) outbox.new) }
    {
        match &self.share {
            ReplyPart::Whole(silent) => outbox.append_unless(*silent, response),
            ReplyPart::Joined(begin, _) => {
                if outbox.append_next(*begin, response)? {
                    return Ok(());
                }
                self.share = ReplyPart::Whole(false);
                Ok(())
            }
        }
    }
}

/// Asks for the next of several keys, as for the one before it, or ends the values. Returns whether
/// there is a key to ask for.
pub(crate) fn join_next(
    outbox: &mut Outbox,
    request: &mut Request,
    left: &mut KeysLeft,
) -> Result<bool, NoMemory>
    ensures ok { IfOk result (λ keyed. (begin : ℕ) → ContinuesKeys
        (record { request = request.old; share = Joined begin left.old }) outbox.old
        keyed (record { request = request.new; share = Joined begin left.new })
        outbox.new) }
    ensures err { OnErr result (outbox.new ≡ outbox.old) }
{
    match left.next() {
        Some(key) => {
            set_key(request, key);
            Ok(true)
        }
        None => {
            outbox.append_end()?;
            Ok(false)
        }
    }
}
