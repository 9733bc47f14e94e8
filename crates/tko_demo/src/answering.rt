//! What a request is answered over a store.
ghost use Rattle.std.specs.Prelude.{OnErr, OnOk};
ghost use Rattle.tko_demo.specs.Answers.{AnswersItem, AnswersRequest, HasEffect, IsAtEnd};
ghost use Rattle.tko_demo.specs.Effects.{count_effect};
ghost use Rattle.tko_demo.specs.Stores.{IsSameStore, kept_at};

use crate::effect::{Count, Effect, counting, removing, storing, storing_unchanged, touching};
use crate::store::Store;
use crate::values::Numbering;
use std::alloc::Global;
use tko_bytes::{NoMemory, append};
use tko_text::{Entry, Item, Key, Request, Verb};

impl Store {
    /// Puts what an item is answered at the end of a buffer. At an `Err` a part of it may be there.
    pub(crate) fn answer(
        &mut self,
        alloc: Global,
        item: Item,
        out: &mut Vec<u8>,
    ) -> Result<(), NoMemory>
        ensures ok { OnOk result (IsAtEnd (λ text. AnswersItem item self.old text self.new)
            out.old.items out.new.items) }
        ensures err { OnErr result (IsSameStore self.old self.new) }
    {
        match item {
            Item::Fault(fault) => append(out, &[fault.reply()]),
            Item::Request(request) => self.answer_request(alloc, request, out),
        }
    }

    /// The same of a request.
    fn answer_request(
        &mut self,
        alloc: Global,
        request: Request,
        out: &mut Vec<u8>,
    ) -> Result<(), NoMemory>
        ensures ok { OnOk result (IsAtEnd (λ text. AnswersRequest request self.old text self.new)
            out.old.items out.new.items) }
        ensures err { OnErr result (IsSameStore self.old self.new) }
    {
        match request {
            Request::Get { keys } => self.append_listing(keys.as_slice(), Numbering::Without, out),
            Request::Gets { keys } => self.append_listing(keys.as_slice(), Numbering::With, out),
            Request::Store {
                verb,
                entry,
                noreply,
            } => self.answer_store(alloc, verb, entry, noreply, out),
            Request::Cas {
                entry,
                unique,
                noreply,
            } => self.answer_cas(alloc, unique, entry, noreply, out),
            Request::Delete { key, noreply } => {
                let effect = removing(self.found(&key));
                self.finish(alloc, &key, effect, noreply, out)
            }
            Request::Incr {
                key,
                amount,
                noreply,
            } => self.answer_count(alloc, &key, Count::Up(amount), noreply, out),
            Request::Decr {
                key,
                amount,
                noreply,
            } => self.answer_count(alloc, &key, Count::Down(amount), noreply, out),
            Request::Touch { key, noreply, .. } => {
                let effect = touching(self.found(&key));
                self.finish(alloc, &key, effect, noreply, out)
            }
            Request::Version => append(out, &[b"VERSION demo\r\n"]),
            Request::Quit => Ok(()),
            Request::StatsTko => append(out, &[b"ERROR\r\n"]),
        }
    }

    /// Answers `set`, `add`, `replace`, `append` or `prepend`.
    fn answer_store(
        &mut self,
        alloc: Global,
        verb: Verb,
        entry: Entry,
        noreply: bool,
        out: &mut Vec<u8>,
    ) -> Result<(), NoMemory>
        ensures ok { OnOk result
            (IsAtEnd (λ text.
            AnswersRequest (Request.Store verb entry noreply) self.old text self.new)
            out.old.items out.new.items) }
        ensures err { OnErr result (IsSameStore self.old self.new) }
    {
        let Entry {
            key,
            flags,
            value,
            ..
        } = entry;
        let effect = storing(alloc, verb, flags, value, self.found(&key))?;
        self.finish(alloc, &key, effect, noreply, out)
    }

    /// Answers `cas`.
    fn answer_cas(
        &mut self,
        alloc: Global,
        unique: u64,
        entry: Entry,
        noreply: bool,
        out: &mut Vec<u8>,
    ) -> Result<(), NoMemory>
        ensures ok { OnOk result
            (IsAtEnd (λ text.
            AnswersRequest (Request.Cas entry unique noreply) self.old text self.new)
            out.old.items out.new.items) }
        ensures err { OnErr result (IsSameStore self.old self.new) }
    {
        let Entry {
            key,
            flags,
            value,
            ..
        } = entry;
        let effect = storing_unchanged(unique, flags, value, self.found(&key));
        self.finish(alloc, &key, effect, noreply, out)
    }

    /// Answers `incr` or `decr`.
    fn answer_count(
        &mut self,
        alloc: Global,
        key: &Key,
        count: Count,
        noreply: bool,
        out: &mut Vec<u8>,
    ) -> Result<(), NoMemory>
        ensures ok { OnOk result (IsAtEnd (λ text. HasEffect key.now
            (count_effect count (kept_at self.old key.now)) noreply self.old text self.new)
            out.old.items out.new.items) }
        ensures err { OnErr result (IsSameStore self.old self.new) }
    {
        let effect = counting(alloc, count, self.found(key))?;
        self.finish(alloc, key, effect, noreply, out)
    }

    /// Answers a request that has this effect on its key, and changes what is stored there.
    fn finish(
        &mut self,
        alloc: Global,
        key: &Key,
        effect: Effect,
        noreply: bool,
        out: &mut Vec<u8>,
    ) -> Result<(), NoMemory>
        ensures ok { OnOk result
            (IsAtEnd (λ text. HasEffect key.now effect noreply self.old text self.new)
            out.old.items out.new.items) }
        ensures err { OnErr result (IsSameStore self.old self.new) }
    {
        let Effect { outcome, change } = effect;
        if !noreply {
            outcome.append_to(out)?;
        }
        self.change(alloc, key, change)
    }
}
