//! What a response is read by once its request is gone.
ghost use Rattle.std.specs.Prelude.{◌≡◌, ◌∷◌, ◌++◌, [], Some, Err, IfOk, IfErr, OnOk, OnErr, drop, slice_get};
ghost use Rattle.tko_text.specs.ResponseReads.{ReadsResponse};
ghost use Rattle.tko_pipe.specs.Fronts.{IsFront};
ghost use Rattle.tko_pipe.specs.Waiters.{forms_after};
ghost use Rattle.tko_text.specs.Responses.{Counting, Deletion, Storage, Touching, request_kind};

use crate::Asker;
use crate::byte_queue::ByteQueue;
use std::alloc::Global;
use std::collections::VecDeque;
use tko_text::{Data, Entry, Key, Keys, NoMemory, ReadFault, Request, Response, Verb};

/// A request that has the same responses, with the same keys and none of the data.
pub(crate) fn form_of(alloc: Global, request: &Request) -> Result<Request, NoMemory>
    ensures { IfOk result (λ form. request_kind form ≡ request_kind request.now) }
{
    match request {
        Request::Get { keys } => get_form(alloc, keys),
        Request::Gets { keys } => gets_form(alloc, keys),
        Request::Store { entry, .. } => storage_form(alloc, &entry.key),
        Request::Cas { entry, .. } => storage_form(alloc, &entry.key),
        Request::Delete { key, .. } => delete_form(alloc, key),
        Request::Incr { key, .. } => count_form(alloc, key),
        Request::Decr { key, .. } => count_form(alloc, key),
        Request::Touch { key, .. } => touch_form(alloc, key),
        Request::Version => Ok(Request::Version),
        Request::Quit => Ok(Request::Quit),
        Request::StatsTko => Ok(Request::StatsTko),
    }
}

fn get_form(alloc: Global, keys: &Keys) -> Result<Request, NoMemory>
    ensures { IfOk result (λ form. form ≡ Request.Get keys.now) }
{
    let keys = copy_of(alloc, keys)?;
    Ok(Request::Get { keys })
}

fn gets_form(alloc: Global, keys: &Keys) -> Result<Request, NoMemory>
    ensures { IfOk result (λ form. form ≡ Request.Gets keys.now) }
{
    let keys = copy_of(alloc, keys)?;
    Ok(Request::Gets { keys })
}

fn storage_form(alloc: Global, key: &Key) -> Result<Request, NoMemory>
    ensures { IfOk result (λ form. request_kind form ≡ Some Storage) }
{
    let key = key.copy(alloc)?;
    let value = Data::new(Vec::new(alloc));
    let entry = Entry {
        key,
        flags: 0,
        expiry: 0,
        value,
    };
    Ok(Request::Store {
        verb: Verb::Set,
        entry,
        noreply: false,
    })
}

fn delete_form(alloc: Global, key: &Key) -> Result<Request, NoMemory>
    ensures { IfOk result (λ form. request_kind form ≡ Some Deletion) }
{
    let key = key.copy(alloc)?;
    Ok(Request::Delete {
        key,
        noreply: false,
    })
}

fn count_form(alloc: Global, key: &Key) -> Result<Request, NoMemory>
    ensures { IfOk result (λ form. request_kind form ≡ Some Counting) }
{
    let key = key.copy(alloc)?;
    Ok(Request::Incr {
        key,
        amount: 0,
        noreply: false,
    })
}

fn touch_form(alloc: Global, key: &Key) -> Result<Request, NoMemory>
    ensures { IfOk result (λ form. request_kind form ≡ Some Touching) }
{
    let key = key.copy(alloc)?;
    Ok(Request::Touch {
        key,
        expiry: 0,
        noreply: false,
    })
}

/// The same keys once more.
fn copy_of(alloc: Global, keys: &Keys) -> Result<Keys, NoMemory>
    ensures { IfOk result (λ copy. copy ≡ keys.now) }
{
    let keys = keys.as_slice();
    let mut copy = Keys::one(alloc, keys[0].copy(alloc)?);
    let others = &keys[1..];
    for key in others {
        copy.push(key.copy(alloc)?)?;
    }
    Ok(copy)
}

/// Keeps a form behind the others.
pub(crate) fn keep_form(forms: &mut VecDeque<Request>, form: Request) -> Result<(), NoMemory>
    ensures ok { OnOk result (forms.new.items ≡ forms.old.items ++ form ∷ []) }
    ensures err { OnErr result (forms.new.items ≡ forms.old.items) }
{
    forms.push_back(form)?;
    Ok(())
}

/// Takes the response to the first of these from the front of what was read.
pub(crate) fn read_by_form(
    alloc: Global,
    forms: &VecDeque<Request>,
    unread: &mut ByteQueue,
) -> Result<Response, ReadFault>
    ensures ok { IfOk result (λ response. (form : Request)
        → slice_get forms.now.items 0 ≡ Some form → IsFront form unread.old response unread.new) }
    ensures err { OnErr result (unread.new ≡ unread.old) }
    ensures fault { IfErr result (λ fault. (form : Request)
        → slice_get forms.now.items 0 ≡ Some form → ReadsResponse form unread.old (Err fault)) }
{
    match forms.front() {
        Some(form) => unread.take_response(alloc, form),
        None => Err(ReadFault::Short),
    }
}

/// Drops the first form where the response to this one was read by it.
pub(crate) fn drop_form(forms: &mut VecDeque<Request>, by: Asker)
    ensures { forms.new.items ≡ forms_after by forms.old.items }
{
    match by {
        Asker::GaveUp(_) => drop_first(forms),
        Asker::Client(_) => {}
        Asker::Probe => {}
    }
}

fn drop_first(forms: &mut VecDeque<Request>)
    ensures { forms.new.items ≡ drop 1 forms.old.items }
{
    forms.pop_front();
}
