//! A request that is put together for keys that are due at a server.
ghost use Rattle.std.specs.Prelude.{◌≡◌, ◌++◌, ◌∷◌, ℕ, Bool, [], IfOk, IfSome, List, OnErr, OnOk};
ghost use Rattle.tko_text.specs.Responses.{is_among};
ghost use Rattle.tko_reply.specs.Answering.{retrieval};
ghost use Rattle.tko_keys.specs.KeyLines.{IsKeyLineFor, Offered};
ghost use Rattle.tko_keys.specs.Lines.{key_in_request};

use crate::under_way::KeyLine;
use std::alloc::Global;
use tko_bytes::NoMemory;
use tko_text::{Key, Keys, LINE_LIMIT, Request};

/// How many bytes of a line are no keys and no spaces before them, at most: `gets`, CR and LF.
const FRAME: usize = 6;

impl KeyLine {
    /// A line for one key so far, which is asked for by a request of its own, with room for so
    /// many.
    pub(crate) fn of(
        alloc: Global,
        unique: bool,
        room: usize,
        request: &Request,
    ) -> Result<KeyLine, NoMemory>
        ensures others { IfOk result (λ line. line.others ≡ []) }
        ensures line { IfOk result (λ line.
            IsKeyLineFor unique (key_in_request request.now ∷ []) line) }
    {
        let Some(key) = key_of(request) else {
            return Err(NoMemory);
        };
        let bytes = FRAME + 1 + key.as_bytes().len();
        let mut keys = Vec::with_capacity(alloc, room)?;
        keys.push(key.copy(alloc)?)?;
        Ok(KeyLine {
            others: Vec::with_capacity(alloc, room)?,
            request: request_of(unique, Keys::new(keys)),
            bytes,
        })
    }

    /// Puts the key of a place into the line, and returns whether it had room.
    pub(crate) fn offer(
        &mut self,
        alloc: Global,
        place: usize,
        request: &Request,
    ) -> Result<bool, NoMemory>
        ensures ok { IfOk result (λ took. (unique : Bool) (keys : List (List ℕ))
            → IsKeyLineFor unique keys self.old
            → Offered took unique keys place (key_in_request request.now) self.old self.new) }
        ensures err { OnErr result (self.new ≡ self.old) }
    {
        let Some(key) = key_of(request) else {
            return Err(NoMemory);
        };
        let bytes = self.bytes.saturating_add(key.as_bytes().len() + 1);
        if bytes > LINE_LIMIT || has_key(&self.request, key) {
            return Ok(false);
        }
        let key = key.copy(alloc)?;
        self.others.reserve(1)?;
        push_key(&mut self.request, key)?;
        self.others.push_reserved(place);
        self.bytes = bytes;
        Ok(true)
    }
}

/// The key that a request for the values of one is for.
pub(crate) fn key_of(request: &Request) -> Option<&Key>
    ensures { IfSome result (λ key. key.now ≡ key_in_request request.now) }
{
    match request {
        Request::Get { keys } => keys.as_slice().first(),
        Request::Gets { keys } => keys.as_slice().first(),
        _ => None,
    }
}

/// A request for the values of these keys, with their cas numbers or without.
pub(crate) fn request_of(unique: bool, keys: Keys) -> Request
    ensures { result ≡ retrieval keys unique }
{
    if unique {
        Request::Gets { keys }
    } else {
        Request::Get { keys }
    }
}

/// Whether a request for values has this key.
fn has_key(request: &Request, key: &Key) -> bool
    ensures { (keys : List (List ℕ)) (unique : Bool) → request.now ≡ retrieval keys unique
        → result ≡ is_among keys key.now }
{
    match request {
        Request::Get { keys } => is_among(keys.as_slice(), key),
        Request::Gets { keys } => is_among(keys.as_slice(), key),
        _ => false,
    }
}

/// Whether a key is one of these.
fn is_among(keys: &[Key], key: &Key) -> bool
    ensures { result ≡ is_among keys.now key.now }
{
    keys.iter().any(|other| other.as_bytes() == key.as_bytes())
}

/// Puts a key behind those of a request for values.
fn push_key(request: &mut Request, key: Key) -> Result<(), NoMemory>
    ensures ok { OnOk result ((keys : List (List ℕ)) (unique : Bool)
        → request.old ≡ retrieval keys unique → request.new ≡ retrieval (keys ++ key ∷ []) unique) }
    ensures err { OnErr result (request.new ≡ request.old) }
{
    match request {
        Request::Get { keys } => keys.push(key),
        Request::Gets { keys } => keys.push(key),
        _ => Err(NoMemory),
    }
}
