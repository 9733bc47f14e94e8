//! The part of a response that one key of a request has.
ghost use Rattle.std.specs.Prelude.{◌≡◌, ◌≢◌, ℕ, IfOk, List, OnErr};
ghost use Rattle.tko_text.specs.Responses.{part_for};

use super::{Response, Text, Value};
use crate::{Data, Key, NoMemory};
use std::alloc::Global;

/// The response to this key alone.
pub(crate) fn part(response: &mut Response, alloc: Global, key: &Key) -> Result<Response, NoMemory>
    ensures ok { IfOk result (λ part. part ≡ part_for key.now response.old) }
    ensures others { (other : List ℕ) → other ≢ key.now
        → part_for other response.new ≡ part_for other response.old }
    ensures err { OnErr result (response.new ≡ response.old) }
{
    match response {
        Response::Listed(listed) => Ok(Response::Values(listed.take(alloc, key)?)),
        Response::Values(None) => Ok(Response::Values(None)),
        Response::Values(Some(value)) => Ok(Response::Values(Some(copy_value(alloc, value)?))),
        Response::Stored => Ok(Response::Stored),
        Response::NotStored => Ok(Response::NotStored),
        Response::Exists => Ok(Response::Exists),
        Response::Deleted => Ok(Response::Deleted),
        Response::Touched => Ok(Response::Touched),
        Response::NotFound => Ok(Response::NotFound),
        Response::Number(n) => Ok(Response::Number(*n)),
        Response::Version(text) => Ok(Response::Version(copy_text(alloc, text)?)),
        Response::Error => Ok(Response::Error),
        Response::ClientError(text) => Ok(Response::ClientError(copy_text(alloc, text)?)),
        Response::ServerError(text) => Ok(Response::ServerError(copy_text(alloc, text)?)),
    }
}

/// The same value once more.
fn copy_value(alloc: Global, value: &Value) -> Result<Value, NoMemory>
    ensures { IfOk result (λ copy. copy ≡ value.now) }
{
    Ok(Value {
        key: value.key.copy(alloc)?,
        flags: value.flags,
        data: Data::new(Vec::from_slice(alloc, value.data.as_bytes())?),
        unique: value.unique,
    })
}

/// The same text once more.
fn copy_text(alloc: Global, text: &Text) -> Result<Text, NoMemory>
    ensures { IfOk result (λ copy. copy ≡ text.now) }
{
    Ok(Text::new(Vec::from_slice(alloc, text.as_bytes())?))
}
