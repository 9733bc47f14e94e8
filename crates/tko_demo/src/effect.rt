//! What a request that names one key does, over what is stored under that key.
ghost use Rattle.std.specs.Prelude.{◌≡◌, ◌++◌, IfOk, OnErr, OnOk, option_copied};
ghost use Rattle.tko_demo.specs.Effects.{cas_effect, count_effect, number_after, fitting, outcome_line, removal, storing, touching};

use crate::store::Kept;
use itoa::Buffer;
use std::alloc::Global;
use tko_bytes::{NoMemory, append, number};
use tko_text::{Data, Verb};

/// How a request is answered.
#[derive(Clone, Copy)]
pub(crate) enum Outcome {
    Stored,
    NotStored,
    /// The cas number is another one by now.
    Exists,
    NotFound,
    Deleted,
    Touched,
    /// The number that is stored now.
    Number(u64),
    /// What is stored is no number.
    NotNumber,
    TooLarge,
}

/// What becomes of what is stored under the key.
#[derive(Drop)]
pub(crate) enum Change {
    Keep,
    /// These take its place.
    Put(u32, Data),
    Remove,
}

/// What a request does.
#[derive(Drop)]
pub(crate) struct Effect {
    pub outcome: Outcome,
    pub change: Change,
}

/// Another number for the one that is stored.
#[derive(Clone, Copy)]
pub(crate) enum Count {
    /// So much more; it wraps at 2^64.
    Up(u64),
    /// So much less, but not below 0.
    Down(u64),
}

impl Effect {
    /// Nothing becomes of it.
    fn only(outcome: Outcome) -> Effect
        ensures { (result.outcome ≡ outcome) × (result.change ≡ Change.Keep) }
    {
        Effect {
            outcome,
            change: Change::Keep,
        }
    }

    /// These are stored.
    fn put(flags: u32, value: Data) -> Effect
        ensures { (result.outcome ≡ Outcome.Stored) × (result.change ≡ Change.Put flags value) }
    {
        Effect {
            outcome: Outcome::Stored,
            change: Change::Put(flags, value),
        }
    }

    /// These are stored and answered so, if they are few enough.
    fn fitting(outcome: Outcome, flags: u32, bytes: Vec<u8>) -> Effect
        ensures { result ≡ fitting outcome flags bytes.items }
    {
        if !Data::fits(&bytes) {
            return Effect::only(Outcome::TooLarge);
        }
        Effect {
            outcome,
            change: Change::Put(flags, Data::new(bytes)),
        }
    }
}

/// What `set`, `add`, `replace`, `append` and `prepend` do.
pub(crate) fn storing(
    alloc: Global,
    verb: Verb,
    flags: u32,
    value: Data,
    found: Option<&Kept>,
) -> Result<Effect, NoMemory>
    ensures { IfOk result (λ effect.
        effect ≡ storing verb flags value (option_copied found.entry)) }
{
    match (verb, found) {
        (Verb::Set, _) => Ok(Effect::put(flags, value)),
        (Verb::Add, None) => Ok(Effect::put(flags, value)),
        (Verb::Add, Some(_)) => Ok(Effect::only(Outcome::NotStored)),
        (Verb::Replace, Some(_)) => Ok(Effect::put(flags, value)),
        (Verb::Append, Some(kept)) => joined(alloc, kept.flags, &kept.data, &value),
        (Verb::Prepend, Some(kept)) => joined(alloc, kept.flags, &value, &kept.data),
        (_, None) => Ok(Effect::only(Outcome::NotStored)),
    }
}

/// The bytes of both are stored, one after the other.
fn joined(alloc: Global, flags: u32, front: &Data, back: &Data) -> Result<Effect, NoMemory>
    ensures { IfOk result (λ effect.
        effect ≡ fitting Outcome.Stored flags (front.now ++ back.now)) }
{
    let mut bytes = Vec::from_slice(alloc, front.as_bytes())?;
    bytes.extend_from_slice(back.as_bytes())?;
    Ok(Effect::fitting(Outcome::Stored, flags, bytes))
}

/// What `cas` does.
pub(crate) fn storing_unchanged(
    unique: u64,
    flags: u32,
    value: Data,
    found: Option<&Kept>,
) -> Effect
    ensures { result ≡ cas_effect unique flags value (option_copied found.entry) }
{
    match found {
        None => Effect::only(Outcome::NotFound),
        Some(kept) if kept.unique != unique => Effect::only(Outcome::Exists),
        Some(_) => Effect::put(flags, value),
    }
}

/// What `delete` does.
pub(crate) fn removing(found: Option<&Kept>) -> Effect
    ensures { result ≡ removal (option_copied found.entry) }
{
    match found {
        None => Effect::only(Outcome::NotFound),
        Some(_) => Effect {
            outcome: Outcome::Deleted,
            change: Change::Remove,
        },
    }
}

/// What `touch` does: nothing here expires.
pub(crate) fn touching(found: Option<&Kept>) -> Effect
    ensures { result ≡ touching (option_copied found.entry) }
{
    match found {
        None => Effect::only(Outcome::NotFound),
        Some(_) => Effect::only(Outcome::Touched),
    }
}

/// What `incr` and `decr` do.
pub(crate) fn counting(
    alloc: Global,
    count: Count,
    found: Option<&Kept>,
) -> Result<Effect, NoMemory>
    ensures { IfOk result (λ effect. effect ≡ count_effect count (option_copied found.entry)) }
{
    let Some(kept) = found else {
        return Ok(Effect::only(Outcome::NotFound));
    };
    let Some(before) = number(kept.data.as_bytes(), u64::MAX) else {
        return Ok(Effect::only(Outcome::NotNumber));
    };
    let after = count.of(before);
    let mut digits = Buffer::new();
    let bytes = Vec::from_slice(alloc, digits.format(after).as_bytes())?;
    Ok(Effect::fitting(Outcome::Number(after), kept.flags, bytes))
}

impl Count {
    /// The number that follows this one.
    fn of(self, before: u64) -> u64
        ensures { result ≡ number_after self before }
    {
        match self {
            Count::Up(amount) => before.wrapping_add(amount),
            Count::Down(amount) => before.saturating_sub(amount),
        }
    }
}

impl Outcome {
    /// Puts the line at the end of a buffer.
    #[tactic(auto, unfolding(crate::specs::Effects::outcome_line))]
    pub(crate) fn append_to(self, out: &mut Vec<u8>) -> Result<(), NoMemory>
        ensures ok { OnOk result (out.new.items ≡ out.old.items ++ outcome_line self) }
        ensures err { OnErr result (out.new.items ≡ out.old.items) }
    {
        match self {
            Outcome::Stored => append(out, &[b"STORED\r\n"]),
            Outcome::NotStored => append(out, &[b"NOT_STORED\r\n"]),
            Outcome::Exists => append(out, &[b"EXISTS\r\n"]),
            Outcome::NotFound => append(out, &[b"NOT_FOUND\r\n"]),
            Outcome::Deleted => append(out, &[b"DELETED\r\n"]),
            Outcome::Touched => append(out, &[b"TOUCHED\r\n"]),
            Outcome::Number(n) => append_number(n, out),
            Outcome::NotNumber => append(
                out,
                &[b"CLIENT_ERROR cannot increment or decrement non-numeric value\r\n"],
            ),
            Outcome::TooLarge => append(out, &[b"SERVER_ERROR object too large for cache\r\n"]),
        }
    }
}

/// Puts the line of a number at the end of a buffer.
#[tactic(auto, unfolding(crate::specs::Effects::outcome_line))]
fn append_number(n: u64, out: &mut Vec<u8>) -> Result<(), NoMemory>
    ensures ok { OnOk result (out.new.items ≡ out.old.items ++ outcome_line (Outcome.Number n)) }
    ensures err { OnErr result (out.new.items ≡ out.old.items) }
{
    let mut digits = Buffer::new();
    append(out, &[digits.format(n).as_bytes(), b"\r\n"])
}
