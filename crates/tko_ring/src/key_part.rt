//! What part of a key is hashed.
ghost use Rattle.std.specs.Prelude.{◌≡◌, None, Some, IfOk, IsTrue, MatchOption};
ghost use Rattle.tko_ring.specs.KeyParts.{after_byte, before_byte, hashed_part, tag_text, text_or, without_prefix};

use crate::Prefix;
use memchr::memchr;
use std::alloc::Global;
use tko_bytes::NoMemory;

/// What part of a key is hashed.
#[derive(Debug, Drop)]
pub enum KeyPart {
    Whole,
    /// What stands between the first `opening` and the next `closing`; the whole key where that is
    /// nothing, or one of the two is missing.
    Tagged { opening: u8, closing: u8 },
    /// What follows this prefix; the whole key where it begins otherwise.
    AfterPrefix(Prefix),
}

impl KeyPart {
    /// The part of a key that is hashed.
    pub fn of<'k>(&self, key: &'k [u8]) -> &'k [u8]
        ensures { result.now ≡ hashed_part self.now key.now }
    {
        match self {
            KeyPart::Whole => key,
            KeyPart::Tagged { opening, closing } => tagged(*opening, *closing, key),
            KeyPart::AfterPrefix(prefix) => without_prefix(prefix.bytes(), key),
        }
    }

    pub fn copy(&self, alloc: Global) -> Result<KeyPart, NoMemory>
        ensures { IfOk result (λ copy. copy ≡ self.now) }
    {
        match self {
            KeyPart::Whole => Ok(KeyPart::Whole),
            KeyPart::Tagged { opening, closing } => Ok(KeyPart::Tagged {
                opening: *opening,
                closing: *closing,
            }),
            KeyPart::AfterPrefix(prefix) => Ok(KeyPart::AfterPrefix(prefix.copy(alloc)?)),
        }
    }

    /// Whether another is the same.
    pub fn is_same(&self, other: &KeyPart) -> bool
        ensures { IsTrue result → self.now ≡ other.now }
    {
        match (self, other) {
            (KeyPart::Whole, KeyPart::Whole) => true,
            (
                KeyPart::Tagged { opening, closing },
                KeyPart::Tagged {
                    opening: first,
                    closing: last,
                },
            ) => opening == first && closing == last,
            (KeyPart::AfterPrefix(one), KeyPart::AfterPrefix(another)) => one.is_same(another),
            _ => false,
        }
    }
}

fn tagged(opening: u8, closing: u8, key: &[u8]) -> &[u8]
    ensures { result.now ≡ text_or (tag_text opening closing key.now) key.now }
{
    match tag_text(opening, closing, key) {
        Some(text) if !text.is_empty() => text,
        _ => key,
    }
}

/// What stands between the first `opening` and the next `closing`.
fn tag_text(opening: u8, closing: u8, key: &[u8]) -> Option<&[u8]>
    ensures { MatchOption result (tag_text opening closing key.now ≡ None)
        (λ text. tag_text opening closing key.now ≡ Some text.now) }
{
    before_byte(closing, after_byte(opening, key)?)
}

fn before_byte(byte: u8, bytes: &[u8]) -> Option<&[u8]>
    ensures { MatchOption result (before_byte byte bytes.now ≡ None)
        (λ text. before_byte byte bytes.now ≡ Some text.now) }
{
    let place = memchr(byte, bytes)?;
    Some(&bytes[..place])
}

fn after_byte(byte: u8, bytes: &[u8]) -> Option<&[u8]>
    ensures { MatchOption result (after_byte byte bytes.now ≡ None)
        (λ text. after_byte byte bytes.now ≡ Some text.now) }
{
    let place = memchr(byte, bytes)?;
    Some(&bytes[place + 1..])
}

fn without_prefix<'k>(prefix: &[u8], key: &'k [u8]) -> &'k [u8]
    ensures { result.now ≡ without_prefix prefix.now key.now }
{
    match key.strip_prefix(prefix) {
        Some(rest) => rest,
        None => key,
    }
}
