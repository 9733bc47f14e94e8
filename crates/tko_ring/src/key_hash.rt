//! The hash of a key.
ghost use Rattle.std.specs.Prelude.{◌≡◌, Some};
ghost use Rattle.tko_ring.specs.Hashing.{hash_named, hash_of, hash_word};

use crate::crc::crc32;
use crate::fnv::{FNV_32, FNV_64_LOW};
use crate::mixing::{murmur, one_at_a_time};
use crate::words::word_of;
use md5::{Digest, Md5};
use tko_bytes::fnv1a_from;

/// The hash of a key, a number of 32 bits.
///
/// `Fnv1a64`, `Fnv1a32`, `Fnv1_64`, `Fnv1_32` and `OneAtATime` read a byte from 128 on as
/// nutcracker and libmemcached do on x86-64, as a negative number; the others as one up to 255.
#[derive(Clone, Copy, Debug, PartialEq, Eq)]
pub enum KeyHash {
    /// FNV-1a of 32 bits.
    Fnv1a,
    /// The first four bytes of MD5, low byte first.
    Md5,
    /// The low 32 bits of FNV-1a of 64 bits.
    Fnv1a64,
    Fnv1a32,
    /// The low 32 bits of FNV-1 of 64 bits.
    Fnv1_64,
    Fnv1_32,
    /// Jenkins' one_at_a_time.
    OneAtATime,
    /// MurmurHash2.
    Murmur,
    /// The CRC-32 of zlib.
    Crc32a,
}

impl KeyHash {
    /// The hash that a configuration names so.
    pub fn named(word: &str) -> Option<KeyHash>
        ensures { result ≡ hash_named word.now }
    {
        if word == "fnv1a" {
            return Some(KeyHash::Fnv1a);
        }
        if word == "md5" {
            return Some(KeyHash::Md5);
        }
        if word == "fnv1a_64" {
            return Some(KeyHash::Fnv1a64);
        }
        if word == "fnv1a_32" {
            return Some(KeyHash::Fnv1a32);
        }
        if word == "fnv1_64" {
            return Some(KeyHash::Fnv1_64);
        }
        if word == "fnv1_32" {
            return Some(KeyHash::Fnv1_32);
        }
        if word == "one_at_a_time" {
            return Some(KeyHash::OneAtATime);
        }
        if word == "murmur" {
            return Some(KeyHash::Murmur);
        }
        if word == "crc32a" {
            return Some(KeyHash::Crc32a);
        }
        None
    }

    /// The word that names it.
    pub fn word(self) -> &'static str
        ensures word { result.now ≡ hash_word self }
        ensures named { hash_named result.now ≡ Some self }
    {
        match self {
            KeyHash::Fnv1a => "fnv1a",
            KeyHash::Md5 => "md5",
            KeyHash::Fnv1a64 => "fnv1a_64",
            KeyHash::Fnv1a32 => "fnv1a_32",
            KeyHash::Fnv1_64 => "fnv1_64",
            KeyHash::Fnv1_32 => "fnv1_32",
            KeyHash::OneAtATime => "one_at_a_time",
            KeyHash::Murmur => "murmur",
            KeyHash::Crc32a => "crc32a",
        }
    }

    /// The hash of bytes.
    pub fn of(self, bytes: &[u8]) -> u32
        ensures { result ≡ hash_of self bytes.now }
    {
        match self {
            KeyHash::Fnv1a => fnv1a_from(FNV_32.start, bytes),
            KeyHash::Md5 => word_of(&Md5::digest(bytes), 0),
            KeyHash::Fnv1a64 => FNV_64_LOW.fnv1a(bytes),
            KeyHash::Fnv1a32 => FNV_32.fnv1a(bytes),
            KeyHash::Fnv1_64 => FNV_64_LOW.fnv1(bytes),
            KeyHash::Fnv1_32 => FNV_32.fnv1(bytes),
            KeyHash::OneAtATime => one_at_a_time(bytes),
            KeyHash::Murmur => murmur(bytes),
            KeyHash::Crc32a => crc32(bytes),
        }
    }
}
