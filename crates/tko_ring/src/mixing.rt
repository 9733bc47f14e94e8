//! The hashes one_at_a_time and MurmurHash2.
ghost use Rattle.std.specs.Prelude.{◌≡◌, ◌<◌, bit_xor, length};
ghost use Rattle.std.specs.Int.{w32, from_le_bytes};
ghost use Rattle.tko_ring.specs.Mixing.{murmur, murmur_end, murmur_left, murmur_start, murmur_step, one_at_a_time, one_end, one_step, times_factor};

use crate::fnv::sign_extended;

const MURMUR_FACTOR: u32 = 0x5bd1_e995;

const MURMUR_SEED: u32 = 0xdead_beef;

/// Jenkins' one_at_a_time, over signed bytes.
pub(crate) fn one_at_a_time(bytes: &[u8]) -> u32
    ensures { result ≡ one_at_a_time bytes.now }
{
    one_end(bytes.iter().fold(0, |hash, byte| one_step(hash, *byte)))
}

fn one_step(hash: u32, byte: u8) -> u32
    ensures { result ≡ one_step hash byte }
{
    let added = hash.wrapping_add(sign_extended(byte));
    let shifted = added.wrapping_add(added << 10);
    shifted ^ (shifted >> 6)
}

fn one_end(hash: u32) -> u32
    ensures { result ≡ one_end hash }
{
    let shifted = hash.wrapping_add(hash << 3);
    let mixed = shifted ^ (shifted >> 11);
    mixed.wrapping_add(mixed << 15)
}

/// MurmurHash2, with 0xdeadbeef times the length as its seed.
pub(crate) fn murmur(bytes: &[u8]) -> u32
    ensures { result ≡ murmur bytes.now }
{
    let (words, left) = bytes.as_chunks::<4>();
    let hash = words.iter().fold(
        murmur_start(bytes.len()),
        |hash, word| murmur_step(hash, word),
    );
    murmur_end(murmur_left(hash, left))
}

fn murmur_start(len: usize) -> u32
    ensures { result ≡ murmur_start len }
{
    let len = (len % (1 << 32)) as u32;
    MURMUR_SEED.wrapping_mul(len) ^ len
}

/// The hash with four bytes more.
fn murmur_step(hash: u32, word: &[u8; 4]) -> u32
    ensures { result ≡ murmur_step hash word.now }
{
    let word = u32::from_le_bytes(*word).wrapping_mul(MURMUR_FACTOR);
    let mixed = (word ^ (word >> 24)).wrapping_mul(MURMUR_FACTOR);
    hash.wrapping_mul(MURMUR_FACTOR) ^ mixed
}

/// The hash with the bytes that are left, three at most.
fn murmur_left(hash: u32, left: &[u8]) -> u32
    requires { length left.now < 4 }
    ensures { result ≡ murmur_left hash left.now }
{
    match *left {
        [] => hash,
        [a] => with_left(hash, [a, 0, 0, 0]),
        [a, b] => with_left(hash, [a, b, 0, 0]),
        [a, b, c, ..] => with_left(hash, [a, b, c, 0]),
    }
}

fn with_left(hash: u32, left: [u8; 4]) -> u32
    ensures { result ≡ times_factor (bit_xor hash (from_le_bytes w32 left)) }
{
    (hash ^ u32::from_le_bytes(left)).wrapping_mul(MURMUR_FACTOR)
}

fn murmur_end(hash: u32) -> u32
    ensures { result ≡ murmur_end hash }
{
    let mixed = (hash ^ (hash >> 13)).wrapping_mul(MURMUR_FACTOR);
    mixed ^ (mixed >> 15)
}
