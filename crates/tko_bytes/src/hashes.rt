//! The hash that chooses a server of a pool, and tells keys apart.
ghost use Rattle.std.specs.Prelude.{◌≡◌};
ghost use Rattle.tko_bytes.specs.Hashes.{fnv1a_from, fnv1a_step};

const PRIME: u32 = 16_777_619;

/// FNV-1a of 32 bits, with `start` as the hash of no bytes.
pub fn fnv1a_from(start: u32, bytes: &[u8]) -> u32
    ensures { result ≡ fnv1a_from start bytes.now }
{
    bytes
        .iter()
        .fold(start, |hash, byte| with_byte(hash, *byte))
}

/// The hash with one more byte.
fn with_byte(hash: u32, byte: u8) -> u32
    ensures { result ≡ fnv1a_step hash byte }
{
    (hash ^ u32::from(byte)).wrapping_mul(PRIME)
}
