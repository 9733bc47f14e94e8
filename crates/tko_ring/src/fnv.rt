//! FNV over signed bytes.
ghost use Rattle.std.specs.Prelude.{◌≡◌};
ghost use Rattle.tko_ring.specs.Fnv.{fnv1_signed, fnv1_signed_step, fnv1a_signed, fnv1a_signed_step, sign_extended};

/// The hash of no bytes, and the factor of each byte.
#[derive(Clone, Copy)]
pub(crate) struct Fnv {
    pub start: u32,
    pub prime: u32,
}

/// FNV of 32 bits.
pub(crate) const FNV_32: Fnv = Fnv {
    start: 2_166_136_261,
    prime: 16_777_619,
};

/// The low 32 bits of FNV of 64 bits, on which no higher bit has an effect.
pub(crate) const FNV_64_LOW: Fnv = Fnv {
    start: 0x8422_2325,
    prime: 435,
};

impl Fnv {
    /// FNV-1a: each byte first, then the factor.
    pub fn fnv1a(self, bytes: &[u8]) -> u32
        ensures { result ≡ fnv1a_signed self.start self.prime bytes.now }
    {
        bytes.iter().fold(self.start, |hash, byte| fnv1a_step(self.prime, hash, *byte))
    }

    /// FNV-1: the factor first, then each byte.
    pub fn fnv1(self, bytes: &[u8]) -> u32
        ensures { result ≡ fnv1_signed self.start self.prime bytes.now }
    {
        bytes.iter().fold(self.start, |hash, byte| fnv1_step(self.prime, hash, *byte))
    }
}

fn fnv1a_step(prime: u32, hash: u32, byte: u8) -> u32
    ensures { result ≡ fnv1a_signed_step prime hash byte }
{
    (hash ^ sign_extended(byte)).wrapping_mul(prime)
}

fn fnv1_step(prime: u32, hash: u32, byte: u8) -> u32
    ensures { result ≡ fnv1_signed_step prime hash byte }
{
    hash.wrapping_mul(prime) ^ sign_extended(byte)
}

/// A byte as a signed one, in 32 bits.
pub(crate) fn sign_extended(byte: u8) -> u32
    ensures { result ≡ sign_extended byte }
{
    if byte < 128 {
        u32::from(byte)
    } else {
        0xffff_ff00 + u32::from(byte)
    }
}
