//! The CRC-32 of zlib.
ghost use Rattle.std.specs.Prelude.{◌≡◌, ◌<◌};
ghost use Rattle.tko_ring.specs.Crc.{crc_bit, crc_step, crc32};

/// What four steps of the division by 0xedb88320 make of each number of four bits.
const NIBBLES: [u32; 16] = [
    0,
    0x1db7_1064,
    0x3b6e_20c8,
    0x26d9_30ac,
    0x76dc_4190,
    0x6b6b_51f4,
    0x4db2_6158,
    0x5005_713c,
    0xedb8_8320,
    0xf00f_9344,
    0xd6d6_a3e8,
    0xcb61_b38c,
    0x9b64_c2b0,
    0x86d3_d2d4,
    0xa00a_e278,
    0xbdbd_f21c,
];

/// The CRC-32 of zlib.
pub(crate) fn crc32(bytes: &[u8]) -> u32
    ensures { result ≡ crc32 bytes.now }
{
    bytes
        .iter()
        .fold(u32::MAX, |crc, byte| with_byte(crc, *byte))
        ^ u32::MAX
}

/// The checksum with one more byte.
fn with_byte(crc: u32, byte: u8) -> u32
    ensures { result ≡ crc_step crc byte }
{
    four_steps(four_steps(crc ^ u32::from(byte)))
}

/// Four steps of the division at once.
fn four_steps(crc: u32) -> u32
    ensures { result ≡ crc_bit (crc_bit (crc_bit (crc_bit crc))) }
{
    (crc >> 4) ^ nibble(crc % 16)
}

/// What four steps make of four bits.
fn nibble(low: u32) -> u32
    requires { low < 16 }
    ensures { result ≡ crc_bit (crc_bit (crc_bit (crc_bit low))) }
{
    NIBBLES[low as usize]
}
