//! The numbers of 32 bits in a digest.
ghost use Rattle.std.specs.Prelude.{◌≡◌, ◌+◌, ◌≤◌, ◌<◌, ◌*◌};
ghost use Rattle.md5.specs.Md5.{word_at};

/// One of the four numbers of a digest, low byte first.
pub(crate) fn word_of(digest: &[u8; 16], place: usize) -> u32
    requires { place < 4 }
    ensures { result ≡ word_at digest.now (4 * place) }
{
    let start = 4 * place;
    u32::from_le_bytes([
        digest[start],
        digest[start + 1],
        digest[start + 2],
        digest[start + 3],
    ])
}
