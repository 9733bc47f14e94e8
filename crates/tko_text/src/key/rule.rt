//! Which bytes are a key.
ghost use Rattle.std.specs.Prelude.{◌≡◌, ◌↔◌, IsTrue};
ghost use Rattle.tko_text.specs.Keys.{IsKey, is_key};

/// The longest key, in bytes.
const KEY_LIMIT: usize = 250;

/// The control character DEL.
const DELETE: u8 = 127;

/// Whether these bytes are a key.
pub(crate) fn is_key(bytes: &[u8]) -> bool
    ensures key { IsTrue result ↔ IsKey bytes.now }
    ensures test { result ≡ is_key bytes.now }
{
    obeys_rule(bytes)
}

fn obeys_rule(bytes: &[u8]) -> bool
    ensures { IsTrue result ↔ IsKey bytes.now }
{
    (1..=KEY_LIMIT).contains(&bytes.len()) && bytes.iter().all(|b| *b > b' ' && *b != DELETE)
}
