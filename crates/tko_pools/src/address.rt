//! Addresses of servers.
ghost use Rattle.std.specs.Prelude.{◌≡◌, ◌<◌, IfSome, length, option_map, unwrap_or, false};
ghost use Rattle.std.specs.Char.{is_ascii_graphic};
ghost use Rattle.std.specs.List.{list_all};
ghost use Rattle.tko_pools.specs.Addresses.{is_address, is_parted_at, is_port, last_colon};

use memchr::memrchr;
use tko_bytes::{MAX_PORT, number};

const MAX_ADDRESS: usize = 255;

/// Whether a text is an address, `<host>:<port>`.
#[tactic(auto, unfolding(crate::specs::Addresses::is_address))]
pub fn is_address(text: &[u8]) -> bool
    ensures { result ≡ is_address text.now }
{
    text.len() <= MAX_ADDRESS && is_visible(text) && is_parted(text)
}

/// Whether each byte is printable ASCII other than the space.
fn is_visible(text: &[u8]) -> bool
    ensures { result ≡ list_all is_ascii_graphic text.now }
{
    text.iter().all(|b| b.is_ascii_graphic())
}

/// Whether a host, a colon and a port make the text.
fn is_parted(text: &[u8]) -> bool
    ensures { result ≡ unwrap_or (option_map (is_parted_at text.now) (last_colon text.now)) false }
{
    match last_colon(text) {
        Some(colon) => is_parted_at(text, colon),
        None => false,
    }
}

fn last_colon(text: &[u8]) -> Option<usize>
    ensures place { result ≡ last_colon text.now }
    ensures within { IfSome result (λ colon. colon < length text.now) }
{
    memrchr(b':', text)
}

#[tactic(auto, unfolding(crate::specs::Addresses::is_parted_at))]
fn is_parted_at(text: &[u8], colon: usize) -> bool
    requires { colon < length text.now }
    ensures { result ≡ is_parted_at text.now colon }
{
    colon >= 1 && is_port(&text[colon + 1..])
}

fn is_port(word: &[u8]) -> bool
    ensures { result ≡ is_port word.now }
{
    match number(word, MAX_PORT) {
        Some(port) => port >= 1,
        None => false,
    }
}
