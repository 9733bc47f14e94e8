//! The name of a server that has none of its own.
ghost use Rattle.std.specs.Prelude.{◌≡◌, ◌<◌, IfSome, length};
ghost use Rattle.tko_ring.specs.Names.{is_memcached_port, default_name, named_at, port_colon};

use memchr::memrchr;
use tko_bytes::{MAX_PORT, number};

/// memcached's own port.
const MEMCACHED_PORT: u64 = 11_211;

/// The name of the server at an address, `<host>:<port>`, that has none of its own: the host alone
/// where the port is 11211, or else the address as it is written.
#[tactic(auto, unfolding(crate::specs::Names::default_name))]
pub fn default_name(address: &[u8]) -> &[u8]
    ensures { result.now ≡ default_name address.now }
{
    match port_colon(address) {
        Some(colon) => named_at(address, colon),
        None => address,
    }
}

/// The colon before the port.
fn port_colon(address: &[u8]) -> Option<usize>
    ensures place { result ≡ port_colon address.now }
    ensures within { IfSome result (λ colon. colon < length address.now) }
{
    memrchr(b':', address)
}

fn named_at(address: &[u8], colon: usize) -> &[u8]
    requires { colon < length address.now }
    ensures { result.now ≡ named_at address.now colon }
{
    if is_memcached_port(&address[colon + 1..]) {
        &address[..colon]
    } else {
        address
    }
}

fn is_memcached_port(word: &[u8]) -> bool
    ensures { result ≡ is_memcached_port word.now }
{
    match number(word, MAX_PORT) {
        Some(port) => port == MEMCACHED_PORT,
        None => false,
    }
}
