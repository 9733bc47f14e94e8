//! The address of a server, `<host>:<port>`.
ghost use Rattle.std.specs.Prelude.{◌≡◌, IfSome};
ghost use Rattle.tko_tcp.specs.TcpAddresses.{IsParted, IsBare};

use tko_bytes::{MAX_PORT, number};

/// The host and the port of an address, which the last colon separates. Brackets round the host, as
/// they are often written round an IPv6 address, are removed.
pub(crate) fn host_and_port(address: &str) -> Option<(&str, u16)>
    ensures { IfSome result (λ parts. IsParted address.now parts.0.now parts.1) }
{
    let (host, port) = address.rsplit_once(':')?;
    let port = number(port.as_bytes(), MAX_PORT)?;
    Some((without_brackets(host), port as u16))
}

fn without_brackets(host: &str) -> &str
    ensures { IsBare host.now result.now }
{
    let Some(rest) = host.strip_prefix('[') else {
        return host;
    };
    rest.strip_suffix(']').unwrap_or(host)
}
