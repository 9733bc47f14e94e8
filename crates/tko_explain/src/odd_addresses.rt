//! Addresses that are valid, and whose host and port may not be the ones that were meant, as lines.
ghost use Rattle.std.specs.Prelude.{◌≡◌, ◌<◌, ◌+◌, ◌++◌, IfOk, IfSome, MatchOption, OnOk, List, ℕ, drop, length, map, string_bytes, take};
ghost use Rattle.tko_explain.specs.OddAddresses.{AreAddressNotes, IsAddressNote, IsBracketNote, IsBracketed, IsHostNote, before_zone, brackets_line, colons_line, has_colon, plain_note, warning_text, zone_place};
ghost use Rattle.tko_pools.specs.Addresses.{last_colon};

use crate::printing::append_around;
use memchr::memrchr;
use std::alloc::Global;
use std::net::Ipv6Addr;
use tko_bytes::NoMemory;

/// A line for each of these addresses of servers that is odd.
pub(crate) fn odd_addresses(alloc: Global, addresses: &[String]) -> Result<Vec<u8>, NoMemory>
    ensures { IfOk result (λ text.
        AreAddressNotes (map string_bytes addresses.now) text.items) }
{
    let mut text = Vec::new(alloc);
    for address in addresses {
        let note = odd_address(alloc, "server", address.as_str())?;
        text.extend_from_slice(&note)?;
    }
    Ok(text)
}

/// What is said of an address, with this word for what has it: nothing, where its host and port are
/// plain.
pub fn odd_address(alloc: Global, front: &str, address: &str) -> Result<Vec<u8>, NoMemory>
    ensures { IfOk result (λ note. IsAddressNote front.now address.now note.items) }
{
    match last_colon(address.as_bytes()) {
        Some(colon) => host_note(alloc, front, address, colon),
        None => Ok(Vec::new(alloc)),
    }
}

/// The same of an address whose host and port are parted by this colon.
fn host_note(alloc: Global, front: &str, address: &str, colon: usize) -> Result<Vec<u8>, NoMemory>
    requires { colon < length address.now }
    ensures { IfOk result (λ note. IsHostNote front.now address.now
        (take colon address.now) (drop (colon + 1) address.now) note.items) }
{
    let host = &address.as_bytes()[..colon];
    let port = &address.as_bytes()[colon + 1..];
    match inside_brackets(host) {
        Some(inside) => bracket_note(alloc, front, address, inside),
        None => plain_note(alloc, front, address, host, port),
    }
}

/// The same where the host has brackets round this text.
fn bracket_note(
    alloc: Global,
    front: &str,
    address: &str,
    inside: &[u8],
) -> Result<Vec<u8>, NoMemory>
    ensures { IfOk result (λ note. IsBracketNote front.now address.now inside.now note.items) }
{
    match Ipv6Addr::parse_ascii(before_zone(inside)) {
        Ok(_) => Ok(Vec::new(alloc)),
        Err(_) => brackets_line(alloc, front, address),
    }
}

/// The same where the host has no brackets.
fn plain_note(
    alloc: Global,
    front: &str,
    address: &str,
    host: &[u8],
    port: &[u8],
) -> Result<Vec<u8>, NoMemory>
    ensures { IfOk result (λ note.
        note.items ≡ plain_note front.now address.now host.now port.now) }
{
    if has_colon(host) {
        colons_line(alloc, front, address, host, port)
    } else {
        Ok(Vec::new(alloc))
    }
}

fn brackets_line(alloc: Global, front: &str, address: &str) -> Result<Vec<u8>, NoMemory>
    ensures { IfOk result (λ line. line.items ≡ brackets_line front.now address.now) }
{
    let mut line = Vec::new(alloc);
    append_front(alloc, &mut line, front, address)?;
    line.extend_from_slice(b" has brackets, and no IPv6 address in them\n")?;
    Ok(line)
}

fn colons_line(
    alloc: Global,
    front: &str,
    address: &str,
    host: &[u8],
    port: &[u8],
) -> Result<Vec<u8>, NoMemory>
    ensures { IfOk result (λ line.
        line.items ≡ colons_line front.now address.now host.now port.now) }
{
    let mut line = Vec::new(alloc);
    append_front(alloc, &mut line, front, address)?;
    line.extend_from_slice(b" has more than one colon and no brackets: it is host ")?;
    line.extend_from_slice(host)?;
    line.extend_from_slice(b", port ")?;
    line.extend_from_slice(port)?;
    line.extend_from_slice(b"\n")?;
    Ok(line)
}

/// Appends how a line begins that warns of an address.
fn append_front(
    alloc: Global,
    out: &mut Vec<u8>,
    front: &str,
    address: &str,
) -> Result<(), NoMemory>
    ensures { OnOk result
        (out.new.items ≡ out.old.items ++ warning_text front.now address.now) }
{
    out.extend_from_slice(b"warning: ")?;
    out.extend_from_slice(front.as_bytes())?;
    append_around(alloc, out, b" ", address, b"", b"")
}

/// The text between the brackets of a host that has them.
fn inside_brackets(host: &[u8]) -> Option<&[u8]>
    ensures { MatchOption result ((inside : List ℕ) → ¬ IsBracketed host.now inside)
        (λ inside. IsBracketed host.now inside.now) }
{
    match host {
        [b'[', inside @ .., b']'] => Some(inside),
        _ => None,
    }
}

/// What comes before the zone of an address.
fn before_zone(text: &[u8]) -> &[u8]
    ensures { result.now ≡ before_zone text.now }
{
    match zone_place(text) {
        Some(place) => &text[..place],
        None => text,
    }
}

fn zone_place(text: &[u8]) -> Option<usize>
    ensures place { result ≡ zone_place text.now }
    ensures within { IfSome result (λ place. place < length text.now) }
{
    text.iter().position(|byte| *byte == b'%')
}

fn has_colon(host: &[u8]) -> bool
    ensures { result ≡ has_colon host.now }
{
    last_colon(host).is_some()
}

fn last_colon(text: &[u8]) -> Option<usize>
    ensures place { result ≡ last_colon text.now }
    ensures within { IfSome result (λ colon. colon < length text.now) }
{
    memrchr(b':', text)
}
