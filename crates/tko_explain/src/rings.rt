//! What an operator has to know of rings, as lines. Where memory runs out, the buffer may hold a
//! part of a text.
ghost use Rattle.std.specs.Prelude.{◌≡◌, ◌++◌, [], IfOk, OnOk, get_or, map, option_map};
ghost use Rattle.tko_explain.specs.Placing.{and_second, in_pool, is_shared, pointless_from, pointless_line, pointless_text, ring_text, shared_among, shared_by, shared_line, shared_text};

use crate::placing::points_at;
use crate::printing::{append_around, quoted};
use std::alloc::Global;
use tko_bytes::NoMemory;
use tko_ring::{Point, Ring};

/// Appends the servers of a ring that have no point, and those that share one.
#[tactic(auto, unfolding(crate::specs::Placing::ring_text))]
pub(crate) fn append_ring(
    alloc: Global,
    out: &mut Vec<u8>,
    name: &str,
    addresses: &[&str],
    ring: Option<&Ring>,
) -> Result<(), NoMemory>
    ensures { OnOk result (out.new.items ≡ out.old.items ++ ring_text name.now
        (map (λ address. address.now) addresses.now) (option_map (λ ring. ring.now) ring.entry)) }
{
    if let Some(ring) = ring {
        append_pointless(alloc, out, name, addresses, ring.points())?;
        append_shared(alloc, out, name, addresses, ring.points())?;
    }
    Ok(())
}

/// Appends the servers that have no point.
fn append_pointless(
    alloc: Global,
    out: &mut Vec<u8>,
    name: &str,
    addresses: &[&str],
    points: &[Point],
) -> Result<(), NoMemory>
    ensures { OnOk result (out.new.items ≡ out.old.items
        ++ pointless_text name.now (map (λ address. address.now) addresses.now) points.now) }
{
    let words = in_pool(alloc, name, b" has no point, so no key")?;
    append_each_pointless(alloc, out, &words, addresses, points)
}

fn append_each_pointless(
    alloc: Global,
    out: &mut Vec<u8>,
    words: &[u8],
    addresses: &[&str],
    points: &[Point],
) -> Result<(), NoMemory>
    ensures { OnOk result (out.new.items ≡ out.old.items
        ++ pointless_from words.now points.now 0 (map (λ address. address.now) addresses.now)) }
{
    for (place, address) in addresses.iter().enumerate() {
        append_if_pointless(alloc, out, words, address, points_at(points, place))?;
    }
    Ok(())
}

fn append_if_pointless(
    alloc: Global,
    out: &mut Vec<u8>,
    words: &[u8],
    address: &str,
    points: usize,
) -> Result<(), NoMemory>
    ensures { OnOk result
        (out.new.items ≡ out.old.items ++ pointless_line words.now address.now points) }
{
    if points != 0 {
        return Ok(());
    }
    append_around(alloc, out, b"warning: server ", address, words, b"\n")
}

/// The pool of a name, and what is said of it.
#[tactic(auto, unfolding(crate::specs::Placing::in_pool))]
fn in_pool(alloc: Global, name: &str, said: &[u8]) -> Result<Vec<u8>, NoMemory>
    ensures { IfOk result (λ words. words.items ≡ in_pool name.now said.now) }
{
    let mut words = Vec::from_slice(alloc, b" of pool ")?;
    words.extend_from_slice(quoted(alloc, name)?.as_bytes())?;
    words.extend_from_slice(said)?;
    Ok(words)
}

/// Appends each two servers that share a point.
fn append_shared(
    alloc: Global,
    out: &mut Vec<u8>,
    name: &str,
    addresses: &[&str],
    points: &[Point],
) -> Result<(), NoMemory>
    ensures { OnOk result (out.new.items ≡ out.old.items
        ++ shared_text name.now (map (λ address. address.now) addresses.now) points.now) }
{
    let said = b" share a point, and the first in the list has it";
    let words = in_pool(alloc, name, said)?;
    append_each_shared(alloc, out, &words, addresses, points)
}

fn append_each_shared(
    alloc: Global,
    out: &mut Vec<u8>,
    words: &[u8],
    addresses: &[&str],
    points: &[Point],
) -> Result<(), NoMemory>
    ensures { OnOk result (out.new.items ≡ out.old.items
        ++ shared_among words.now (map (λ address. address.now) addresses.now) points.now) }
{
    for (index, point) in points.iter().enumerate() {
        append_if_shared(alloc, out, words, addresses, point, &points[index + 1..])?;
    }
    Ok(())
}

/// Appends the servers of a point and of the first of those after it, if the two share it.
fn append_if_shared(
    alloc: Global,
    out: &mut Vec<u8>,
    words: &[u8],
    addresses: &[&str],
    point: &Point,
    others: &[Point],
) -> Result<(), NoMemory>
    ensures { OnOk result (out.new.items ≡ out.old.items ++ shared_by words.now
        (map (λ address. address.now) addresses.now) point.now others.now) }
{
    match others {
        [second, ..] if is_shared(point, second) => {
            let (first, second) = (point.place as usize, second.place as usize);
            let (first, second) = (address_at(addresses, first), address_at(addresses, second));
            append_sharers(alloc, out, words, first, second)
        }
        _ => Ok(()),
    }
}

fn append_sharers(
    alloc: Global,
    out: &mut Vec<u8>,
    words: &[u8],
    first: &str,
    second: &str,
) -> Result<(), NoMemory>
    ensures { OnOk result
        (out.new.items ≡ out.old.items ++ shared_line words.now first.now second.now) }
{
    let place = and_second(alloc, second, words)?;
    append_around(alloc, out, b"warning: servers ", first, &place, b"\n")
}

#[tactic(auto, unfolding(crate::specs::Placing::and_second))]
fn and_second(alloc: Global, second: &str, said: &[u8]) -> Result<Vec<u8>, NoMemory>
    ensures { IfOk result (λ words. words.items ≡ and_second second.now said.now) }
{
    let mut words = Vec::from_slice(alloc, b" and ")?;
    words.extend_from_slice(quoted(alloc, second)?.as_bytes())?;
    words.extend_from_slice(said)?;
    Ok(words)
}

fn is_shared(first: &Point, second: &Point) -> bool
    ensures { result ≡ is_shared first.now second.now }
{
    first.value == second.value && first.place != second.place
}

fn address_at<'a>(addresses: &[&'a str], place: usize) -> &'a str
    ensures { result.now ≡ get_or (map (λ address. address.now) addresses.now) place [] }
{
    addresses.get(place).copied().unwrap_or("")
}
