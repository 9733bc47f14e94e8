use super::*;
use crate::digests::digests_of;
use std::alloc::Global;
use std::test::Fail;
use tko_bytes::{NoMemory, number};

/// The place of a key's server, among servers of which a text names weights and addresses.
fn place(alloc: Global, kind: RingKind, servers: &str, hash: u32) -> Result<Option<u32>, NoMemory> {
    let mut list = Vec::new(alloc);
    for word in servers.split(' ') {
        list.push(server(alloc, word)?)?;
    }
    if !are_weighed(&list) {
        return Ok(None);
    }
    Ok(Some(Ring::of(alloc, kind, &list)?.place_of(hash)))
}

/// A server of the form `2*127.0.0.1:11211`, or of an address alone.
fn server(alloc: Global, word: &str) -> Result<Server, NoMemory> {
    let (weight, address) = word.split_once('*').unwrap_or(("1", word));
    Ok(Server {
        name: Vec::from_slice(alloc, default_name(address.as_bytes()))?,
        weight: number(weight.as_bytes(), 99).unwrap_or(0) as u32,
    })
}

#[test]
fn hashes_are_those_that_were_published(rt: HostRuntime) {
    let rows: [(KeyHash, &[u8], u32); 8] = [
        (KeyHash::Fnv1a, b"foobar", 0xbf9c_f968),
        (KeyHash::Md5, b"a", 0xb975_c10c),
        (KeyHash::Fnv1a64, b"foobar", 0xf739_67e8),
        (KeyHash::Fnv1a32, b"foobar", 0xbf9c_f968),
        (KeyHash::Fnv1_64, b"foobar", 0xa4dd_a9c2),
        (KeyHash::Fnv1_32, b"foobar", 0x31f0_b262),
        (KeyHash::OneAtATime, b"a", 0xca2e_9442),
        (KeyHash::Crc32a, b"123456789", 0xcbf4_3926),
    ];
    for (hash, bytes, wanted) in rows {
        assert_eq!(rt; hash.of(bytes), wanted);
    }
}

// pylibmc's places by MODULA, where its hash is murmur.
#[test]
fn murmur_is_that_of_libmemcached(rt: HostRuntime) {
    let hash = KeyHash::Murmur;
    assert_eq!(rt; hash.of(b"pylibmc_hash_murmur/4039:8e8bbea6f5") % 24, 5);
    assert_eq!(rt; hash.of(b"pylibmc_hash_murmur/4879:9751228e59") % 24, 23);
}

#[test]
fn digests_are_those_of_nutcracker(rt: HostRuntime) {
    assert_eq!(rt; digests_of(1, 24, 24), 40);
    assert_eq!(rt; digests_of(1, 25, 25), 39);
    assert_eq!(rt; digests_of(1, 20001, 3), 0);
}

// Where nutcracker and libmemcached put these keys; the second server of the third row has a point
// in common with the first.
#[test]
fn places_are_those_of_real_peers(rt: HostRuntime) -> Result<(), Fail> {
    let weighed = "2*127.7.1.1:11211 2*127.7.1.2:11211 5*127.7.1.3:11211 1*127.7.1.4:11211";
    let equal = "127.7.1.1:11211 127.7.1.2:11211 127.7.1.3:11211 127.7.1.4:11211 \
                 127.7.1.5:11211 127.7.1.6:11211 127.7.1.7:11211 cache1.example:22001 \
                 cache2.example:22002 cache3.example:22003 cache4.example:22004";
    let tied = "127.8.7.114:11211 127.8.0.247:11211";
    let rows: [(RingKind, &str, u32, u32); 4] = [
        (
            RingKind::Ketama,
            weighed,
            KeyHash::OneAtATime.of(b"33:1067b9d2b8b826c3-2533"),
            2,
        ),
        (
            RingKind::Ketama,
            equal,
            KeyHash::Fnv1a64.of(b"\x29\x5c\x3a\x73\xfd\x59\x31\x38"),
            2,
        ),
        (RingKind::Ketama, tied, KeyHash::Md5.of(b"tie808"), 0),
        (
            RingKind::Consistent(KeyHash::Fnv1a32),
            equal,
            KeyHash::Fnv1a32.of(b"MN\"9zGwKV9}37"),
            1,
        ),
    ];
    for (kind, servers, hash, wanted) in rows {
        assert_eq!(rt; place(rt.alloc(), kind, servers, hash)?, Some(wanted));
    }
    Ok(())
}

#[test]
fn part_of_a_key_is_hashed(rt: HostRuntime) {
    let tag = KeyPart::Tagged {
        opening: b'{',
        closing: b'}',
    };
    assert_eq!(rt; tag.of(b"a{b}{c}"), b"b".as_slice());
    assert_eq!(rt; tag.of(b"a{}{c}"), b"a{}{c}".as_slice());
    assert_eq!(rt; tag.of(b"a}b{c"), b"a}b{c".as_slice());
}
