//! The servers of a key, one of each child.
ghost use Rattle.std.specs.Prelude.{◌≡◌, ◌<◌, ◌^◌, [], All, OnOk, map};
ghost use Rattle.tko_pools.specs.Children.{hash_by, targets_for};
ghost use Rattle.tko_ring.specs.Hashing.{hash_of};
ghost use Rattle.tko_ring.specs.KeyParts.{hashed_part};

use crate::child::Child;
use crate::hashing::Hashing;
use tko_bytes::NoMemory;

/// Puts the server of each child for a key into an empty list.
pub(crate) fn push_targets(
    key: &[u8],
    children: &[Child],
    targets: &mut Vec<usize>,
) -> Result<(), NoMemory>
    requires empty { targets.old.items ≡ [] }
    ensures { OnOk result (targets.new.items ≡ targets_for key.now children.now) }
{
    push_hashes(key, children, targets)?;
    for (place, child) in children.iter().enumerate() {
        targets[place] = child.server(targets[place] as u32);
    }
    Ok(())
}

/// Puts the hash of a key by each child into an empty list. A key is hashed once for children that
/// hash alike.
fn push_hashes(key: &[u8], children: &[Child], hashes: &mut Vec<usize>) -> Result<(), NoMemory>
    requires empty { hashes.old.items ≡ [] }
    ensures hashes { OnOk result (hashes.new.items
        ≡ map (λ child. hash_by child key.now) children.now) }
    ensures small { OnOk result (All (λ hash. hash < 2 ^ 32) hashes.new.items) }
{
    for (place, child) in children.iter().enumerate() {
        let hash = hash_among(key, child.hashing(), &children[..place], hashes.as_slice());
        hashes.push(hash as usize)?;
    }
    Ok(())
}

/// The hash of a key, which is among those by other children if one of them hashes alike.
fn hash_among(key: &[u8], hashing: &Hashing, others: &[Child], hashes: &[usize]) -> u32
    requires hashes { hashes.now ≡ map (λ other. hash_by other key.now) others.now }
    requires small { All (λ hash. hash < 2 ^ 32) hashes.now }
    ensures { result ≡ hash_of hashing.now.hash (hashed_part hashing.now.part key.now) }
{
    for (place, other) in others.iter().enumerate() {
        if hashing.is_same(other.hashing()) {
            return hashes[place] as u32;
        }
    }
    hashing.of(key)
}
