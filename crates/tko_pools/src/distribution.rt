//! How a pool spreads keys over its servers.
ghost use Rattle.std.specs.Prelude.{◌≡◌};
ghost use Rattle.tko_pools.specs.Distributions.{distribution_named, distribution_word, is_ketama, is_ring, ring_kind};

use tko_ring::{KeyHash, RingKind};

/// How a pool spreads keys over its servers.
#[derive(Clone, Copy, Debug, PartialEq, Eq)]
pub enum Distribution {
    /// By the hash of the key modulo the number of servers.
    Modula,
    /// By a ring of the points of MD5.
    Ketama,
    /// By a ring of points by the hash of the keys.
    Consistent,
}

impl Distribution {
    /// The distribution that a configuration names so.
    pub(crate) fn named(word: &str) -> Option<Distribution>
        ensures { result ≡ distribution_named word.now }
    {
        if word == "modula" {
            return Some(Distribution::Modula);
        }
        if word == "ketama" {
            return Some(Distribution::Ketama);
        }
        if word == "consistent" {
            return Some(Distribution::Consistent);
        }
        None
    }

    /// The word that names it.
    pub fn word(self) -> &'static str
        ensures { result.now ≡ distribution_word self }
    {
        match self {
            Distribution::Modula => "modula",
            Distribution::Ketama => "ketama",
            Distribution::Consistent => "consistent",
        }
    }

    pub(crate) fn is_ring(self) -> bool
        ensures { result ≡ is_ring self }
    {
        match self {
            Distribution::Modula => false,
            Distribution::Ketama | Distribution::Consistent => true,
        }
    }

    pub(crate) fn is_ketama(self) -> bool
        ensures { result ≡ is_ketama self }
    {
        match self {
            Distribution::Ketama => true,
            Distribution::Modula | Distribution::Consistent => false,
        }
    }

    /// The kind of ring of a pool whose keys have this hash.
    pub(crate) fn ring_kind(self, hash: KeyHash) -> Option<RingKind>
        ensures { result ≡ ring_kind self hash }
    {
        match self {
            Distribution::Modula => None,
            Distribution::Ketama => Some(RingKind::Ketama),
            Distribution::Consistent => Some(RingKind::Consistent(hash)),
        }
    }
}
