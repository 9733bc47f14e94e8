//! Consistent hashing, as nutcracker and libmemcached compute it.
//!
//! - `KeyHash`: the hash of a key, a number of 32 bits, by one of nine functions.
//! - `Server`: the name and the weight of a server. *Label*: its name, a hyphen and a number.
//! - `Point`: a number of 32 bits that belongs to a server, by its *place* in the list of its pool.
//!   `RingKind`: how labels give the points of a server.
//! - `Ring`: the points of a pool's servers in order. A hash belongs to the server of the first
//!   point from it on, or else of the first of all.
#![tactic(auto)]

mod crc;
mod digests;
mod fnv;
mod key_hash;
mod key_part;
mod kind;
mod mixing;
mod name;
mod point;
mod points;
mod prefix;
mod ring;
mod server;
mod words;

pub use key_hash::KeyHash;
pub use key_part::KeyPart;
pub use kind::RingKind;
pub use name::default_name;
pub use point::Point;
pub use prefix::Prefix;
pub use ring::Ring;
pub use server::{MAX_WEIGHT, Server, are_weighed};

#[cfg(test)]
mod tests;
