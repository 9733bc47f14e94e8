//! A point of a ring.

/// A point of a ring. Points are in the order of their values, and where two values are equal, in
/// that of the places.
#[derive(Clone, Copy, Debug, PartialEq, Eq, PartialOrd, Ord)]
pub struct Point {
    pub value: u32,
    /// The place of its server in the list of the pool.
    pub place: u32,
}
