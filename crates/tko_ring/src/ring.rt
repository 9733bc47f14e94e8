//! A ring of points.
ghost use Rattle.std.specs.Prelude.{◌≡◌, ℕ, ◌<◌, ◌≤◌, IfOk, length, nat_lt, slice_index_or};
ghost use Rattle.std.specs.List.Sorted.{IsPartitionPoint};
ghost use Rattle.tko_ring.specs.Movement.{MovesToJoined};
ghost use Rattle.tko_ring.specs.Points.{points_of};
ghost use Rattle.tko_ring.specs.Rings.{AreInOrder, BelongsOnlyTo, IsRing, server_place};
ghost use Rattle.tko_ring.specs.Servers.{AreWeighed};

use crate::points::points_of;
use crate::{Point, RingKind, Server};
use std::alloc::Global;
use std::marker::Model;
use tko_bytes::NoMemory;

/// The points of a pool's servers in order, one or more. Contracts see the list of them.
#[derive(Drop)]
pub struct Ring {
    points: Vec<Point>,
}

impl Model for Ring {
    ghost use Rattle.std.specs.Prelude.{List, ◌<◌, length};
    ghost use Rattle.tko_ring.specs.Rings.{AreInOrder};
    ghost use Rattle.tko_ring.specs.declared.point.Point.{Point};

    ghost Value = { List Point };

    ghost view = { λ r. r.points.items };

    ghost invariant = { λ r. AreInOrder r.points.items × (0 < length r.points.items) };
}

impl Ring {
    /// The ring of a pool's servers.
    pub fn of(alloc: Global, kind: RingKind, servers: &[Server]) -> Result<Ring, NoMemory>
        requires { AreWeighed servers.now }
        ensures points { IfOk result (λ ring. IsRing (points_of kind servers.now) ring) }
        ensures within { IfOk result (λ ring.
            (hash : ℕ) → server_place ring hash < length servers.now) }
        ensures moves { IfOk result (λ ring. MovesToJoined kind servers.now ring) }
    {
        Ok(Ring {
            points: in_order(points_of(alloc, kind, servers)?)?,
        })
    }

    /// The points in order.
    pub fn points(&self) -> &[Point]
        ensures { result.now ≡ self.now }
    {
        self.points.as_slice()
    }

    /// The place of the server that a hash belongs to.
    pub fn place_of(&self, hash: u32) -> u32
        ensures value { result ≡ server_place self.now hash }
        ensures only { BelongsOnlyTo self.now hash result }
    {
        wrapped(&self.points, first_from(&self.points, hash)).place
    }
}

#[tactic(auto, using(crate::proofs::RingLemmas::is_ring))]
fn in_order(mut points: Vec<Point>) -> Result<Vec<Point>, NoMemory>
    ensures { IfOk result (λ ring. IsRing points.items ring.items) }
{
    points.sort()?;
    Ok(points)
}

/// How many points of an ordered list lie below a hash, which is where the first of the others
/// lies.
fn first_from(points: &[Point], hash: u32) -> usize
    requires ordered { AreInOrder points.now }
    ensures { IsPartitionPoint (λ point. point.value < hash) (λ point. hash ≤ point.value)
        points.now result }
{
    points.partition_point(|point| is_below(point, hash))
}

fn is_below(point: &Point, hash: u32) -> bool
    ensures { result ≡ nat_lt point.now.value hash }
{
    point.value < hash
}

/// The point at an index, or the first one where the points end before it.
fn wrapped(points: &[Point], index: usize) -> Point
    requires some { 0 < length points.now }
    ensures within { index < length points.now → result ≡ slice_index_or points.now index result }
    ensures past { length points.now ≤ index → result ≡ slice_index_or points.now 0 result }
{
    if index < points.len() {
        points[index]
    } else {
        points[0]
    }
}
