//! The two kinds of rings.
ghost use Rattle.std.specs.Prelude.{◌≡◌, [], ◌∷◌, ◌++◌, ◌*◌, ◌<◌, ◌≤◌, ◌^◌, map, OnOk};
ghost use Rattle.md5.specs.Md5.{word_at};
ghost use Rattle.tko_ring.specs.Points.{labels_of, point_at, values_at};

use crate::digests::digests_of;
use crate::words::word_of;
use crate::{KeyHash, Point};
use md5::{Digest, Md5};
use tko_bytes::NoMemory;

/// How many points a server has on a ring, and where.
#[derive(Clone, Copy, Debug, PartialEq, Eq)]
pub enum RingKind {
    /// Four points of each MD5 of a label, and as many labels as the server's weight gives: 40 or
    /// 39 where all weights are equal.
    Ketama,
    /// 100 points by this hash of a label. Weights have no effect.
    Consistent(KeyHash),
}

impl RingKind {
    /// How many labels a server of this weight has, of as many servers with this total of weights.
    pub(crate) fn labels(self, weight: u32, total: u32, servers: u32) -> u64
        requires weight { 0 < weight }
        requires within { weight ≤ total }
        requires total { total ≤ 2 ^ 24 }
        requires servers { servers ≤ 2 ^ 24 }
        ensures { result ≡ labels_of self weight total servers }
    {
        match self {
            RingKind::Ketama => digests_of(weight, total, servers),
            RingKind::Consistent(_) => 100,
        }
    }

    /// Appends the points that a label gives to the server at this place.
    pub(crate) fn push_points(
        self,
        label: &[u8],
        place: u32,
        points: &mut Vec<Point>,
    ) -> Result<(), NoMemory>
        ensures { OnOk result (points.new.items
            ≡ points.old.items ++ map (point_at place) (values_at self label.now)) }
    {
        match self {
            RingKind::Ketama => push_words(&Md5::digest(label), place, points),
            RingKind::Consistent(hash) => {
                points.push(Point {
                    value: hash.of(label),
                    place,
                })?;
                Ok(())
            }
        }
    }
}

/// Appends the four points of a digest.
fn push_words(digest: &[u8; 16], place: u32, points: &mut Vec<Point>) -> Result<(), NoMemory>
    ensures { OnOk result (points.new.items ≡ points.old.items
        ++ map (point_at place) (word_at digest.now 0 ∷ word_at digest.now 4
        ∷ word_at digest.now 8 ∷ word_at digest.now 12 ∷ [])) }
{
    points.extend_from_slice(&[
        point_from(digest, 0, place),
        point_from(digest, 1, place),
        point_from(digest, 2, place),
        point_from(digest, 3, place),
    ])?;
    Ok(())
}

/// The point that one of the four numbers of a digest gives.
fn point_from(digest: &[u8; 16], number: usize, place: u32) -> Point
    requires { number < 4 }
    ensures { result ≡ point_at place (word_at digest.now (4 * number)) }
{
    Point {
        value: word_of(digest, number),
        place,
    }
}
