//! The points of a pool's servers.
ghost use Rattle.std.specs.Prelude.{◌≡◌, ◌++◌, ◌<◌, ◌≤◌, ◌^◌, [], IfOk, OnOk, length, map};
ghost use Rattle.tko_ring.specs.Points.{label, point_at, points_of, point_values};
ghost use Rattle.tko_ring.specs.Servers.{AreWeighed, total_weight};

use crate::{Point, RingKind, Server};
use itoa::Buffer;
use std::alloc::Global;
use tko_bytes::{NoMemory, append};

/// The points so far, and the room for a label.
#[derive(Drop)]
struct Drawing {
    points: Vec<Point>,
    text: Vec<u8>,
}

/// The points of a pool's servers, in the order of the list.
pub(crate) fn points_of(
    alloc: Global,
    kind: RingKind,
    servers: &[Server],
) -> Result<Vec<Point>, NoMemory>
    requires { AreWeighed servers.now }
    ensures { IfOk result (λ points. points.items ≡ points_of kind servers.now) }
{
    let total = total_weight(servers);
    let count = count_of(servers);
    let mut drawing = Drawing {
        points: Vec::new(alloc),
        text: Vec::new(alloc),
    };
    for (place, server) in servers.iter().enumerate() {
        let labels = kind.labels(server.weight, total, count);
        drawing.add(kind, &server.name, labels, place as u32)?;
    }
    Ok(drawing.points)
}

impl Drawing {
    /// Appends the points of the server of this name and place.
    fn add(&mut self, kind: RingKind, name: &[u8], labels: u64, place: u32) -> Result<(), NoMemory>
        ensures { OnOk result (self.new.points.items
            ≡ self.old.points.items ++ map (point_at place) (point_values kind name.now labels)) }
    {
        for number in 0..labels {
            write_label(name, number, &mut self.text)?;
            kind.push_points(&self.text, place, &mut self.points)?;
        }
        Ok(())
    }
}

/// Puts a label in place of what the text was.
fn write_label(name: &[u8], number: u64, text: &mut Vec<u8>) -> Result<(), NoMemory>
    ensures { OnOk result (text.new.items ≡ label name.now number) }
{
    let mut digits = Buffer::new();
    text.clear();
    append(text, &[name, b"-", digits.format(number).as_bytes()])
}

/// How many servers there are.
fn count_of(servers: &[Server]) -> u32
    requires { AreWeighed servers.now }
    ensures value { result ≡ length servers.now }
    ensures few { length servers.now ≤ 2 ^ 24 }
{
    servers.len() as u32
}

/// The weight of all servers together.
fn total_weight(servers: &[Server]) -> u32
    requires { total_weight servers.now ≤ 2 ^ 24 }
    ensures { result ≡ total_weight servers.now }
{
    let mut total = 0;
    for server in servers {
        total += server.weight;
    }
    total
}
