//! A server of a pool, as the points of a ring depend on it.
ghost use Rattle.std.specs.Prelude.{◌<◌, ◌≤◌, ◌^◌, ◌↔◌, All, IsTrue};
ghost use Rattle.tko_ring.specs.Servers.{AreWeighed, total_weight};

use std::marker::Model;

/// The most weight of all servers of a ring together: above it floats of 32 bits lose whole
/// numbers.
pub const MAX_WEIGHT: u32 = 1 << 24;

/// A server of a pool, as the points of a ring depend on it. In contracts it is a `NamedServer`.
#[derive(Debug, Drop)]
pub struct Server {
    /// What its points are hashed from.
    pub name: Vec<u8>,
    pub weight: u32,
}

impl Model for Server {
    ghost use Rattle.tko_ring.specs.Servers.{NamedServer};

    ghost Value = { NamedServer };

    ghost view = { λ s. record { name = s.name.items; weight = s.weight } };
}

/// Whether a ring can be made of these servers: one or more, each of some weight, and together of
/// at most `MAX_WEIGHT`.
pub fn are_weighed(servers: &[Server]) -> bool
    ensures { IsTrue result ↔ AreWeighed servers.now }
{
    !servers.is_empty() && each_weighs(servers) && is_light(servers)
}

fn each_weighs(servers: &[Server]) -> bool
    ensures { IsTrue result ↔ All (λ server. 0 < server.weight) servers.now }
{
    servers.iter().all(|server| server.weight > 0)
}

/// Whether the servers have at most `MAX_WEIGHT` together.
fn is_light(servers: &[Server]) -> bool
    ensures { IsTrue result ↔ (total_weight servers.now ≤ 2 ^ 24) }
{
    let mut room = MAX_WEIGHT;
    for server in servers {
        match room.checked_sub(server.weight) {
            Some(left) => room = left,
            None => return false,
        }
    }
    true
}
