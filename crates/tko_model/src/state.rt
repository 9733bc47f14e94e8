//! The state of a server.
ghost use Rattle.std.specs.Prelude.{◌≡◌, IfOk, length};
ghost use Rattle.tko_model.specs.Tracker.{has_room, is_soft_in, opened, softs_in};

use crate::{Mark, Settings};
use std::alloc::Global;
use tko_bytes::NoMemory;

/// The state of a server: its mark, and its stamp, which is the opening stamp plus the number of
/// changes of the mark.
#[derive(Clone, Copy, Debug, PartialEq, Eq)]
pub struct ServerState {
    pub mark: Mark,
    pub stamp: u64,
}

/// How many servers of a group have a soft mark, counted anew at each call.
#[tactic(auto, using(crate::proofs::GroupLemmas::softs_from_drop))]
pub fn count_softs(servers: &[ServerState], settings: &Settings, group: usize) -> usize
    ensures { result ≡ softs_in settings.now group servers.now }
{
    let mut count = 0;
    for (server, state) in servers.iter().enumerate() {
        if is_soft_in(settings, group, server, state.mark) {
            count += 1;
        }
    }
    count
}

/// Whether a server with this number and this mark is one of the group that has a soft mark.
fn is_soft_in(settings: &Settings, group: usize, server: usize, mark: Mark) -> bool
    ensures { result ≡ is_soft_in settings.now group server mark }
{
    matches!(mark, Mark::Soft(_)) && settings.group_of(server) == group
}

/// Whether there is room for one more soft mark in the group of a server.
pub fn has_room(servers: &[ServerState], settings: &Settings, server: usize) -> bool
    ensures { result ≡ has_room settings.now servers.now server }
{
    let group = settings.group_of(server);
    count_softs(servers, settings, group) < settings.limit_of(group) as usize
}

/// The servers of a tracker when it opens: each is up, at the opening stamp.
pub fn opened_servers(alloc: Global, settings: &Settings) -> Result<Vec<ServerState>, NoMemory>
    ensures servers { IfOk result (λ servers. servers.items ≡ (opened settings.now).servers) }
    ensures count { IfOk result (λ servers. length servers.items ≡ settings.now.servers) }
{
    let server = ServerState {
        mark: Mark::Up(0),
        stamp: settings.opening_stamp,
    };
    Ok(vec![in alloc; server; settings.servers as usize]?)
}
