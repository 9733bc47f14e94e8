//! The tracker of one thread at a time.
ghost use Rattle.std.specs.Prelude.{◌≡◌, ◌<◌, ◌↔◌, Some, IfOk, length};
ghost use Rattle.tko_model.specs.Ranges.{first_fault};

use crate::state::{has_room, opened_servers};
use crate::{Mark, Op, Reply, ServerState, Settings, SettingsFault, Transition};
use std::alloc::{AllocError, Global};
use std::marker::Model;
use thiserror::Error;
use tko_bytes::NoMemory;

/// Why a tracker can't be opened.
#[derive(Clone, Copy, Debug, PartialEq, Eq, Error)]
pub enum OpenFault {
    #[error("settings {0}")]
    Settings(SettingsFault),
    #[error("memory")]
    Memory,
}

impl From<NoMemory> for OpenFault {
    ghost use Rattle.std.specs.Prelude.{◌≡◌};
    ghost use Rattle.tko_model.specs.declared.plain.OpenFault.TheVariants as fault;

    ghost from_gives = { λ _ e. e ≡ fault.Memory };

    fn from(_: NoMemory) -> OpenFault {
        OpenFault::Memory
    }
}

impl From<AllocError> for OpenFault {
    ghost use Rattle.std.specs.Prelude.{◌≡◌};
    ghost use Rattle.tko_model.specs.declared.plain.OpenFault.TheVariants as fault;

    ghost from_gives = { λ _ e. e ≡ fault.Memory };

    fn from(_: AllocError) -> OpenFault {
        OpenFault::Memory
    }
}

/// The sequential tracker. In contracts it is its settings and the list of its servers.
#[derive(Debug, Drop)]
pub struct Plain {
    settings: Settings,
    servers: Vec<ServerState>,
}

impl Model for Plain {
    ghost use Rattle.std.specs.Prelude.{List};
    ghost use Rattle.tko_model.specs.Tracker.{Tracker, IsTracker};

    ghost Value = { Tracker };

    ghost view = { λ p. record {
      settings = p.settings;
      servers = p.servers.items;
    } };

    ghost invariant = { λ p. IsTracker (record {
      settings = p.settings;
      servers = p.servers.items;
    }) };
}

impl Plain {
    ghost use Rattle.tko_model.specs.Tracker.{IsTracker, after, opened, reply_of, server_at};

    /// Opens a tracker whose servers are all up, at the opening stamp.
    pub fn open(alloc: Global, settings: Settings) -> Result<Plain, OpenFault>
        ensures ok { IfOk result (λ tracker. tracker ≡ opened settings) }
        ensures settings { (fault : SettingsFault) →
            (result ≡ Err (OpenFault.Settings fault)) ↔ (first_fault settings ≡ Some fault) }
    {
        if let Err(fault) = settings.check() {
            return Err(OpenFault::Settings(fault));
        }
        let servers = opened_servers(alloc, &settings)?;
        Ok(Plain { settings, servers })
    }

    /// Does one operation of a thread on a server and returns its reply.
    pub fn apply(&mut self, thread: u32, op: Op, server: usize) -> Reply
        requires thread { thread < self.old.settings.threads }
        requires server { server < length self.old.servers }
        ensures reply { result ≡ reply_of self.old thread op server }
        ensures state { self.new ≡ after self.old thread op server }
    {
        let old = self.servers[server];
        let room = has_room(&self.servers, &self.settings, server);
        let transition = Transition::of(&self.settings, room, thread, op, old);
        if let Some(mark) = transition.change {
            self.servers[server] = ServerState {
                mark,
                stamp: old.stamp + 1,
            };
        }
        transition.reply
    }

    /// The mark of a server.
    pub fn mark(&self, server: usize) -> Mark
        requires { server < length self.now.servers }
        ensures { result ≡ (server_at self.now.servers server).mark }
    {
        self.servers[server].mark
    }

    /// The stamp of a server: the opening stamp plus the number of changes of its mark.
    pub fn stamp(&self, server: usize) -> u64
        requires { server < length self.now.servers }
        ensures { result ≡ (server_at self.now.servers server).stamp }
    {
        self.servers[server].stamp
    }

    /// The settings that it was opened with.
    pub fn settings(&self) -> &Settings
        ensures value { result.now ≡ self.now.settings }
        ensures tracker { IsTracker self.now }
    {
        &self.settings
    }
}
