//! What a server tells once clients can connect.

use thiserror::Error;
use tko_accept::FirstAsks;
use tko_io::IoRuntime;

/// It could not be announced that clients can connect.
#[derive(Clone, Copy, Debug, PartialEq, Eq, Error)]
#[error("announce")]
pub struct AnnounceFault;

/// What is to be announced once clients can connect.
pub trait Announce {
    ghost use Rattle.std.specs.Prelude.{OnErr, OnOk};
    ghost use Rattle.tko_accept.specs.FirstAsks.{HaveAllAsked};

    /// What it is before and after it was announced.
    ghost announces: { Self → Self → Type 0 };

    /// What it is before and after it could not be announced.
    ghost fails: { Self → Self → Type 0 };

    /// Announces that clients can connect. A server does so once, when each of its workers has
    /// asked for its first connection, and before it accepts any. Where that fails the server ends.
    fn announce<R: IoRuntime>(&mut self, rt: &R, asks: &FirstAsks) -> Result<(), AnnounceFault>
        requires asked { HaveAllAsked asks.now }
        ensures ok { OnOk result (announces self.old self.new) }
        ensures err { OnErr result (fails self.old self.new) };
}

/// Nothing is announced.
#[derive(Drop)]
pub(crate) struct Silent;

impl Announce for Silent {
    ghost use Rattle.std.specs.Prelude.{◌≡◌};

    ghost announces = { λ old new. new ≡ old };

    ghost fails = { λ _ _. ⊥ };

    fn announce<R: IoRuntime>(&mut self, _rt: &R, _asks: &FirstAsks) -> Result<(), AnnounceFault> {
        Ok(())
    }
}
