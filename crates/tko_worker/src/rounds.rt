//! What a worker does between two turns: with the parts of its sessions, and by probes.
ghost use Rattle.std.specs.Prelude.{◌≡◌, ◌<◌, OnErr, OnOk, length};
ghost use Rattle.tko_pipe.specs.Pipes.{pushing};
ghost use Rattle.tko_mux.specs.Lines.{IsLinePushed};
ghost use Rattle.tko_mux.specs.Muxes.{IsOnLine, LinesStay};
ghost use Rattle.tko_worker.specs.Changes.{KeepsClients, OnlyLinesChange};
ghost use Rattle.tko_worker.specs.Workers.{IsInOrder};

use crate::Worker;
use std::alloc::Global;
use tko_bytes::NoMemory;
use tko_model::Duty;
use tko_pipe::Asker;
use tko_port::{Port, SharedParts, Talking};
use tko_roster::PartsVisit;
use tko_text::Request;

/// Something that is done with the parts of the sessions, as the multiplexer has them.
struct OnShared<V> {
    visit: V,
}

impl<P, V: PartsVisit<P>> PartsVisit<SharedParts<P>> for OnShared<V> {
    ghost use Rattle.std.specs.Prelude.{◌≡◌};

    type Output = V::Output;

    ghost does = { λ on old it new. V.does on.visit old.parts it new.parts
        × (new.buffer ≡ old.buffer) };

    ghost stays = { λ old new. V.stays old.parts new.parts };

    fn visit(self, shared: &mut SharedParts<P>) -> V::Output {
        let OnShared { visit } = self;
        visit.visit(&mut shared.parts)
    }
}

impl<P, L: Port + Drop, T: Talking<P> + Drop> Worker<L, T, P> {
    /// Does something with the parts that all sessions share, which leaves them ready.
    pub fn visit<V: PartsVisit<P>>(&mut self, visit: V) -> V::Output
        requires stays { (old new : P) → V.stays old new → T.stays old new }
        requires order { IsInOrder (T.awaited, T.talk, L.port) T.ready self.old }
        ensures does { V.does visit self.old.mux.roster.parts.parts result
            self.new.mux.roster.parts.parts }
        ensures clients { KeepsClients self.old self.new }
        ensures lines { LinesStay self.old.mux self.new.mux }
        ensures order { IsInOrder (T.awaited, T.talk, L.port) T.ready self.new }
    {
        self.mux.visit(OnShared { visit })
    }

    /// A probe of a server is to be sent, whose response is due at this moment.
    pub fn probe(&mut self, alloc: Global, duty: Duty, due: u64) -> Result<(), NoMemory>
        requires server { duty < length self.old.mux.lines }
        requires order { IsInOrder (T.awaited, T.talk, L.port) T.ready self.old }
        ensures ok { OnOk result (IsOnLine (λ was it. IsLinePushed self.old.mux.limit was
            (pushing Asker.Probe due Request.Version) it) self.old.mux.lines duty
            self.new.mux.lines) }
        ensures err { OnErr result (self.new ≡ self.old) }
        ensures clients { OnlyLinesChange self.old self.new }
        ensures order { IsInOrder (T.awaited, T.talk, L.port) T.ready self.new }
    {
        self.mux.probe(alloc, duty, due)
    }
}
