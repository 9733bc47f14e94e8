//! What a record of calls over TCP says in all.
ghost use Rattle.std.specs.Prelude.{List};
ghost use Rattle.tko_model.specs.Records.{Gains};
ghost use Rattle.tko_tcp.specs.TcpWires.{IsTcpRecord, TcpState};
ghost use Rattle.tko_links.specs.Wires.{WireItem};

use crate::tcp_wire::TcpWire;
use tko_links::Wire;

/// After the calls of a record, a server is connected if it was connected last and not shut since,
/// and each failure is counted. The law says nothing about the bytes.
pub fn tcp_counts()
    ensures { (old new : TcpState) (items : List WireItem)
        → Gains ⟦<TcpWire as Wire>⟧.steps old items new → IsTcpRecord old items new }
{}
