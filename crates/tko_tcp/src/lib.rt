//! Connections to the servers over TCP, as a wire of tko_links.
//!
//! - `TcpWire`: the connections over the system's sockets, at most one to each server; `TcpLinks`:
//!   links over them.
//! - `Names`: the servers' hosts that have a name, which one thread looks up for all workers;
//!   `LookUpObserver`: who is told how look-ups end.
//! - `ServerHost`: where a server is, for a caller that must not wait; `NamedHost`: a server at a
//!   host with a name, and `Known` whether its addresses are known.
#![tactic(auto)]

mod addresses;
mod exchange_time;
mod host_state;
mod lack;
mod laws;
mod limited_stream;
mod look_ups;
mod named_host;
mod names;
mod probe_time;
mod progress;
mod reached;
mod resolver;
mod server_host;
mod shares;
mod tcp_address;
mod tcp_connect;
mod tcp_connection;
mod tcp_server;
mod tcp_wire;

pub use lack::{Lack, lack_of};
pub use laws::tcp_counts;
pub use look_ups::{LookUpEnd, LookUpObserver, Unresolved};
pub use named_host::NamedHost;
pub use names::Names;
pub use server_host::{Known, ServerHost};
pub use shares::share_until;
pub use tcp_wire::{TcpLinks, TcpWire};

#[cfg(test)]
mod tests;
