//! What is done at one socket that does not wait, from one event to the next. There is no socket,
//! no clock and no handle here.
//!
//! - `Port`: a socket that does not wait, with what may be done on it; `Read`: what a read gave.
//! - `FirstByte`: what is known of the first byte of a client's connection, by which one of the
//!   binary protocol is closed.
//! - `Talking`: a client's session as its port sees it; `SessionStage`: how far it is; `Tally`:
//!   what was done with it.
//! - `settle`: serves a client until nothing can be done for it before its next event; `Settled`:
//!   what that came to; `End`: why a client's session ended.
//! - `Guest`: a client with its port, its session and its `Presence`; `ClientEvent`: what it is
//!   given; `SharedParts`: what all clients share; `Turned`: what a call of a client came to.
//! - `Peer`: a server's socket, and what came for a probe of the server.
//! - `read_wire`, `write_wire`: what is read and written of the connection to a server, on its
//!   port; beside them what is asked of that connection.
#![tactic(auto)]

mod first_byte;
mod guest;
mod peer;
mod port;
mod settling;
mod talking;
mod wire;

pub use first_byte::FirstByte;
pub use guest::{ClientEvent, Guest, Presence, SharedParts, Turned};
pub use peer::Peer;
pub use port::{Port, Read};
pub use settling::{End, Settled, settle};
pub use talking::{SessionStage, Talking, Tally};
pub use wire::{
    first_due, has_unwritten, in_flight, is_connected, is_connecting, is_late, is_open, read_wire,
    write_wire,
};
