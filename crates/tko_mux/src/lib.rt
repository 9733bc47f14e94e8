//! Which client gets what a server answers: the sessions of a worker's clients by number, and for
//! each server the connection that their requests share.
//!
//! - `Asking`: a session as the multiplexer sees it; `Came`: what came of its request.
//! - `Given`: what a session is given; `Client`: a session, called by that.
//! - `Line`: the connections to one server: the one that requests go out on, and one that was shut,
//!   until all that waited on it have left.
//! - `Mux`: the sessions and the lines, so that each client waits on the line to the server that
//!   its session awaits, and on no other; `Delivery`: who got what came; `Done`: what its session
//!   did.
#![tactic(auto)]

mod asking;
mod client;
mod line;
mod mux;

pub use asking::{Asking, Came, Given};
pub use client::Client;
pub use line::Line;
pub use mux::{Delivery, Done, Mux};
