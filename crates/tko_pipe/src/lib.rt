//! One pipelined connection to a server, as a value. There is no socket, no clock and no handle
//! here: the caller moves the bytes, and moments come in as milliseconds.
//!
//! - `Pipe`: the requests that were sent on one connection, from connecting until it is shut, and
//!   the responses to them; `Link`: how far the connection is.
//! - `Waiter`: one that waits for a response; `Asker`: who that is, and whether it gave up: then
//!   its place stays, and its response is dropped when it comes.
//! - `Window`: since when how many bytes came on a connection.
//! - `ShutCause`: why a connection was shut; `Fate`: what that makes of a request.
#![tactic(auto)]

mod byte_queue;
mod fates;
mod form;
mod law;
mod link;
mod pipe;
mod waiter;
mod waiters;
mod window;

pub use fates::{Fate, Fates, ShutCause};
pub use law::pipe_life;
pub use link::Link;
pub use pipe::Pipe;
pub use waiter::{Asker, Waiter};
pub use window::{PROGRESS, Window};
