//! Servers for trials that keep their values in memory, and what a client asks through the proxy to
//! show it at work.
//!
//! - `Store`: values by their keys, and what a request is answered over them.
//! - `DemoServer`: a server at a port of 127.0.0.1, on a thread of its own, which can be stopped.
//! - `Exchange`: a request of the client, by the reply that it must get; `Addresses` says where the
//!   two servers are, and a `Caller` is the two ends of the client's connection.
//! - `play_scene`: plays a `Scene` of the story: sends its requests, reads their replies and prints
//!   both, up to the first reply that is not the right one. `show_story` plays all of them over a
//!   connection to a proxy; `stay` then waits for the end of an input. `write` prints what comes
//!   beside it, and `show_fault` why it ended.
#![tactic(auto)]

mod answering;
mod demo_server;
mod effect;
mod exchange;
mod fault;
mod guest;
mod hearing;
mod host;
mod playing;
mod scene;
mod showing;
mod staying;
mod store;
mod story;
mod values;
mod visit;

pub use demo_server::DemoServer;
pub use exchange::{Addresses, Exchange};
pub use fault::DemoFault;
pub use playing::Caller;
pub use scene::{Scene, play_scene};
pub use showing::{show_fault, write};
pub use staying::stay;
pub use store::Store;
pub use story::show_story;

#[cfg(test)]
mod tests;
