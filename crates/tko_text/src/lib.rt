//! The text protocol: requests as bytes in any pieces, and responses as bytes.
//!
//! - `Key`: what a value is stored under.
//! - `Request`: what a client asks; `Item`: a request or a `TextFault`, as a `Reader` reads them.
//! - `Response`: what a server answers to a request.
#![tactic(auto)]

mod buffer;
mod data;
mod expiry;
mod fault;
mod form;
mod item;
mod key;
mod keys;
mod laws;
mod line;
mod pending;
mod reader;
mod request;
mod response;
mod state;
mod step;

pub use fault::TextFault;
pub use item::Item;
pub use key::Key;
pub use keys::Keys;
pub use laws::{any_cutting, read_again};
pub use line::LINE_LIMIT;
pub use reader::{FeedFault, Reader};
pub use request::{Entry, Request, Verb};
pub use response::{Data, Listed, ReadFault, Response, Text, Value, one_response};
pub use tko_bytes::NoMemory;
