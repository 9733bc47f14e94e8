//! What lies below the servers' links: the runtime, the clocks, and the two ends of a client's
//! connection, with how bytes are read from one and written to the other.
//!
//! - `IoRuntime`: a runtime that lets a call wait and use the network.
//! - `Clock`: where moments come from. `MonotonicClock` reads the system's, `FrozenClock` gives 0,
//!   and `ListedClock` gives the moments of a list.
//! - `Inlet` and `Outlet`: the two ends of a session; `Stop` is why a call moved no byte.
//! - `Piped` and `Taped`: ends over std's readers and writers, and over memory. `Readable` and
//!   `Writable` say of a reader and of a writer what a call returned.
//! - `read_piece`: reads the next `Piece` into a `piece_buffer`, and `wait_for_piece` reads until
//!   there is one.
//! - `write_all`: writes a text and counts its bytes; `raise` raises a count by 1.
#![tactic(auto)]

mod calls;
mod clock;
mod io;
mod io_runtime;
mod monotonic;
mod pieces;
mod piped;
mod raising;
mod stop_counts;
mod taped;
mod writing;

pub use calls::{Readable, Writable};
pub use clock::{Clock, FrozenClock, ListedClock};
pub use io::{Inlet, Outlet, Stop};
pub use io_runtime::IoRuntime;
pub use monotonic::MonotonicClock;
pub use pieces::{Piece, piece_buffer, read_piece, wait_for_piece};
pub use piped::Piped;
pub use raising::raise;
pub use taped::Taped;
pub use writing::write_all;
