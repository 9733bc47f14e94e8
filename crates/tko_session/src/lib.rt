//! One client's bytes: what comes in, what is asked of the servers, and what goes out.
//!
//! - `Session`: a client's session as a value. `feed` takes the client's bytes; `next` and
//!   `answered` are lent the servers' health and the configuration, and return a `Step`: what was
//!   done, and what the driver does before the next call; `output` has the replies. `hand_over`
//!   gives a request for several keys to the driver, and `take_reply` takes its reply back. It
//!   knows no socket, link, clock or record of trails, and borrows nothing between calls. Where
//!   memory runs out the calls return the `Dropped` attempts.
//! - `serve`: drives a session over a worker's `Parts`: reads pieces from an `Inlet`, sends what
//!   the session asks for over the links, records what it did, tells each attempt as it ends,
//!   writes the replies to an `Outlet`, and runs the rounds.
//! - `round`: sends the probes that are due, and tells each as it ends.
//! - `observe_attempts`, `observe_request`, `observe_trail`, `record_trail`, `observe_drop`,
//!   `observe_refusal`, `observe_end`: hand on what a session did, for a driver that does not wait.
//! - `client_begins`, `client_acts`, `served`: laws. Each client has a life of its own, also where
//!   one thread serves many over the same parts. `keys_in_turn`: a law for where at most one key of
//!   a request is under way at a time.
#![tactic(auto)]

mod answering;
mod clients;
mod fault;
mod observing;
mod rounds;
mod serving;
mod session;
mod step;

pub use clients::{client_acts, client_begins, keys_in_turn, served};
pub use fault::SessionFault;
pub use observing::{
    observe_attempts, observe_drop, observe_end, observe_refusal, observe_request, observe_trail,
    record_trail,
};
pub use rounds::round;
pub use serving::serve;
pub use session::Session;
pub use step::{Progress, Report, Step, progress_after};
pub use tko_io::{
    Clock, FrozenClock, Inlet, ListedClock, MonotonicClock, Outlet, Piped, Stop, Taped,
};
pub use tko_prober::{Backend, ProbeSlot, Probers};
pub use tko_reply::{Counts, Dropped, Kept, Parts, Trails, status};
