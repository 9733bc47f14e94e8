//! The metrics of a server: numbers that its workers keep as they work, and the page that shows
//! them in the text format of Prometheus.
//!
//! - `Meter`: the numbers of a server. Any thread may add to them, and none waits; a meter that is
//!   off keeps nothing. `WorkerMeter` is one worker's part of it, and `Meter::page` the page.
//! - `Ending`: how a session ended; `Marking`: the mark that a worker set; `Command`: which command
//!   a request has; `Refusal`: why something was refused; `SentEnd`: what came of what was sent.
//! - `ShownPool`: a pool of the route; `HealthReport`: whether each pool has a server in use.
//! - `WorkerLoad`: what an event-driven worker serves; `ServerLoad`: what it has to do with a
//!   server.
//! - `Status`: what is shown to people: each server as `Shown` and `TimedServer`, and the workers.
//!   `bucket_bound` says what a bucket of times holds, and `moment_now` what the wall clock shows.
//! - `Process`: the build that the process runs, and what the system says of it: its memory and its
//!   descriptors. `Build`: a build of the program.
#![tactic(auto)]

mod build;
mod command;
mod counter;
mod health;
mod load;
mod marking;
mod meter;
mod metrics;
mod moment;
mod numbers;
mod page;
mod process;
mod reading;
mod refusal;
mod sample;
mod sent_end;
mod server_load;
mod server_page;
mod status;
mod tallies;
mod timed;
mod times;
mod times_page;
mod times_reading;
mod worded;
mod worker_meter;
mod workers;

pub use build::Build;
pub use command::Command;
pub use health::{HealthReport, ShownPool, used_of};
pub use load::WorkerLoad;
pub use marking::Marking;
pub use meter::Meter;
pub use moment::moment_now;
pub use process::Process;
pub use reading::{ServerReading, Shown, Sums};
pub use refusal::Refusal;
pub use sample::add_digits;
pub use sent_end::SentEnd;
pub use server_load::ServerLoad;
pub use status::Status;
pub use timed::TimedServer;
pub use times::bucket_bound;
pub use times_reading::{Bucket, TimesReading};
pub use worker_meter::{Ending, Increase, WorkerMeter};
pub use workers::WorkerReading;
