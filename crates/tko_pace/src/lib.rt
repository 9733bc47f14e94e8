//! The time limits of a client and of a worker, as values without a clock.
//!
//! - `Pace`: how fast a client takes its replies, and how fast it must; a `Span` is the time in
//!   which it must take some.
//! - `is_over`: whether a client completed no request for too long.
//! - `ClientTime`: both, of a client that is looked at now and then; `ClientProgress`: how far it
//!   is; `Verdict`: whether it keeps its limits.
//!
//! And the time of a worker that waits for events:
//!
//! - `RunningTime`: for how long its process ran, without its stalls.
//! - `Lag`: how long its turns of late lasted.
//! - `TurnTimes`: when its turns began, and by which moment what is due is late; `TurnMoments`:
//!   those of one turn.
#![tactic(auto)]

mod client_time;
mod lag;
mod pace;
mod running;
mod silence;
mod turn_times;

pub use client_time::{ClientProgress, ClientTime, Verdict};
pub use lag::Lag;
pub use pace::{Pace, Span};
pub use running::RunningTime;
pub use silence::is_over;
pub use turn_times::{TurnMoments, TurnTimes};
