//! Look-ups of names that nobody is told of.

use tko_io::IoRuntime;
use tko_tcp::{LookUpEnd, LookUpObserver};

/// It ignores how look-ups end.
#[derive(Clone, Copy)]
pub(crate) struct Unobserved;

impl LookUpObserver for Unobserved {
    fn looked_up<R: IoRuntime>(&self, _rt: &R, _server: usize, _end: LookUpEnd) {}
}
