//! What a reader returns.

use crate::{Request, TextFault};

/// A request, or a fault in its place.
#[derive(Debug, Drop)]
pub enum Item {
    Request(Request),
    Fault(TextFault),
}
