//! Where a value of a list is.

use super::reader::Head;
use crate::Key;

/// The key of a value, what its first line announces beside it, and where its data begin in the
/// text of the response.
#[derive(Debug, Drop)]
pub(crate) struct ValuePlace {
    pub(super) key: Key,
    pub(super) head: Head,
    pub(super) begin: usize,
}
