//! Why the file of a list of keys cannot be read.
ghost use Rattle.std.specs.Prelude.{◌≡◌, IfOk, string_bytes};

use std::alloc::{AllocError, Global};
use std::io;

/// The file of a list of keys cannot be read.
#[derive(Debug, Drop)]
pub struct UnreadKeys {
    pub path: String,
    /// What the system says.
    pub words: String,
}

impl UnreadKeys {
    /// Of the file at a path, for this error.
    pub(crate) fn of(alloc: Global, path: &str, error: &io::Error) -> Result<UnreadKeys, AllocError>
        ensures { IfOk result (λ unread. string_bytes unread.path ≡ path.now) }
    {
        Ok(UnreadKeys {
            path: String::from_str(alloc, path)?,
            words: format!(in alloc; "{error}")?,
        })
    }
}
