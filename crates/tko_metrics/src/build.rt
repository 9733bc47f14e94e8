//! Which build of the program serves.

/// A build of the program: its version, and the hash of the sources that it was built from.
#[derive(Clone, Copy, Debug, PartialEq, Eq)]
pub struct Build {
    pub version: &'static str,
    pub sources: &'static str,
}
