//! Which build this is. `release/stamp` writes this file.

/// The sum of the sources, which `release/hash` prints.
pub(crate) const SOURCES: &str = "03e3c9d06a3141e0d2b694816e0243d89c603bc69a28606f1a39f16e3de5cdf6";

/// The same, and the kit that built them.
pub(crate) const BUILD: &str =
    "sources 03e3c9d06a3141e0d2b694816e0243d89c603bc69a28606f1a39f16e3de5cdf6, \
    rattle-kit-13f logic dac8208d650f15bf";
