//! Addresses of servers, `<host>:<port>`.

/// The greatest port.
pub const MAX_PORT: u64 = 65_535;
