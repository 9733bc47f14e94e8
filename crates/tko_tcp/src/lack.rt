//! What the proxy itself may lack for a connection.
ghost use Rattle.std.specs.Prelude.{◌≡◌, ◌↔◌, IfNone, IfSome, IsTrue, Some};
ghost use Rattle.std.specs.IoError.{raw_os_error};
ghost use Rattle.tko_tcp.specs.Lacks.{IsLacking};

use std::io;

/// Linux' error number EADDRNOTAVAIL: no local port is free for a connection to this address.
const NO_PORT: i32 = 99;

/// Linux' error number EMFILE: the process has as many descriptors as it may.
const PROCESS_FILES: i32 = 24;

/// Linux' error number ENFILE: the system has as many.
const SYSTEM_FILES: i32 = 23;

/// Linux' error number ENOBUFS.
const NO_BUFFERS: i32 = 105;

/// Linux' error number ENOMEM.
const NO_MEMORY: i32 = 12;

/// What the proxy itself lacked where a connection to a server could not be begun.
#[derive(Clone, Copy, Debug, PartialEq, Eq)]
pub enum Lack {
    /// A local port.
    Ports,
    Descriptors,
    /// Memory of the system.
    Memory,
}

/// What was lacking, if this error of a call that begins a connection says so. It says nothing
/// about the server then.
pub fn lack_of(error: &io::Error) -> Option<Lack>
    ensures found { IfSome result (λ lack. IsLacking lack error.now) }
    ensures none { IfNone result ((lack : Lack) → IsLacking lack error.now → ⊥) }
{
    if is_numbered(error, NO_PORT) {
        return Some(Lack::Ports);
    }
    if is_numbered(error, PROCESS_FILES) || is_numbered(error, SYSTEM_FILES) {
        return Some(Lack::Descriptors);
    }
    if is_numbered(error, NO_BUFFERS) || is_numbered(error, NO_MEMORY) {
        return Some(Lack::Memory);
    }
    None
}

/// Whether an error has this number of Linux.
fn is_numbered(error: &io::Error, number: i32) -> bool
    ensures { IsTrue result ↔ (raw_os_error error.now ≡ Some number) }
{
    match error.raw_os_error() {
        Some(its) => its == number,
        None => false,
    }
}
