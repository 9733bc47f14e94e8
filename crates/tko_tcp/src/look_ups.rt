//! How look-ups of names end.
ghost use Rattle.std.specs.Prelude.{◌≡◌, ◌≢◌, ◌↔◌, []};
ghost use Rattle.tko_tcp.specs.LookUps.{no_address, no_answer, unknown_name};

use crate::addresses::ResolvedAddresses;
use crate::lack::{Lack, lack_of};
use std::alloc::Global;
use std::io::{Error, ErrorKind};
use tko_io::IoRuntime;

/// How a look-up of a name ended.
#[derive(Clone, Copy, Debug, PartialEq, Eq)]
pub enum LookUpEnd {
    /// It found addresses.
    Found,
    /// It found none.
    Unresolved(Unresolved),
}

/// Why a look-up found no address.
#[derive(Clone, Copy, Debug, PartialEq, Eq)]
pub enum Unresolved {
    /// There is no such name.
    Unknown,
    /// The name has no address.
    NoAddress,
    /// No name server answered.
    NoAnswer,
    /// The proxy itself lacked this.
    Lacking(Lack),
    /// Any other reason.
    Failed,
}

/// Who is told how look-ups end.
pub trait LookUpObserver {
    /// A look-up of the name of this server of the configuration ended so, and the one before it
    /// ended otherwise. Before the first one all count as found.
    fn looked_up<R: IoRuntime>(&self, rt: &R, server: usize, end: LookUpEnd);
}

/// Looks a name up. Returns what was found, and how that ended.
pub(crate) fn look_up<R: IoRuntime>(
    rt: &R,
    alloc: Global,
    name: &str,
) -> (ResolvedAddresses, LookUpEnd)
    ensures found { result.0 ≢ [] → result.1 ≡ LookUpEnd.Found }
    ensures none { result.0 ≡ [] → (reason : Unresolved) × result.1 ≡ LookUpEnd.Unresolved reason }
{
    match ResolvedAddresses::look_up(rt, name) {
        Ok(found) => {
            let end = end_of(&found);
            (found, end)
        }
        Err(error) => {
            let end = LookUpEnd::Unresolved(reason_of(alloc, &error));
            (ResolvedAddresses::none(), end)
        }
    }
}

/// How a look-up ended that found these addresses.
fn end_of(found: &ResolvedAddresses) -> LookUpEnd
    ensures found { found.now ≢ [] → result ≡ LookUpEnd.Found }
    ensures none { found.now ≡ [] → result ≡ LookUpEnd.Unresolved Unresolved.NoAddress }
{
    if found.as_slice().is_empty() {
        LookUpEnd::Unresolved(Unresolved::NoAddress)
    } else {
        LookUpEnd::Found
    }
}

/// Why a look-up failed, by its error.
fn reason_of(alloc: Global, error: &Error) -> Unresolved {
    if let Some(lack) = lack_of(error) {
        return Unresolved::Lacking(lack);
    }
    if error.kind() == ErrorKind::OutOfMemory {
        return Unresolved::Lacking(Lack::Memory);
    }
    match format!(in alloc; "{error}") {
        Ok(text) => reason_in(text.as_str()),
        Err(_) => Unresolved::Lacking(Lack::Memory),
    }
}

/// Why a look-up failed, by the text of its error, which is all that std says of the resolver's
/// own errors.
fn reason_in(text: &str) -> Unresolved
    ensures unknown { (result ≡ Unresolved.Unknown) ↔ (text.now ≡ unknown_name) }
    ensures no_address { (result ≡ Unresolved.NoAddress) ↔ (text.now ≡ no_address) }
    ensures no_answer { (result ≡ Unresolved.NoAnswer) ↔ (text.now ≡ no_answer) }
{
    match text {
        "failed to lookup address information: Name or service not known" => Unresolved::Unknown,
        "failed to lookup address information: No address associated with hostname" => {
            Unresolved::NoAddress
        }
        "failed to lookup address information: Temporary failure in name resolution" => {
            Unresolved::NoAnswer
        }
        _ => Unresolved::Failed,
    }
}
