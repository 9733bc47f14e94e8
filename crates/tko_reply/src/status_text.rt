//! The text of `stats tko`: the mark of each server.
ghost use Rattle.std.specs.Prelude.{◌≡◌, ◌++◌, OnErr, OnOk, IfOk, length, map, string_bytes};
ghost use Rattle.tko_reply.specs.Answering.{Extends};
ghost use Rattle.tko_reply.specs.Cuts.{LooksSome};
ghost use Rattle.tko_reply.specs.Status.{IsStatus, IsStatusAfter, mark_of, mark_line};

use std::alloc::Global;
use std::sync::Wait;
use tko_bytes::{NoMemory, append};
use tko_model::{Look, Mark, append_mark};
use tko_route::Health;

/// A line for each server in number order, from one look-up each, and `END`.
pub fn status<R: Wait, H: Health>(
    rt: &R,
    alloc: Global,
    health: &mut H,
    addresses: &[String],
) -> Result<Vec<u8>, NoMemory>
    requires { H.servers health.old ≡ length addresses.now }
    ensures ok { IfOk result (λ text. IsStatus H.steps (map string_bytes addresses.now)
        health.old (health.new, text.items)) }
    ensures cut { OnErr result (LooksSome H.steps (map string_bytes addresses.now)
        health.old health.new) }
    ensures servers { H.servers health.new ≡ H.servers health.old }
{
    let mut text = Vec::new(alloc);
    append_status(rt, health, addresses, &mut text)?;
    Ok(text)
}

/// Puts the same text at the end of a buffer.
pub(crate) fn append_status<R: Wait, H: Health>(
    rt: &R,
    health: &mut H,
    addresses: &[String],
    out: &mut Vec<u8>,
) -> Result<(), NoMemory>
    requires { H.servers health.old ≡ length addresses.now }
    ensures ok { OnOk result (IsStatusAfter H.steps (map string_bytes addresses.now)
        (health.old, out.old.items) (health.new, out.new.items)) }
    ensures err { OnErr result (Extends out.old.items out.new.items) }
    ensures cut { OnErr result (LooksSome H.steps (map string_bytes addresses.now)
        health.old health.new) }
    ensures servers { H.servers health.new ≡ H.servers health.old }
{
    for (server, address) in addresses.iter().enumerate() {
        let look = health.look_up(rt, server);
        append_line(address.as_bytes(), mark_of(&look), out)?;
    }
    append(out, &[b"END\r\n"])
}

/// Puts the line of one server at the end.
fn append_line(address: &[u8], mark: Mark, out: &mut Vec<u8>) -> Result<(), NoMemory>
    ensures ok { OnOk result (out.new.items ≡ out.old.items ++ mark_line address.now mark) }
    ensures err { OnErr result (Extends out.old.items out.new.items) }
{
    append(out, &[b"STAT ", address, b" "])?;
    append_mark(out, mark)?;
    append(out, &[b"\r\n"])
}

/// The mark that a look-up found.
fn mark_of(look: &Look) -> Mark
    ensures { result ≡ mark_of look.now }
{
    match look {
        Look::Up(count, _) => Mark::Up(*count),
        Look::Marked(mark) => *mark,
    }
}
