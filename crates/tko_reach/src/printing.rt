//! What is printed of servers that were asked for their versions.
ghost use Rattle.std.specs.Prelude.{◌≡◌, ◌++◌, OnOk};
ghost use Rattle.tko_reach.specs.Printing.{count_reached, reach_count, reach_counts, reach_text, reached_line, reaches_text, reaches_totals};

use crate::reach::{Reach, ReachKind, Reached};
use crate::shown::{append_shown, head_line};
use tko_bytes::NoMemory;
use tko_model::append_number;

/// Appends a line for each server, and the line of totals.
pub fn append_servers(out: &mut Vec<u8>, servers: &[Reached]) -> Result<(), NoMemory>
    ensures { OnOk result (out.new.items ≡ out.old.items ++ reaches_text servers.now) }
{
    for server in servers {
        append_server(out, server)?;
    }
    append_totals(out, servers)
}

fn append_server(out: &mut Vec<u8>, server: &Reached) -> Result<(), NoMemory>
    ensures { OnOk result (out.new.items ≡ out.old.items ++ reached_line server.now) }
{
    append_number(out, b"server ", server.number as u64)?;
    out.extend_from_slice(b" ")?;
    out.extend_from_slice(server.address.as_bytes())?;
    append_reach(out, &server.reach)?;
    out.extend_from_slice(b"\n")?;
    Ok(())
}

fn append_reach(out: &mut Vec<u8>, reach: &Reach) -> Result<(), NoMemory>
    ensures { OnOk result (out.new.items ≡ out.old.items ++ reach_text reach.now) }
{
    match reach {
        Reach::Version(text) => {
            out.extend_from_slice(b" version ")?;
            append_shown(out, text.as_bytes())?;
        }
        Reach::Answer(bytes) => {
            out.extend_from_slice(b" answer ")?;
            append_shown(out, head_line(bytes))?;
        }
        Reach::Refused => out.extend_from_slice(b" refused")?,
        Reach::Timeout => out.extend_from_slice(b" timeout")?,
        Reach::Broken => out.extend_from_slice(b" broken")?,
    }
    Ok(())
}

/// Appends how many servers there are, and of how many of them each of these came.
fn append_totals(out: &mut Vec<u8>, servers: &[Reached]) -> Result<(), NoMemory>
    ensures { OnOk result (out.new.items ≡ out.old.items ++ reaches_totals servers.now) }
{
    append_number(out, b"total server ", servers.len() as u64)?;
    append_counts(out, servers, &ReachKind::ALL)?;
    out.extend_from_slice(b"\n")?;
    Ok(())
}

fn append_counts(
    out: &mut Vec<u8>,
    servers: &[Reached],
    kinds: &[ReachKind],
) -> Result<(), NoMemory>
    ensures { OnOk result (out.new.items ≡ out.old.items ++ reach_counts servers.now kinds.now) }
{
    for kind in kinds {
        append_count(out, servers, *kind)?;
    }
    Ok(())
}

fn append_count(out: &mut Vec<u8>, servers: &[Reached], kind: ReachKind) -> Result<(), NoMemory>
    ensures { OnOk result (out.new.items ≡ out.old.items ++ reach_count servers.now kind) }
{
    out.extend_from_slice(b" ")?;
    out.extend_from_slice(kind.word().as_bytes())?;
    append_number(out, b" ", count_reached(servers, kind))?;
    Ok(())
}

/// Of how many servers this came.
fn count_reached(servers: &[Reached], kind: ReachKind) -> u64
    ensures { result ≡ count_reached kind servers.now }
{
    servers
        .iter()
        .filter(|server| server.reach.is(kind))
        .count() as u64
}
