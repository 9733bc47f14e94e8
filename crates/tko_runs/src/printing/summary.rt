//! The summary at the end of a run's text: its calls, and the words as it leaves them.
ghost use Rattle.std.specs.Prelude.{◌≡◌, ◌++◌, [], ◌∷◌, OnOk};
ghost use Rattle.tko_runs.specs.Prints.{line, order_text, point_text, run_servers_text, soft_words_text};

use crate::printing::words::{append_group, append_slots, append_state};
use crate::{Point, Version};
use tko_bytes::NoMemory;
use tko_model::{ServerState, append_number};
use tko_steps::Slots;

pub(crate) fn append_order(out: &mut Vec<u8>, points: &[Point]) -> Result<(), NoMemory>
    ensures { OnOk result (out.new.items ≡ out.old.items ++ order_text 1 points.now) }
{
    for (place, point) in points.iter().enumerate() {
        append_call(out, place + 1, *point)?;
    }
    Ok(())
}

fn append_call(out: &mut Vec<u8>, number: usize, point: Point) -> Result<(), NoMemory>
    ensures { OnOk result (out.new.items ≡ out.old.items ++ order_text number (point ∷ [])) }
{
    append_number(out, b"call ", number as u64)?;
    append_point(out, point)
}

fn append_point(out: &mut Vec<u8>, point: Point) -> Result<(), NoMemory>
    ensures { OnOk result (out.new.items ≡ out.old.items ++ line (point_text point)) }
{
    match point {
        Point::At(number) => {
            append_number(out, b" at ", number)?;
            Ok(out.extend_from_slice(b"\n")?)
        }
        Point::Contended => Ok(out.extend_from_slice(b" contended\n")?),
        Point::Open => Ok(out.extend_from_slice(b" open\n")?),
    }
}

pub(crate) fn append_servers(out: &mut Vec<u8>, servers: &[ServerState]) -> Result<(), NoMemory>
    ensures { OnOk result (out.new.items ≡ out.old.items ++ run_servers_text 0 servers.now) }
{
    for (place, server) in servers.iter().enumerate() {
        append_server(out, place, *server)?;
    }
    Ok(())
}

fn append_server(out: &mut Vec<u8>, place: usize, server: ServerState) -> Result<(), NoMemory>
    ensures { OnOk result (out.new.items ≡ out.old.items ++ run_servers_text place (server ∷ [])) }
{
    append_number(out, b"server ", place as u64)?;
    out.extend_from_slice(b" ")?;
    append_state(out, server)?;
    Ok(out.extend_from_slice(b"\n")?)
}

/// A line for each group's soft word.
pub(crate) fn append_soft_words(
    out: &mut Vec<u8>,
    version: Version,
    slots: &[Slots],
) -> Result<(), NoMemory>
    ensures { OnOk result (out.new.items ≡ out.old.items ++ soft_words_text version 0 slots.now) }
{
    for (group, counts) in slots.iter().enumerate() {
        append_soft_word(out, version, group, *counts)?;
    }
    Ok(())
}

fn append_soft_word(
    out: &mut Vec<u8>,
    version: Version,
    group: usize,
    counts: Slots,
) -> Result<(), NoMemory>
    ensures { OnOk result (out.new.items ≡
        out.old.items ++ soft_words_text version group (counts ∷ [])) }
{
    append_group(out, version, group)?;
    out.extend_from_slice(b" ")?;
    append_slots(out, counts)?;
    Ok(out.extend_from_slice(b"\n")?)
}
