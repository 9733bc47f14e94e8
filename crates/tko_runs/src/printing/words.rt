//! The text of a word, and of the group that a soft word counts.
ghost use Rattle.std.specs.Prelude.{◌≡◌, ◌++◌, OnOk};
ghost use Rattle.tko_runs.specs.Prints.{group_text, slots_text, state_text, word_text};

use crate::Version;
use tko_bytes::NoMemory;
use tko_model::{ServerState, append_mark, append_number};
use tko_steps::{Slots, Word};

pub(crate) fn append_word(out: &mut Vec<u8>, word: Word) -> Result<(), NoMemory>
    ensures { OnOk result (out.new.items ≡ out.old.items ++ word_text word) }
{
    match word {
        Word::Server(server) => append_state(out, server),
        Word::Soft(slots) => append_slots(out, slots),
        Word::Enrolled(count) => append_number(out, b"enrolled:", count as u64),
    }
}

/// `<mark>@<stamp>`
pub(crate) fn append_state(out: &mut Vec<u8>, server: ServerState) -> Result<(), NoMemory>
    ensures { OnOk result (out.new.items ≡ out.old.items ++ state_text server) }
{
    append_mark(out, server.mark)?;
    append_number(out, b"@", server.stamp)
}

/// `firm:<f>,held:<h>`
pub(crate) fn append_slots(out: &mut Vec<u8>, slots: Slots) -> Result<(), NoMemory>
    ensures { OnOk result (out.new.items ≡ out.old.items ++ slots_text slots) }
{
    append_number(out, b"firm:", slots.firm as u64)?;
    append_number(out, b",held:", slots.held as u64)
}

/// `soft`, and from the second version on the number of the group, `soft:<g>`.
pub(crate) fn append_group(
    out: &mut Vec<u8>,
    version: Version,
    group: usize,
) -> Result<(), NoMemory>
    ensures { OnOk result (out.new.items ≡ out.old.items ++ group_text version group) }
{
    match version {
        Version::One => Ok(out.extend_from_slice(b"soft")?),
        Version::Two | Version::Three => append_number(out, b"soft:", group as u64),
    }
}
