//! Values as a reply has them.
ghost use Rattle.std.specs.Prelude.{◌≡◌, ◌++◌, OnOk, flat_map, option_copied};
ghost use Rattle.tko_demo.specs.Answers.{found_value, listing_text, kept_value};
ghost use Rattle.tko_text.specs.Responses.{found_text};

use crate::store::{Kept, Store};
use itoa::Buffer;
use tko_bytes::{NoMemory, append};
use tko_text::Key;

/// Whether each value has its cas number.
#[derive(Clone, Copy)]
pub(crate) enum Numbering {
    Without,
    With,
}

impl Store {
    /// Puts the values of these keys and the line `END` at the end of a buffer.
    pub(crate) fn append_listing(
        &self,
        keys: &[Key],
        numbering: Numbering,
        out: &mut Vec<u8>,
    ) -> Result<(), NoMemory>
        ensures { OnOk result
            (out.new.items ≡ out.old.items ++ listing_text self.now numbering keys.now) }
    {
        for key in keys {
            append_found(key, self.found(key), numbering, out)?;
        }
        append(out, &[b"END\r\n"])
    }
}

/// Puts the value of a key at the end of a buffer, if there is one.
fn append_found(
    key: &Key,
    found: Option<&Kept>,
    numbering: Numbering,
    out: &mut Vec<u8>,
) -> Result<(), NoMemory>
    ensures { OnOk result (out.new.items
        ≡ out.old.items ++ found_value numbering key.now (option_copied found.entry)) }
{
    match (found, numbering) {
        (None, _) => Ok(()),
        (Some(kept), Numbering::Without) => append_value(key, kept, b"", out),
        (Some(kept), Numbering::With) => {
            let alloc = *out.allocator();
            let unique = format!(in alloc; " {}", kept.unique)?;
            append_value(key, kept, unique.as_bytes(), out)
        }
    }
}

/// The same with this text after the size of the data.
fn append_value<'a>(
    key: &'a Key,
    kept: &'a Kept,
    unique: &'a [u8],
    out: &mut Vec<u8>,
) -> Result<(), NoMemory>
    ensures { OnOk result (out.new.items
        ≡ out.old.items ++ found_text (kept_value key.now kept.now) unique.now) }
{
    let (mut flags, mut size) = (Buffer::new(), Buffer::new());
    let bytes = kept.data.as_bytes();
    let pieces = [
        b"VALUE ",
        key.as_bytes(),
        b" ",
        flags.format(kept.flags).as_bytes(),
        b" ",
        size.format(bytes.len()).as_bytes(),
        unique,
        b"\r\n",
        bytes,
        b"\r\n",
    ];
    append(out, &pieces)
}
