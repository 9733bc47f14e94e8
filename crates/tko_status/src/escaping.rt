//! Text between the tags of HTML, and in its attributes.
ghost use Rattle.std.specs.Prelude.{◌≡◌, ◌++◌, OnOk};
ghost use Rattle.tko_status.specs.Escaping.{entity_of, escaped};

use tko_bytes::{NoMemory, append};

/// Appends a text so that a browser shows it as it is.
pub(crate) fn add_escaped(out: &mut Vec<u8>, text: &str) -> Result<(), NoMemory>
    ensures { OnOk result (out.new.items ≡ out.old.items ++ escaped text.now) }
{
    for byte in text.as_bytes() {
        add_entity(out, *byte)?;
    }
    Ok(())
}

/// Appends a byte, or the entity that stands for it.
fn add_entity(out: &mut Vec<u8>, byte: u8) -> Result<(), NoMemory>
    ensures { OnOk result (out.new.items ≡ out.old.items ++ entity_of byte) }
{
    match byte {
        b'&' => append(out, &[b"&amp;"]),
        b'<' => append(out, &[b"&lt;"]),
        b'>' => append(out, &[b"&gt;"]),
        b'"' => append(out, &[b"&quot;"]),
        b'\'' => append(out, &[b"&#39;"]),
        _ => append(out, &[&[byte]]),
    }
}
