//! Bytes of a server, as they are printed.
ghost use Rattle.std.specs.Prelude.{◌≡◌, ◌++◌, ◌<◌, OnOk, flat_map};
ghost use Rattle.tko_reach.specs.Printing.{head_line, hex_digit, is_plain, shown_byte, shown_answer};

use tko_bytes::{NoMemory, first_line};

/// The most bytes of a server's answer that are printed.
const MOST_SHOWN: usize = 80;

/// Appends the text of a server. Bytes that are not printable are printed by their hexadecimal
/// digits, and a text that is longer than 80 bytes is cut.
pub(crate) fn append_shown(out: &mut Vec<u8>, text: &[u8]) -> Result<(), NoMemory>
    ensures { OnOk result (out.new.items ≡ out.old.items ++ shown_answer text.now) }
{
    if text.len() <= MOST_SHOWN {
        return append_bytes(out, text);
    }
    let (shown, _) = text.split_at(MOST_SHOWN);
    append_bytes(out, shown)?;
    out.extend_from_slice(b"..")?;
    Ok(())
}

fn append_bytes(out: &mut Vec<u8>, bytes: &[u8]) -> Result<(), NoMemory>
    ensures { OnOk result (out.new.items ≡ out.old.items ++ flat_map shown_byte bytes.now) }
{
    for byte in bytes {
        append_byte(out, *byte)?;
    }
    Ok(())
}

fn append_byte(out: &mut Vec<u8>, byte: u8) -> Result<(), NoMemory>
    ensures { OnOk result (out.new.items ≡ out.old.items ++ shown_byte byte) }
{
    if is_plain(byte) {
        out.push(byte)?;
    } else {
        out.extend_from_slice(&[b'\\', b'x', hex_digit(byte / 16), hex_digit(byte % 16)])?;
    }
    Ok(())
}

/// Whether a byte is printed as it is.
fn is_plain(byte: u8) -> bool
    ensures { result ≡ is_plain byte }
{
    byte >= b' ' && byte <= b'~' && byte != b'\\'
}

fn hex_digit(digit: u8) -> u8
    requires { digit < 16 }
    ensures { result ≡ hex_digit digit }
{
    if digit < 10 {
        b'0' + digit
    } else {
        b'a' + (digit - 10)
    }
}

/// The first line of a text, and the empty text where there is none.
pub(crate) fn head_line(text: &[u8]) -> &[u8]
    ensures { result.now ≡ head_line text.now }
{
    if text.is_empty() {
        return text;
    }
    first_line(text).0
}
