//! Names and numbers as text, appended to a buffer. Where memory runs out, the buffer may hold a
//! part of a text.
ghost use Rattle.std.specs.Prelude.{◌≡◌, ◌++◌, IfOk, OnOk, string_bytes};
ghost use Rattle.json.specs.Print.{quoted};
ghost use Rattle.tko_explain.specs.Printing.{named_line, numbers_text};

use serde_json::Value;
use std::alloc::Global;
use tko_bytes::NoMemory;
use tko_model::append_number;

/// A name, quoted as JSON quotes a text.
pub(crate) fn quoted(alloc: Global, name: &str) -> Result<String, NoMemory>
    ensures { IfOk result (λ text. string_bytes text ≡ quoted name.now) }
{
    let value = Value::String(String::from_str(alloc, name)?);
    Ok(value.to_string(alloc)?)
}

/// Appends a quoted name between other texts.
pub(crate) fn append_around(
    alloc: Global,
    out: &mut Vec<u8>,
    before: &[u8],
    name: &str,
    place: &[u8],
    end: &[u8],
) -> Result<(), NoMemory>
    ensures { OnOk result (out.new.items
        ≡ out.old.items ++ (before.now ++ quoted name.now ++ place.now ++ end.now)) }
{
    out.extend_from_slice(before)?;
    out.extend_from_slice(quoted(alloc, name)?.as_bytes())?;
    out.extend_from_slice(place)?;
    out.extend_from_slice(end)?;
    Ok(())
}

/// Appends a line of a word, a name and numbers.
pub(crate) fn append_named(
    alloc: Global,
    out: &mut Vec<u8>,
    word: &str,
    name: &str,
    numbers: &[usize],
) -> Result<(), NoMemory>
    ensures { OnOk result
        (out.new.items ≡ out.old.items ++ named_line word.now name.now numbers.now) }
{
    out.extend_from_slice(word.as_bytes())?;
    out.extend_from_slice(quoted(alloc, name)?.as_bytes())?;
    append_numbers(out, numbers)?;
    out.extend_from_slice(b"\n")?;
    Ok(())
}

fn append_numbers(out: &mut Vec<u8>, numbers: &[usize]) -> Result<(), NoMemory>
    ensures { OnOk result (out.new.items ≡ out.old.items ++ numbers_text numbers.now) }
{
    for number in numbers {
        append_number(out, b" ", *number as u64)?;
    }
    Ok(())
}
