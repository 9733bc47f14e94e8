//! Whole texts from an inlet.
ghost use Rattle.std.specs.Prelude.{◌≡◌, ◌<◌, ◌≤◌, ◌+◌, ◌⊎◌, Ok, IfOk, IfErr, OnOk, length};
ghost use Rattle.tko_commands.specs.Readings.{HasReadFault, IsLongerBy, IsText};

use std::alloc::{AllocError, Global};
use tko_io::{Inlet, IoRuntime, piece_buffer, wait_for_piece};

/// Why a text can't be read.
#[derive(Clone, Copy, Debug, PartialEq, Eq)]
pub(crate) enum InputFault {
    /// The inlet failed.
    Input,
    Memory,
}

impl From<AllocError> for InputFault {
    ghost use Rattle.std.specs.Prelude.{◌≡◌};
    ghost use Rattle.tko_commands.specs.declared.reading.InputFault.TheVariants.{Memory};

    ghost from_gives = { λ _ fault. fault ≡ Memory };

    fn from(_: AllocError) -> InputFault {
        InputFault::Memory
    }
}

/// Reads a text to its end, but at most `most` bytes of it.
pub(crate) fn read_text<R: IoRuntime, I: Inlet>(
    rt: &R,
    alloc: Global,
    input: &mut I,
    most: usize,
) -> Result<Vec<u8>, InputFault>
    ensures ok { IfOk result (λ text.
        IsText I.gives I.is_ended most input.old input.new text.items) }
    ensures err { IfErr result (HasReadFault I.failures input.old input.new) }
{
    let mut buffer = piece_buffer(alloc)?;
    let mut text = Vec::new(alloc);
    while text.len() < most {
        let room = (most - text.len()).min(buffer.len());
        if append_piece(rt, input, &mut buffer[..room], &mut text)? == 0 {
            return Ok(text);
        }
    }
    Ok(text)
}

/// Appends the next piece to a text, and returns how many bytes it has.
fn append_piece<R: IoRuntime, I: Inlet>(
    rt: &R,
    input: &mut I,
    buffer: &mut [u8],
    text: &mut Vec<u8>,
) -> Result<usize, InputFault>
    requires { 0 < length buffer.old }
    ensures gives { (start : I) → I.gives start text.old.items input.old
        → OnOk result (I.gives start text.new.items input.new) }
    ensures longer { IfOk result (λ count.
        IsLongerBy count (length buffer.old) text.old.items text.new.items) }
    ensures ended { result ≡ Ok 0 → I.is_ended input.new }
    ensures calm { OnOk result (I.failures input.new ≡ I.failures input.old) }
    ensures err { IfErr result (HasReadFault I.failures input.old input.new) }
{
    let Some(count) = wait_for_piece(rt, input, buffer) else {
        return Err(InputFault::Input);
    };
    text.extend_from_slice(&buffer[..count])?;
    Ok(count)
}
