//! A list of keys, a line each, that is read and counted.
ghost use Rattle.std.specs.Prelude.{◌≡◌, ◌<◌, ℕ, List, Ok, Some, IfErr, IfOk, OnOk, length, option_map, string_bytes};
ghost use Rattle.tko_io.specs.Pieces.{IsRead};
ghost use Rattle.tko_commands.specs.Checks.{PrintFails, list_of};
ghost use Rattle.tko_commands.specs.KeyLists.{against_of, AreKeysCounted, ArePrinted, HasCountedKeys, HasTaken, HasTakenAll, HasTakenFile, IsInputFault, IsUnreadFault, is_read, loses};

use crate::{Fault, UnreadKeys};
use std::alloc::Global;
use std::fs::{File, Files};
use std::io;
use std::io::{ErrorKind, Read};
use std::sync::Wait;
use tko_explain::KeyCounts;
use tko_io::{Inlet, IoRuntime, piece_buffer, wait_for_piece};
use tko_options::CheckOptions;

/// The path that names standard input.
const INPUT: &str = "-";

/// What is counted of the list of keys, a line each; nothing where there is no list.
pub(crate) fn counted_keys<R: IoRuntime + Files, I: Inlet>(
    rt: &R,
    alloc: Global,
    options: &CheckOptions,
    input: &mut I,
) -> Result<Vec<u8>, Fault>
    ensures ok { IfOk result (λ text. AreKeysCounted I.Inlet R.File.remaining options.now
        (list_of options.now) input.old input.new text.items) }
    ensures err { IfErr result
        (PrintFails I.failures options.now (list_of options.now) input.old input.new) }
{
    match &options.keys_from {
        Some(path) => printed_keys(rt, alloc, options, path.as_str(), input),
        None => Ok(Vec::new(alloc)),
    }
}

/// The text of the configuration that the keys are compared with.
pub(crate) fn against_of(options: &CheckOptions) -> Option<&str>
    ensures { option_map (λ text. text.now) result ≡ against_of options.now }
{
    match &options.against {
        Some(json) => Some(json.as_str()),
        None => None,
    }
}

/// What is counted of the list of keys at this path, over the configurations of the options.
fn printed_keys<R: IoRuntime + Files, I: Inlet>(
    rt: &R,
    alloc: Global,
    options: &CheckOptions,
    path: &str,
    input: &mut I,
) -> Result<Vec<u8>, Fault>
    ensures ok { IfOk result (λ text. ArePrinted I.Inlet R.File.remaining options.now path.now
        input.old input.new text.items) }
    ensures err { IfErr result
        (PrintFails I.failures options.now (Some path.now) input.old input.new) }
{
    let mut counts = KeyCounts::of(alloc, options.config.as_str(), against_of(options))?;
    read_keys(rt, alloc, path, input, &mut counts)?;
    Ok(counts.print(alloc)?)
}

/// Counts the list of keys at this path.
fn read_keys<R: IoRuntime + Files, I: Inlet>(
    rt: &R,
    alloc: Global,
    path: &str,
    input: &mut I,
    counts: &mut KeyCounts,
) -> Result<(), Fault>
    ensures ok { OnOk result (HasCountedKeys I.Inlet R.File.remaining path.now
        input.old input.new counts.old counts.new) }
    ensures err { (options : CheckOptions) → IfErr result
        (PrintFails I.failures options (Some path.now) input.old input.new) }
{
    let mut buffer = piece_buffer(alloc)?;
    if path == INPUT {
        take_input(rt, input, &mut buffer, counts)
    } else {
        take_file(rt, alloc, path, &mut buffer, counts)
    }
}

/// Counts all that is left of standard input.
fn take_input<R: IoRuntime, I: Inlet>(
    rt: &R,
    input: &mut I,
    buffer: &mut [u8],
    counts: &mut KeyCounts,
) -> Result<(), Fault>
    requires { 0 < length buffer.old }
    ensures ok { OnOk result
        (HasTakenAll I.gives I.is_ended input.old input.new counts.old counts.new) }
    ensures err { IfErr result (IsInputFault I.failures input.old input.new) }
{
    for _ in rt.forever() {
        match take_piece(rt, input, buffer, counts) {
            Ok(0) => return Ok(()),
            Ok(_) => {}
            Err(fault) => return Err(fault),
        }
    }
    unreachable!()
}

/// Counts the next piece of standard input, and returns how many bytes it has; 0 is the end.
fn take_piece<R: IoRuntime, I: Inlet>(
    rt: &R,
    input: &mut I,
    buffer: &mut [u8],
    counts: &mut KeyCounts,
) -> Result<usize, Fault>
    requires { 0 < length buffer.old }
    ensures ok { OnOk result (HasTaken I.gives input.old input.new counts.old counts.new) }
    ensures ended { result ≡ Ok 0 → I.is_ended input.new }
    ensures calm { OnOk result (I.failures input.new ≡ I.failures input.old) }
    ensures err { IfErr result (IsInputFault I.failures input.old input.new) }
{
    let Some(count) = wait_for_piece(rt, input, buffer) else {
        return Err(Fault::Read);
    };
    counts.take(&buffer[..count])?;
    Ok(count)
}

/// Counts all of the file at this path.
fn take_file<R: Wait + Files>(
    rt: &R,
    alloc: Global,
    path: &str,
    buffer: &mut [u8],
    counts: &mut KeyCounts,
) -> Result<(), Fault>
    requires { 0 < length buffer.old }
    ensures ok { OnOk result (HasTakenFile R.File.remaining counts.old counts.new) }
    ensures err { IfErr result (IsUnreadFault path.now) }
{
    match File::open(rt, path) {
        Ok(mut file) => take_reader(rt, alloc, path, &mut file, buffer, counts),
        Err(error) => Err(unread(alloc, path, &error)),
    }
}

/// Counts all that a file has.
fn take_reader<R: Wait, F: Read>(
    rt: &R,
    alloc: Global,
    path: &str,
    file: &mut F,
    buffer: &mut [u8],
    counts: &mut KeyCounts,
) -> Result<(), Fault>
    requires { 0 < length buffer.old }
    ensures ok { OnOk result (HasTakenAll (loses F.remaining) (is_read F.remaining)
        file.old file.new counts.old counts.new) }
    ensures err { IfErr result (IsUnreadFault path.now) }
{
    for _ in rt.forever() {
        match take_part(rt, alloc, path, file, buffer, counts) {
            Ok(0) => return Ok(()),
            Ok(_) => {}
            Err(fault) => return Err(fault),
        }
    }
    unreachable!()
}

/// Counts the next part of a file, and returns how many bytes it has; 0 is the end.
fn take_part<R: Wait, F: Read>(
    rt: &R,
    alloc: Global,
    path: &str,
    file: &mut F,
    buffer: &mut [u8],
    counts: &mut KeyCounts,
) -> Result<usize, Fault>
    requires { 0 < length buffer.old }
    ensures ok { OnOk result
        (HasTaken (loses F.remaining) file.old file.new counts.old counts.new) }
    ensures ended { result ≡ Ok 0 → is_read F.remaining file.new }
    ensures err { IfErr result (IsUnreadFault path.now) }
{
    let length = read_part(rt, alloc, path, file, buffer)?;
    counts.take(&buffer[..length])?;
    Ok(length)
}

/// Reads the next part of a file. An interrupted read is made again.
fn read_part<R: Wait, F: Read>(
    rt: &R,
    alloc: Global,
    path: &str,
    file: &mut F,
    buffer: &mut [u8],
) -> Result<usize, Fault>
    requires { 0 < length buffer.old }
    ensures ok { IfOk result (λ count. IsRead (loses F.remaining) (is_read F.remaining)
        file.old count buffer.new file.new) }
    ensures err { IfErr result (IsUnreadFault path.now) }
{
    for _ in rt.forever() {
        match file.read(buffer) {
            Ok(count) => return Ok(count),
            Err(error) if error.kind() == ErrorKind::Interrupted => {}
            Err(error) => return Err(unread(alloc, path, &error)),
        }
    }
    unreachable!()
}

/// The fault of a file that cannot be read, for this error.
fn unread(alloc: Global, path: &str, error: &io::Error) -> Fault
    ensures { IsUnreadFault path.now result }
{
    match UnreadKeys::of(alloc, path, error) {
        Ok(cause) => Fault::KeysFile(cause),
        Err(_) => Fault::Memory,
    }
}
