//! The next item of each state.
ghost use Rattle.std.specs.Prelude.{◌≡◌, ◌+◌, ◌≤◌, [], Some, length, take, IfOk, OnErr};
ghost use Rattle.tko_bytes.specs.Lines.{content};
ghost use Rattle.tko_text.specs.Limits.{data_limit};
ghost use Rattle.tko_text.specs.Lines.{IsBeyond, IsEndedAt};
ghost use Rattle.tko_text.specs.States.{HasData, IsDataState, IsHeaderOf, IsPendingAfter, IsState, Steps, at, reading_of, whole_request};

use crate::buffer::Buffer;
use crate::data::{DataEnd, END_LEN, data_end};
use crate::line::{Header, LINE_LIMIT, ParsedLine, read_line};
use crate::pending::{Pending, request_with};
use crate::state::{ReaderState, skip, skip_line};
use crate::{Data, Item, NoMemory, TextFault};
use std::alloc::Global;
use std::mem::replace;
use tko_bytes::content;

/// The next item where a line is awaited.
pub(crate) fn next_line(
    alloc: Global,
    state: &mut ReaderState,
    buffer: &mut Buffer,
) -> Result<Option<Item>, NoMemory>
    requires { state.old ≡ ReaderState.Line }
    ensures is { IfOk result (λ found. IsState state.new buffer.new) }
    ensures ok { IfOk result (λ found.
        Steps (at buffer.old) found (reading_of state.new buffer.new)) }
    ensures err { OnErr result ((state.new ≡ state.old) × (buffer.new ≡ buffer.old)) }
{
    match buffer.line_end() {
        Some(len) if len <= LINE_LIMIT => read(alloc, state, buffer, len),
        Some(_) => Ok(Some(fail(state, buffer))),
        None if buffer.len() > LINE_LIMIT => Ok(Some(fail(state, buffer))),
        None => {
            buffer.compact();
            Ok(None)
        }
    }
}

/// The item of the line that has `len` bytes before its LF.
fn read(
    alloc: Global,
    state: &mut ReaderState,
    buffer: &mut Buffer,
    len: usize,
) -> Result<Option<Item>, NoMemory>
    requires line { IsEndedAt buffer.old len }
    requires awaits { state.old ≡ ReaderState.Line }
    ensures is { IfOk result (λ found. IsState state.new buffer.new) }
    ensures ok { IfOk result (λ found.
        Steps (at buffer.old) found (reading_of state.new buffer.new)) }
    ensures err { OnErr result ((state.new ≡ state.old) × (buffer.new ≡ buffer.old)) }
{
    match read_line(alloc, content(buffer.front(len)))? {
        ParsedLine::Asks(request) => {
            buffer.consume(len + 1);
            Ok(Some(Item::Request(request)))
        }
        ParsedLine::Refused(fault, None) => {
            buffer.consume(len + 1);
            Ok(Some(Item::Fault(fault)))
        }
        ParsedLine::Refused(fault, Some(size)) => {
            buffer.consume(len + 1);
            *state = skip(buffer, u128::from(size) + END_LEN as u128);
            Ok(Some(Item::Fault(fault)))
        }
        ParsedLine::AwaitsData(header) => read_data(alloc, state, buffer, len, header),
    }
}

/// The item of a header, whose line has `len` bytes before its LF, and its data.
fn read_data(
    alloc: Global,
    state: &mut ReaderState,
    buffer: &mut Buffer,
    len: usize,
    header: Header,
) -> Result<Option<Item>, NoMemory>
    requires line { IsEndedAt buffer.old len }
    requires awaits { state.old ≡ ReaderState.Line }
    requires header { IsHeaderOf (content (take len buffer.old)) header }
    ensures is { IfOk result (λ found. IsState state.new buffer.new) }
    ensures ok { IfOk result (λ found.
        Steps (at buffer.old) found (reading_of state.new buffer.new)) }
    ensures err { OnErr result ((state.new ≡ state.old) × (buffer.new ≡ buffer.old)) }
{
    let bytes = buffer.after(len + 1);
    match data_end(bytes, header.size) {
        DataEnd::Open => {
            *state = ReaderState::Data(pending_of(alloc, buffer, len + 1, header)?);
            Ok(None)
        }
        DataEnd::Whole => {
            let data = Data::new(Vec::from_slice(alloc, &bytes[..header.size])?);
            buffer.consume(len + 1 + header.size + END_LEN);
            Ok(Some(Item::Request(request_with(header, data))))
        }
        DataEnd::WrongLine(count) => {
            buffer.consume(len + 1 + count);
            Ok(Some(Item::Fault(TextFault::BadChunk)))
        }
        DataEnd::Wrong(count) => {
            buffer.consume(len + 1 + count);
            *state = skip_line(buffer);
            Ok(Some(Item::Fault(TextFault::BadChunk)))
        }
    }
}

/// A header with its line, which has `len` bytes, and all that follows the line. The data get room
/// for all of them at once, so that no later piece moves them.
fn pending_of(
    alloc: Global,
    buffer: &mut Buffer,
    len: usize,
    header: Header,
) -> Result<Pending, NoMemory>
    requires line { len ≤ length buffer.old }
    requires size { header.size ≤ data_limit }
    ensures pending { IfOk result (IsPendingAfter header len buffer.old) }
    ensures empty { IfOk result (λ pending. buffer.new ≡ []) }
    ensures err { OnErr result (buffer.new ≡ buffer.old) }
{
    let line = Vec::from_slice(alloc, buffer.front(len))?;
    let mut data = Vec::with_capacity(alloc, header.size + END_LEN)?;
    data.extend_from_slice(buffer.after(len))?;
    let all = buffer.len();
    buffer.consume(all);
    buffer.compact();
    Ok(Pending { header, line, data })
}

/// The next item where data are awaited.
pub(crate) fn next_data(
    state: &mut ReaderState,
    buffer: &mut Buffer,
) -> Result<Option<Item>, NoMemory>
    requires is { IsState state.old buffer.old }
    requires awaits { IsDataState state.old }
    ensures is { IfOk result (λ found. IsState state.new buffer.new) }
    ensures ok { IfOk result (λ found.
        Steps (reading_of state.old buffer.old) found (reading_of state.new buffer.new)) }
    ensures err { OnErr result ((state.new ≡ state.old) × (buffer.new ≡ buffer.old)) }
{
    let ReaderState::Data(pending) = state else {
        return Ok(None);
    };
    match data_end(&pending.data, pending.header.size) {
        DataEnd::Open => Ok(None),
        DataEnd::Whole => {
            buffer.push(&pending.data[pending.header.size + END_LEN..])?;
            Ok(request_of(replace(state, ReaderState::Line)))
        }
        DataEnd::WrongLine(count) => {
            buffer.push(&pending.data[count..])?;
            *state = ReaderState::Line;
            Ok(Some(Item::Fault(TextFault::BadChunk)))
        }
        DataEnd::Wrong(count) => {
            buffer.push(&pending.data[count..])?;
            *state = skip_line(buffer);
            Ok(Some(Item::Fault(TextFault::BadChunk)))
        }
    }
}

/// The request of a header and the first of the bytes that follow it.
fn request_of(state: ReaderState) -> Option<Item>
    requires { HasData state }
    ensures { result ≡ whole_request state }
{
    let ReaderState::Data(pending) = state else {
        return None;
    };
    let Pending {
        header,
        line: _,
        mut data,
    } = pending;
    data.truncate(header.size);
    Some(Item::Request(request_with(header, Data::new(data))))
}

/// The fault of a line past its limit, after which nothing is read.
fn fail(state: &mut ReaderState, buffer: &mut Buffer) -> Item
    requires { IsBeyond buffer.old }
    ensures is { IsState state.new buffer.new }
    ensures steps { Steps (at buffer.old) (Some result) (reading_of state.new buffer.new) }
{
    let len = buffer.len();
    buffer.consume(len);
    buffer.compact();
    *state = ReaderState::Never;
    Item::Fault(TextFault::LineTooLong)
}
