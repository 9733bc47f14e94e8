//! The words of operations, marks and replies, appended to a buffer. Where memory runs out the
//! buffer stays as it was.
ghost use Rattle.std.specs.Prelude.{◌≡◌, ◌++◌, decimal, OnOk, OnErr};
ghost use Rattle.tko_model.specs.Texts.{mark_text, op_text, reply_text};

use crate::{Mark, Op, Reply};
use itoa::Buffer;
use tko_bytes::{NoMemory, append};

/// The word of an operation.
pub fn op_word(op: Op) -> &'static [u8]
    ensures { result.now ≡ op_text op }
{
    match op {
        Op::LookUp => b"look",
        Op::SoftFailure => b"soft",
        Op::HardFailure => b"hard",
        Op::Success => b"success",
        Op::Release => b"release",
    }
}

/// Appends a word and then a number.
pub fn append_number(out: &mut Vec<u8>, word: &[u8], number: u64) -> Result<(), NoMemory>
    ensures ok { OnOk result (out.new.items ≡ out.old.items ++ (word.now ++ decimal number)) }
    ensures err { OnErr result (out.new.items ≡ out.old.items) }
{
    let mut digits = Buffer::new();
    append(out, &[word, digits.format(number).as_bytes()])
}

/// Appends a mark, as `up:0` or `soft:2`.
pub fn append_mark(out: &mut Vec<u8>, mark: Mark) -> Result<(), NoMemory>
    ensures ok { OnOk result (out.new.items ≡ out.old.items ++ mark_text mark) }
    ensures err { OnErr result (out.new.items ≡ out.old.items) }
{
    append_marked(out, b"", mark)
}

/// Appends a word and then a mark.
fn append_marked(out: &mut Vec<u8>, word: &[u8], mark: Mark) -> Result<(), NoMemory>
    ensures ok { OnOk result (out.new.items ≡ out.old.items ++ (word.now ++ mark_text mark)) }
    ensures err { OnErr result (out.new.items ≡ out.old.items) }
{
    match mark {
        Mark::Up(count) => append_parts(out, word, b"up:", count),
        Mark::Soft(thread) => append_parts(out, word, b"soft:", thread),
        Mark::Hard(thread) => append_parts(out, word, b"hard:", thread),
    }
}

/// Appends two words and then a number.
fn append_parts(out: &mut Vec<u8>, word: &[u8], kind: &[u8], number: u32) -> Result<(), NoMemory>
    ensures ok { OnOk result
        (out.new.items ≡ out.old.items ++ (word.now ++ (kind.now ++ decimal number))) }
    ensures err { OnErr result (out.new.items ≡ out.old.items) }
{
    let mut digits = Buffer::new();
    append(out, &[word, kind, digits.format(number).as_bytes()])
}

/// Appends a reply, as `took-soft` or `already:hard:1`.
pub fn append_reply(out: &mut Vec<u8>, reply: Reply) -> Result<(), NoMemory>
    ensures ok { OnOk result (out.new.items ≡ out.old.items ++ reply_text reply) }
    ensures err { OnErr result (out.new.items ≡ out.old.items) }
{
    match reply {
        Reply::Up(count) => append_marked(out, b"found:", Mark::Up(count)),
        Reply::Marked(mark) => append_marked(out, b"found:", mark),
        Reply::Counted(count) => append_number(out, b"counted:", u64::from(count)),
        Reply::TookSoft => append(out, &[b"took-soft"]),
        Reply::Full => append(out, &[b"full"]),
        Reply::Already(mark) => append_marked(out, b"already:", mark),
        Reply::Worn => append(out, &[b"worn"]),
        Reply::Contended => append(out, &[b"contended"]),
        Reply::TookHard => append(out, &[b"took-hard"]),
        Reply::Hardened => append(out, &[b"hardened"]),
        Reply::Clean => append(out, &[b"clean"]),
        Reply::Reset(count) => append_number(out, b"reset:", u64::from(count)),
        Reply::Unmarked(mark) => append_marked(out, b"unmarked:", mark),
        Reply::Released(mark) => append_marked(out, b"released:", mark),
        Reply::NotMine(mark) => append_marked(out, b"not-mine:", mark),
    }
}
