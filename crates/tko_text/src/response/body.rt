//! What a response carries.
ghost use Rattle.std.specs.Prelude.{◌≡◌, ◌↔◌, ◌++◌, IfSome, IsTrue, OnErr, OnOk};
ghost use Rattle.tko_text.specs.ResponseLines.{IsLineText};
ghost use Rattle.tko_text.specs.Responses.{value_text};

use super::shared::shared_text;
use super::writer::append_value;
use crate::{Data, Key, NoMemory};
use bytes::Bytes;
use memchr::memchr;
use std::marker::Model;

/// What is stored under a key.
#[derive(Debug, Drop)]
pub struct Value {
    pub key: Key,
    pub flags: u32,
    pub data: Data,
    /// The cas number, where it was asked for.
    pub unique: Option<u64>,
}

impl Value {
    /// Puts the written form at the end of a buffer: the first line and the data, without the line
    /// `END` of a response.
    pub fn append_to(&self, out: &mut Vec<u8>) -> Result<(), NoMemory>
        ensures ok { OnOk result (out.new.items ≡ out.old.items ++ value_text self.now) }
        ensures err { OnErr result (out.new.items ≡ out.old.items) }
    {
        append_value(self, b"\r\n", out)
    }

    /// The written form without a copy, if the value shares the text that it was read from, and
    /// that has the written form there.
    pub fn shared_text(&self) -> Option<Bytes>
        ensures { IfSome result (λ text. text ≡ value_text self.now) }
    {
        shared_text(self, b"\r\n")
    }
}

/// The text of an error or a version: bytes without LF. Contracts see their list.
#[derive(Debug, Drop)]
pub struct Text {
    bytes: Vec<u8>,
}

impl Model for Text {
    ghost use Rattle.std.specs.Prelude.{List, ℕ};
    ghost use Rattle.tko_text.specs.ResponseLines.{IsLineText};

    ghost Value = { List ℕ };

    ghost view = { λ t. t.bytes.items };

    ghost invariant = { λ t. IsLineText t.bytes.items };
}

impl Text {
    pub fn new(bytes: Vec<u8>) -> Text
        requires { IsLineText bytes.items }
        ensures { result ≡ bytes.items }
    {
        Text { bytes }
    }

    /// Whether there is no LF.
    pub fn fits(bytes: &[u8]) -> bool
        ensures { IsTrue result ↔ IsLineText bytes.now }
    {
        memchr(b'\n', bytes).is_none()
    }

    pub fn as_bytes(&self) -> &[u8]
        ensures value { result.now ≡ self.now }
        ensures text { IsLineText self.now }
    {
        self.bytes.as_slice()
    }

    pub fn into_bytes(self) -> Vec<u8>
        ensures value { result.items ≡ self }
        ensures text { IsLineText self }
    {
        let Text { bytes } = self;
        bytes
    }
}
