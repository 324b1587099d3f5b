//! A text that grows.

ghost use Rattle.std.specs.Prelude.{◌≡◌, ◌++◌, [], decimal, OnOk};
ghost use Rattle.std.specs.Fmt.{signed_decimal};

use crate::NoMemory;
use itoa::Buffer;
use std::alloc::Global;
use std::marker::Model;

/// Bytes that grow at their end. Contracts see them as their list.
#[derive(Drop)]
pub(crate) struct Text {
    bytes: Vec<u8>,
}

impl Model for Text {
    ghost use Rattle.std.specs.Prelude.{List, ℕ};

    ghost Value = { List ℕ };

    ghost view = { λ t. t.bytes.items };
}

impl Text {
    /// The empty text. It takes no memory.
    pub(crate) fn new(alloc: Global) -> Text
        ensures { result ≡ [] }
    {
        Text {
            bytes: Vec::new(alloc),
        }
    }

    /// The bytes.
    pub(crate) fn into_bytes(self) -> Vec<u8>
        ensures { result.items ≡ self }
    {
        let Text { bytes } = self;
        bytes
    }

    pub(crate) fn put(&mut self, piece: &[u8]) -> Result<(), NoMemory>
        ensures { OnOk result (self.new ≡ self.old ++ piece.now) }
    {
        Ok(self.bytes.extend_from_slice(piece)?)
    }

    pub(crate) fn natural(&mut self, value: u32) -> Result<(), NoMemory>
        ensures { OnOk result (self.new ≡ self.old ++ decimal value) }
    {
        let mut buffer = Buffer::new();
        self.put(buffer.format(value).as_bytes())
    }

    pub(crate) fn index(&mut self, value: usize) -> Result<(), NoMemory>
        ensures { OnOk result (self.new ≡ self.old ++ decimal value) }
    {
        let mut buffer = Buffer::new();
        self.put(buffer.format(value).as_bytes())
    }

    pub(crate) fn integer(&mut self, value: i128) -> Result<(), NoMemory>
        ensures { OnOk result (self.new ≡ self.old ++ signed_decimal value) }
    {
        let mut buffer = Buffer::new();
        self.put(buffer.format(value).as_bytes())
    }
}
