//! A text held in place, of at most a fixed number of bytes.

ghost use Rattle.std.specs.Prelude.{◌≡◌, ◌+◌, ◌<◌, ◌≤◌, [], ◌∷◌, ◌++◌, length};

use std::marker::Model;

/// A text of up to 32 bytes, without memory. A contract sees its bytes.
#[derive(Debug, Drop)]
pub struct ArrayText {
    bytes: [u8; 32],
    len: usize,
}

impl Model for ArrayText {
    ghost use Rattle.std.specs.Prelude.{List, ℕ, ◌≤◌, take};

    ghost Value = { List ℕ };

    ghost view = { λ t. take t.len t.bytes };

    ghost invariant = { λ t. t.len ≤ 32 };
}

impl ArrayText {
    /// The empty text.
    pub fn new() -> ArrayText
        ensures { result ≡ [] }
    {
        ArrayText {
            bytes: [0; 32],
            len: 0,
        }
    }

    /// The text's bytes, at most 32.
    pub fn as_bytes(&self) -> &[u8]
        ensures value { result.now ≡ self.now }
        ensures short { length self.now ≤ 32 }
    {
        &self.bytes[..self.len]
    }

    /// Empties the text.
    pub(crate) fn clear(&mut self)
        ensures { self.new ≡ [] }
    {
        self.len = 0;
    }

    /// Appends a byte.
    pub(crate) fn push(&mut self, byte: u8)
        requires room { length self.old < 32 }
        ensures { self.new ≡ self.old ++ byte ∷ [] }
    {
        self.bytes[self.len] = byte;
        self.len += 1;
    }

    /// Appends bytes.
    pub(crate) fn extend(&mut self, text: &[u8])
        requires room { length self.old + length text.now ≤ 32 }
        ensures { self.new ≡ self.old ++ text.now }
    {
        for byte in text {
            self.push(*byte);
        }
    }
}
