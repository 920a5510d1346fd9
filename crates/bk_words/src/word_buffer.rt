//! A word of a text, in an array of 16 bytes.
ghost use Rattle.std.specs.Prelude.{◌≡◌, ◌+◌, ◌≤◌, ◌<◌, [], ◌∷◌, ◌++◌, length};

use std::marker::Model;

/// The most bytes that are held. No item has more.
pub const SIZE: usize = 16;

/// Some bytes, at most 16, which contracts see as their list.
#[derive(Drop)]
pub struct WordBuffer {
    bytes: [u8; SIZE],
    len: usize,
}

impl Model for WordBuffer {
    ghost use Rattle.std.specs.Prelude.{ℕ, List, ◌≤◌, take};
    ghost use Rattle.bk_words.specs.declared.word_buffer.TheConstants.{SIZE};

    ghost Value = { List ℕ };

    ghost view = { λ word. take word.len word.bytes };

    ghost invariant = { λ word. word.len ≤ SIZE };
}

impl WordBuffer {
    /// No bytes.
    pub fn new() -> WordBuffer
        ensures { result ≡ [] }
    {
        WordBuffer {
            bytes: [0; SIZE],
            len: 0,
        }
    }

    /// The bytes.
    pub fn as_bytes(&self) -> &[u8]
        ensures value { result.now ≡ self.now }
        ensures short { length result.now ≤ SIZE }
    {
        &self.bytes[..self.len]
    }

    /// How many there are.
    pub fn len(&self) -> usize
        ensures value { result ≡ length self.now }
        ensures short { result ≤ SIZE }
    {
        self.len
    }

    /// Adds a byte at the end.
    pub fn push(&mut self, byte: u8)
        requires { length self.old < SIZE }
        ensures { self.new ≡ self.old ++ byte ∷ [] }
    {
        self.bytes[self.len] = byte;
        self.len += 1;
    }

    /// Adds bytes at the end.
    pub fn extend(&mut self, bytes: &[u8])
        requires { length self.old + length bytes.now ≤ SIZE }
        ensures { self.new ≡ self.old ++ bytes.now }
    {
        let end = self.len + bytes.len();
        self.bytes[self.len..end].copy_from_slice(bytes);
        self.len = end;
    }

    /// No bytes again.
    pub fn clear(&mut self)
        ensures { self.new ≡ [] }
    {
        self.len = 0;
    }
}
