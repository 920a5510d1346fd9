//! A text that is written piece by piece.

use std::alloc::{AllocError, Global};

/// A text. Where memory ends a piece is left out, and the text is never given as a whole.
#[derive(Drop)]
pub struct Text {
    bytes: Vec<u8>,
    is_whole: bool,
}

impl Text {
    /// An empty text.
    pub fn new(alloc: Global) -> Text {
        Text {
            bytes: Vec::new(alloc),
            is_whole: true,
        }
    }

    /// The bytes so far.
    pub fn bytes(&self) -> &[u8] {
        &self.bytes
    }

    /// Adds a piece.
    pub fn add(&mut self, piece: &[u8]) {
        if self.bytes.extend_from_slice(piece).is_err() {
            self.is_whole = false;
        }
    }

    /// Takes away what is behind so many bytes.
    pub fn truncate(&mut self, length: usize) {
        self.bytes.truncate(length);
    }

    /// The bytes of a part of this text. Where memory ended in the part, this text is not whole.
    pub fn part(&mut self, part: Text) -> Vec<u8> {
        let Text { bytes, is_whole } = part;
        if !is_whole {
            self.is_whole = false;
        }
        bytes
    }

    /// The text; the error says that memory ended.
    pub fn whole(self) -> Result<Vec<u8>, AllocError> {
        let Text { bytes, is_whole } = self;
        if is_whole { Ok(bytes) } else { Err(AllocError) }
    }
}
