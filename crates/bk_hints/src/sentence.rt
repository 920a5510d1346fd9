//! Sentences, made a part at a time.

use bk_base::Line;
use itoa::Buffer;
use std::alloc::{AllocError, Global};

/// How many bytes of a spelling a sentence shows.
const SHOWN: usize = 40;

/// The beginning of a spelling that a sentence shows.
fn shown(spelling: &[u8]) -> &[u8] {
    match spelling.get(..SHOWN) {
        Some(first) => first,
        None => spelling,
    }
}

/// A sentence so far.
#[derive(Drop)]
pub struct Sentence {
    bytes: Vec<u8>,
}

impl Sentence {
    /// A sentence without words.
    pub fn new(alloc: Global) -> Sentence {
        Sentence {
            bytes: Vec::new(alloc),
        }
    }

    /// The sentence with these bytes after it.
    fn put(self, part: &[u8]) -> Result<Sentence, AllocError> {
        let mut bytes = self.bytes;
        match bytes.extend_from_slice(part) {
            Ok(()) => Ok(Sentence { bytes }),
            Err(_) => Err(AllocError),
        }
    }

    /// The sentence with these words after it.
    pub fn say(self, words: &str) -> Result<Sentence, AllocError> {
        self.put(words.as_bytes())
    }

    /// The sentence with a spelling of the source after it, between backquotes.
    pub fn quote(self, spelling: &[u8]) -> Result<Sentence, AllocError> {
        self.put(b"`")?.put(shown(spelling))?.put(b"`")
    }

    /// The sentence with a spelling of the source after it.
    pub fn spell(self, spelling: &[u8]) -> Result<Sentence, AllocError> {
        self.put(shown(spelling))
    }

    /// The sentence with `line` and its number after it.
    pub fn line(self, line: Line) -> Result<Sentence, AllocError> {
        let mut buffer = Buffer::new();
        self.put(b"line ")?
            .put(buffer.format(line.number()).as_bytes())
    }

    /// Its bytes.
    pub fn into_bytes(self) -> Vec<u8> {
        self.bytes
    }
}

/// What is reported: a place in the text, if there is one, and a sentence.
#[derive(Drop)]
pub struct Reported {
    /// How many bytes of the text come before the place.
    pub at: Option<usize>,
    /// The same of a second place, which the sentence names by its line.
    pub also: Option<usize>,
    pub sentence: Sentence,
}

impl Reported {
    /// These words at this place.
    pub fn new(alloc: Global, at: Option<usize>, words: &str) -> Result<Reported, AllocError> {
        Ok(Reported {
            at,
            also: None,
            sentence: Sentence::new(alloc).say(words)?,
        })
    }

    /// This sentence at this place.
    pub fn at(at: Option<usize>, sentence: Sentence) -> Reported {
        Reported {
            at,
            also: None,
            sentence,
        }
    }

    /// The same with a second place.
    pub fn and(self, also: Option<usize>) -> Reported {
        Reported {
            at: self.at,
            also,
            sentence: self.sentence,
        }
    }

    /// The same with these words after the sentence.
    pub fn say(self, words: &str) -> Result<Reported, AllocError> {
        Ok(Reported {
            at: self.at,
            also: self.also,
            sentence: self.sentence.say(words)?,
        })
    }
}
