//! Text in columns, made a part at a time.

use bk_base::Line;
use itoa::Buffer;
use std::alloc::{AllocError, Global};

/// How many places a number of a line has.
const LINE_PLACES: usize = 6;

/// The column of what is after the number of a line.
const FORM: usize = 8;

/// A byte as it is shown: a control byte is a `?`.
fn shown_byte(byte: u8) -> u8 {
    match byte {
        0..=31 | 127 => b'?',
        _ => byte,
    }
}

/// A text so far.
#[derive(Drop)]
pub struct Text {
    bytes: Vec<u8>,
    /// How many bytes are before the line that is not ended.
    start: usize,
}

impl Text {
    /// A text without lines.
    pub fn new(alloc: Global) -> Text {
        Text {
            bytes: Vec::new(alloc),
            start: 0,
        }
    }

    /// Its bytes.
    pub fn bytes(&self) -> &[u8] {
        self.bytes.as_slice()
    }

    /// How many bytes it has.
    pub fn len(&self) -> usize {
        self.bytes.len()
    }

    /// Its bytes from one number to before another.
    pub fn part(&self, from: usize, to: usize) -> &[u8] {
        self.bytes.as_slice().get(from..to).unwrap_or(&[])
    }

    /// Adds these bytes.
    fn put(&mut self, part: &[u8]) -> Result<(), AllocError> {
        match self.bytes.extend_from_slice(part) {
            Ok(()) => Ok(()),
            Err(_) => Err(AllocError),
        }
    }

    /// Adds these words.
    pub fn say(&mut self, words: &str) -> Result<(), AllocError> {
        self.put(words.as_bytes())
    }

    /// Adds a spelling of the source.
    pub fn spell(&mut self, spelling: &[u8]) -> Result<(), AllocError> {
        for byte in spelling {
            self.bytes.push(shown_byte(*byte))?;
        }
        Ok(())
    }

    /// Adds a name or a word of the source, in upper case.
    pub fn name(&mut self, spelling: &[u8]) -> Result<(), AllocError> {
        for byte in spelling {
            self.bytes.push(shown_byte(byte.to_ascii_uppercase()))?;
        }
        Ok(())
    }

    /// Adds a number from 0 on.
    pub fn natural(&mut self, number: u32) -> Result<(), AllocError> {
        let mut buffer = Buffer::new();
        self.put(buffer.format(number).as_bytes())
    }

    /// Adds how many there are of something, or which of them one is.
    pub fn count(&mut self, number: usize) -> Result<(), AllocError> {
        let mut buffer = Buffer::new();
        self.put(buffer.format(number).as_bytes())
    }

    /// Adds a number.
    pub fn integer(&mut self, number: i32) -> Result<(), AllocError> {
        let mut buffer = Buffer::new();
        self.put(buffer.format(number).as_bytes())
    }

    /// Adds so many blanks.
    fn blanks(&mut self, count: usize) -> Result<(), AllocError> {
        for _ in 0..count {
            self.bytes.push(b' ')?;
        }
        Ok(())
    }

    /// Adds blanks up to a column of the line, at least two.
    pub fn go_to(&mut self, column: usize) -> Result<(), AllocError> {
        let used = self.bytes.len().saturating_sub(self.start);
        self.blanks(column.saturating_sub(used).max(2))
    }

    /// Adds a number from 0 on, with blanks before it up to so many places.
    pub fn right(&mut self, number: u64, places: usize) -> Result<(), AllocError> {
        let mut buffer = Buffer::new();
        let digits = buffer.format(number).as_bytes();
        self.blanks(places.saturating_sub(digits.len()))?;
        self.put(digits)
    }

    /// Adds a number in the same way.
    pub fn right_signed(&mut self, number: i32, places: usize) -> Result<(), AllocError> {
        let mut buffer = Buffer::new();
        let digits = buffer.format(number).as_bytes();
        self.blanks(places.saturating_sub(digits.len()))?;
        self.put(digits)
    }

    /// Begins a line with the number of a line of the source.
    pub fn begin(&mut self, line: Line) -> Result<(), AllocError> {
        self.right(u64::from(line.number()), LINE_PLACES)?;
        self.blanks(FORM - LINE_PLACES)
    }

    /// Begins a line with the number of a line of the source, if it has one.
    pub fn begin_at(&mut self, line: Option<Line>) -> Result<(), AllocError> {
        match line {
            Some(line) => self.begin(line),
            None => self.begin_without(),
        }
    }

    /// Begins a line that has no line of the source.
    pub fn begin_without(&mut self) -> Result<(), AllocError> {
        self.blanks(FORM)
    }

    /// Adds blanks for so many levels of a tree.
    pub fn indent(&mut self, levels: usize) -> Result<(), AllocError> {
        for _ in 0..levels {
            self.blanks(2)?;
        }
        Ok(())
    }

    /// Takes from the end of the line what is past a column.
    pub fn fit(&mut self, columns: usize) {
        let most = self.start.saturating_add(columns);
        for _ in most..self.bytes.len() {
            let _byte = self.bytes.pop();
        }
    }

    /// Ends the line.
    pub fn end(&mut self) -> Result<(), AllocError> {
        self.bytes.push(b'\n')?;
        self.start = self.bytes.len();
        Ok(())
    }
}
