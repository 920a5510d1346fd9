//! Where the lines of a text begin.
ghost use Rattle.std.specs.Prelude.{◌≡◌, IfOk};

use bk_base::Line;
use bk_lines::Start;
use std::alloc::{AllocError, Global};

/// The deepest indentation that is distinguished from a deeper one.
const DEEPEST: usize = 240;

/// Where the lines of a text begin.
#[derive(Drop)]
pub struct Lines {
    /// Where the text begins.
    pub start: Start,
    /// How many bytes of the text come before each line.
    starts: Vec<usize>,
}

impl Lines {
    /// The lines of a text that begins here.
    pub fn new(alloc: Global, text: &[u8], start: Start) -> Result<Lines, AllocError>
        ensures { IfOk result (λ lines. lines.start ≡ start) }
    {
        let mut starts = Vec::new(alloc);
        starts.push(0)?;
        for (i, byte) in text.iter().enumerate() {
            if *byte == b'\n' {
                starts.push(i.saturating_add(1))?;
            }
        }
        Ok(Lines { start, starts })
    }

    /// The number of the line that a place is on.
    pub fn number(&self, at: usize) -> u32 {
        let later = self.starts.iter().position(|start| *start > at);
        let count = later.unwrap_or(self.starts.len()).saturating_sub(1);
        match u32::try_from(count) {
            Ok(count) => self.start.line.number().saturating_add(count),
            Err(_) => u32::MAX,
        }
    }

    /// Where a line begins.
    pub fn begin(&self, line: Line) -> Option<usize> {
        let index = line.number().checked_sub(self.start.line.number())?;
        self.starts.get(index as usize).copied()
    }

    /// How many blanks a line of the text begins with.
    pub fn indentation(&self, text: &[u8], line: Line) -> usize {
        let Some(start) = self.begin(line) else {
            return 0;
        };
        for i in 0..DEEPEST {
            match text.get(start.saturating_add(i)) {
                Some(b' ' | b'\t') => {}
                _ => return i,
            }
        }
        DEEPEST
    }

    /// Whether nothing but blanks is before this place on this line.
    pub fn is_first(&self, text: &[u8], line: Line, place: usize) -> bool {
        match self.begin(line) {
            Some(start) => start.saturating_add(self.indentation(text, line)) == place,
            None => false,
        }
    }
}
