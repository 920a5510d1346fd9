//! The line and the column of a place, and where its line begins and ends.
ghost use Rattle.std.specs.Prelude.{◌≡◌, ◌++◌, OnOk, decimal};
ghost use Rattle.bk_tree.specs.Position.{column_after};
ghost use Rattle.bk_lines.specs.Places.{line_after, place_text};

use bk_base::Line;
use bk_tree::column_after;
use itoa::Buffer;
use std::alloc::AllocError;

/// Where the line begins that this place is on.
pub fn line_start(text: &[u8], at: usize) -> usize {
    let end = text.len().min(at);
    let before = column_after(1, &text[..end]).saturating_sub(1);
    end.saturating_sub(before as usize)
}

/// Where the line ends that this place is on, without what ends it.
pub fn line_end(text: &[u8], at: usize) -> usize {
    let start = text.len().min(at);
    match text[start..]
        .iter()
        .position(|byte| matches!(*byte, b'\n' | b'\r'))
    {
        Some(count) => start.saturating_add(count),
        None => text.len(),
    }
}

/// The line after these bytes, the first of which is on the line `from`.
fn line_after(from: Line, bytes: &[u8]) -> Line
    ensures { result ≡ line_after from bytes.now }
{
    let mut line = from;
    for byte in bytes {
        if *byte == b'\n' {
            line = line.next();
        }
    }
    line
}

/// Adds a number in decimal digits, and returns how many these are.
pub fn put_number(text: &mut Vec<u8>, number: u32) -> Result<usize, AllocError>
    ensures { OnOk result (text.new.items ≡ text.old.items ++ decimal number) }
{
    let mut buffer = Buffer::new();
    let digits = buffer.format(number).as_bytes();
    text.extend_from_slice(digits)?;
    Ok(digits.len())
}

/// Where a text begins in its source: its line, and its column, in bytes from 1.
#[derive(Clone, Copy, Debug)]
pub struct Start {
    pub line: Line,
    pub column: u32,
}

impl Start {
    /// The beginning of a source.
    pub fn of_source() -> Start
        ensures line { result.line ≡ 1 }
        ensures column { result.column ≡ 1 }
    {
        Start {
            line: Line::first(),
            column: 1,
        }
    }

    /// Where a text begins that comes after these bytes, which begin here.
    pub fn after(&self, bytes: &[u8]) -> Start
        ensures line { result.line ≡ line_after self.now.line bytes.now }
        ensures column { result.column ≡ column_after self.now.column bytes.now }
    {
        Start {
            line: line_after(self.line, bytes),
            column: column_after(self.column, bytes),
        }
    }
}

/// Adds `LINE:COLUMN` of what comes after these bytes, the first of which is here.
pub fn put_place(text: &mut Vec<u8>, start: &Start, before: &[u8]) -> Result<(), AllocError>
    ensures { OnOk result (text.new.items ≡ text.old.items ++ place_text start.now before.now) }
{
    let place = start.after(before);
    let _digits = put_number(text, place.line.number())?;
    text.push(b':')?;
    let _digits = put_number(text, place.column)?;
    Ok(())
}
