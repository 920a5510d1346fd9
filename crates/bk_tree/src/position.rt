//! Positions of symbols in a source.
ghost use Rattle.std.specs.Prelude.{◌≡◌};
ghost use Rattle.bk_tree.specs.Position.{position, line_in, bytes_in, bytes_with, column_after, column_in};

use bk_base::Line;
use std::marker::Model;

/// Where a symbol begins: its line, and its place in the text of its section. Contracts see both as one number.
#[derive(Clone, Copy, Debug, PartialEq, Eq)]
pub struct Position(u64);

impl Model for Position {
    ghost use Rattle.std.specs.Prelude.{ℕ, ◌≤◌, ◌%◌};

    ghost Value = { ℕ };

    ghost view = { λ position. position.0 };

    ghost invariant = { λ position. 1 ≤ position.0 % 4294967296 };

    ghost inverse = { λ number. record { 0 = number } };
}

impl Position {
    /// The first line, and no place.
    pub fn first() -> Position
        ensures { result ≡ 1 }
    {
        Position(1)
    }

    /// The position of a symbol on this line, at this place in the text of its section; `None` where it is not in that text.
    pub fn new(line: Line, place: Option<u32>) -> Position
        ensures position { result ≡ position line place }
        // Both can be taken out of it.
        ensures line { line_in result ≡ line }
        ensures bytes { bytes_in result ≡ bytes_with place }
    {
        let bytes = match place {
            Some(place) => place.saturating_add(1),
            None => 0,
        };
        Position(bytes as u64 * 4_294_967_296 + line.number() as u64)
    }

    /// Its line.
    pub fn line(self) -> Line
        ensures { result ≡ line_in self }
    {
        Line::new((self.0 % 4_294_967_296) as u32)
    }

    /// The number of bytes of its section's text up to and with its first; 0 where it is not in that text.
    pub fn bytes(self) -> u32
        ensures { result ≡ bytes_in self }
    {
        (self.0 / 4_294_967_296) as u32
    }

    /// Its column, in bytes from 1, in the text of its section, which begins at the column `start`; `None` where it is not in that text.
    pub fn column(self, text: &[u8], start: u32) -> Option<u32>
        ensures { result ≡ column_in start text.now self }
    {
        let before = self.bytes().checked_sub(1)?;
        let end = text.len().min(before as usize);
        Some(column_after(start, &text[..end]))
    }
}

/// The column after these bytes, in bytes from 1, where the first of them is at the column `start`. So a section that begins on a line
/// where another ended begins at the column after the bytes of the other.
pub fn column_after(start: u32, bytes: &[u8]) -> u32
    ensures { result ≡ column_after start bytes.now }
{
    let mut column = start;
    for byte in bytes {
        column = if *byte == b'\n' {
            1
        } else {
            column.saturating_add(1)
        };
    }
    column
}
