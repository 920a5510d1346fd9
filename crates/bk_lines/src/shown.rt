//! A line of a source with a caret under it. What can't be printed is shown as `?`, so that a terminal stays as it is.
ghost use Rattle.std.specs.Prelude.{OnOk};
ghost use Rattle.bk_lines.specs.Places.{Extends};

use crate::places::{line_end, line_start, put_number};
use std::alloc::AllocError;

/// How many bytes of a line are shown before the place, and after it.
const NEAR: usize = 120;

/// How many bytes the second to fourth of a letter in UTF-8 are, after a byte that begins one; 0 where the byte begins none.
fn further_bytes(byte: u8) -> usize {
    match byte {
        0xC2..=0xDF => 1,
        0xE0..=0xEF => 2,
        0xF0..=0xF4 => 3,
        _ => 0,
    }
}

/// Whether the second byte of a letter may come after its first. Those that may not are control characters, and codes that no letter
/// has.
fn is_second(first: u8, second: u8) -> bool {
    match first {
        0xC2 | 0xE0 => second >= 0xA0,
        0xED => second < 0xA0,
        0xF0 => second >= 0x90,
        0xF4 => second < 0x90,
        _ => true,
    }
}

/// How many bytes after the first one here belong to its letter; none where they are no letter in UTF-8.
fn letter(bytes: &[u8]) -> usize {
    let [first, second, ..] = bytes else {
        return 0;
    };
    let count = further_bytes(*first);
    let Some(further) = bytes.get(1..count.saturating_add(1)) else {
        return 0;
    };
    let is_whole = further.iter().all(|byte| matches!(*byte, 0x80..=0xBF));
    if is_whole && is_second(*first, *second) {
        count
    } else {
        0
    }
}

/// A byte as it is shown, where it is no part of a longer letter: a tab and what is printed stay, any other is a `?`.
fn shown_byte(byte: u8) -> u8 {
    match byte {
        b'\t' | b' '..=b'~' => byte,
        _ => b'?',
    }
}

/// Adds bytes as they are shown, and ends the line.
pub fn put_shown(page: &mut Vec<u8>, bytes: &[u8]) -> Result<(), AllocError>
    ensures { OnOk result (Extends page.old.items page.new.items) }
{
    let mut further: usize = 0;
    for (i, byte) in bytes.iter().enumerate() {
        if further > 0 {
            further = further.saturating_sub(1);
            page.push(*byte)?;
        } else {
            further = letter(bytes.get(i..).unwrap_or(&[]));
            page.push(if further > 0 {
                *byte
            } else {
                shown_byte(*byte)
            })?;
        }
    }
    page.push(b'\n')?;
    Ok(())
}

/// Adds the caret of a place so many bytes after the beginning of these, and one of a further place, and ends the line.
fn put_carets(
    page: &mut Vec<u8>,
    bytes: &[u8],
    at: usize,
    also: Option<usize>,
) -> Result<(), AllocError>
    ensures { OnOk result (Extends page.old.items page.new.items) }
{
    let last = at.max(also.unwrap_or(at));
    let mut further: usize = 0;
    for i in 0..last.saturating_add(1) {
        if i == at || also == Some(i) {
            page.push(b'^')?;
            further = letter(bytes.get(i..).unwrap_or(&[]));
        } else if further > 0 {
            further = further.saturating_sub(1);
        } else {
            further = letter(bytes.get(i..).unwrap_or(&[]));
            page.push(if bytes.get(i) == Some(&b'\t') {
                b'\t'
            } else {
                b' '
            })?;
        }
    }
    page.push(b'\n')?;
    Ok(())
}

/// Adds blanks.
fn put_blanks(page: &mut Vec<u8>, count: usize) -> Result<(), AllocError>
    ensures { OnOk result (Extends page.old.items page.new.items) }
{
    for _ in 0..count {
        page.push(b' ')?;
    }
    Ok(())
}

/// Adds the line of a text that a place is on, with its number, and a caret under the place and under a further place of that line.
pub fn put_line(
    page: &mut Vec<u8>,
    text: &[u8],
    number: u32,
    at: usize,
    also: Option<usize>,
) -> Result<(), AllocError>
    ensures { OnOk result (Extends page.old.items page.new.items) }
{
    let start = line_start(text, at).max(at.saturating_sub(NEAR));
    let end = line_end(text, at).min(at.saturating_add(NEAR));
    let shown = text.get(start..end).unwrap_or(b"");
    put_blanks(page, 2)?;
    let width = put_number(page, number)?;
    page.extend_from_slice(b" | ")?;
    put_shown(page, shown)?;
    put_blanks(page, width.saturating_add(2))?;
    page.extend_from_slice(b" | ")?;
    let also = match also {
        Some(also) if also >= start && also < start.saturating_add(shown.len()) => Some(
            also.saturating_sub(start),
        ),
        _ => None,
    };
    put_carets(page, shown, at.saturating_sub(start), also)?;
    Ok(())
}
