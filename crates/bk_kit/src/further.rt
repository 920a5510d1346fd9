//! The faults of a source after those of the first section that is refused.

use crate::cut::{is_kind_of_bytes, read_on};
use bk_base::{ByteIn, Line};
use bk_filters::{KitFault, compile_section, read_source_section};
use bk_hints::hints;
use bk_lex::Lexer;
use bk_lines::Start;
use itoa::Buffer;
use std::alloc::{AllocError, Global};

/// How many sections of a source are read at most.
const SECTIONS: u32 = 1_000_000;

/// After how many bytes no further section is read, so that what is reported of a large source comes soon.
const BYTES: u64 = 4_000_000;

/// How many faults of a source are shown at most.
const MOST: usize = 20;

/// The sections that are refused, as far as the source is read.
#[derive(Drop)]
struct LaterSections {
    /// How many sections are refused.
    sections: usize,
    /// How many faults are shown, those of the first section too.
    shown: usize,
    /// What is reported of the later sections.
    pages: Vec<Vec<u8>>,
}

impl LaterSections {
    /// Adds a section that is refused, with what is reported of its faults: of each but the first section the first fault.
    fn add(&mut self, hints: Vec<Vec<u8>>) -> Result<(), AllocError> {
        let mut hints = hints;
        self.sections = self.sections.saturating_add(1);
        if self.sections == 1 {
            self.shown = hints.len();
            return Ok(());
        }
        hints.truncate(1);
        match hints.pop() {
            Some(page) if self.shown < MOST => {
                self.shown = self.shown.saturating_add(1);
                self.pages.push(page)?;
                Ok(())
            }
            _ => Ok(()),
        }
    }

    /// What is reported, with how many more sections are refused.
    fn reported(self, alloc: Global) -> Result<Vec<Vec<u8>>, AllocError> {
        let mut pages = self.pages;
        let more = self.sections.saturating_sub(1).saturating_sub(pages.len());
        if more > 0 {
            let mut buffer = Buffer::new();
            let mut line = Vec::new(alloc);
            line.extend_from_slice(b": and at least ")?;
            line.extend_from_slice(buffer.format(more).as_bytes())?;
            line.extend_from_slice(b" more sections are refused\n")?;
            pages.push(line)?;
        }
        Ok(pages)
    }
}

/// The line on which the next section begins, where a `.` ended this one.
fn next_line(alloc: Global, lexer: &Lexer) -> Option<Line> {
    match lexer.lexed(alloc) {
        Ok(lexed) if lexed.ended => Some(lexed.line),
        _ => None,
    }
}

/// Whether nothing but blanks is before the `.` that ends these bytes, on its line. Else it may be meant to end no section, as in `2.5`.
fn is_apart(bytes: &[u8]) -> bool {
    let Some((_, before)) = bytes.split_last() else {
        return false;
    };
    match before
        .iter()
        .rposition(|byte| !matches!(*byte, b' ' | b'\t'))
    {
        Some(at) => before.get(at) == Some(&b'\n'),
        None => true,
    }
}

/// The sections that are refused, up to one of which nobody knows where it ends: its bytes have a fault, or the `.` that ends it is not apart.
fn refused_sections<C: ByteIn>(alloc: Global, source: &mut C) -> Result<LaterSections, AllocError> {
    let mut refused = LaterSections {
        sections: 0,
        shown: 0,
        pages: Vec::new(alloc),
    };
    let mut taken = 0;
    let mut line = Line::first();
    let mut start = Start::of_source();
    for _ in 0..SECTIONS {
        if taken > BYTES {
            break;
        }
        let Ok(lexer) = read_source_section(alloc, source, &mut taken, line) else {
            break;
        };
        if let Err(KitFault::Source(fault)) = &compile_section(alloc, &lexer) {
            let mut text = Vec::new(alloc);
            text.extend_from_slice(lexer.bytes())?;
            if is_kind_of_bytes(&fault.kind) {
                read_on(source, &mut text)?;
            }
            refused.add(hints(alloc, &text, &start, fault)?)?;
            if !is_apart(lexer.bytes()) {
                break;
            }
        }
        start = start.after(lexer.bytes());
        match next_line(alloc, &lexer) {
            Some(next) => line = next,
            None => break,
        }
    }
    Ok(refused)
}

/// What is reported of a source that is refused, after the faults of the first section that is: of each later section that is refused its first
/// fault, twenty in all with those of that section at most, and then how many more sections at least are refused. Each is lines of text that come
/// after the name of FILE, as those of a `Refusal`. `source` is the source from its beginning. There is nothing where memory is refused, and
/// nothing after a section that can't be read, whose bytes have a fault, or whose `.` comes after something else on its line.
pub fn further_hints<C: ByteIn>(alloc: Global, source: &mut C) -> Vec<Vec<u8>> {
    let reported = match refused_sections(alloc, source) {
        Ok(refused) => refused.reported(alloc),
        Err(error) => Err(error),
    };
    match reported {
        Ok(pages) => pages,
        Err(_) => Vec::new(alloc),
    }
}
