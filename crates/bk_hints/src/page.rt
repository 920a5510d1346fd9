//! The lines that a person reads: the place and what is wrong there, the lines of the source with carets, and the sentence.
ghost use Rattle.std.specs.Prelude.{ℕ, List, ◌≡◌, ◌++◌, OnOk, IfOk};
ghost use Rattle.bk_lines.specs.Places.{Extends};
ghost use Rattle.bk_hints.specs.Hints.{Places, Reports};

use crate::lines::Lines;
use crate::sentence::Reported;
use bk_base::{Line, SourceFault};
use bk_lines::{Start, put_line, put_number, put_place, put_shown};
use std::alloc::{AllocError, Global};

/// Adds the lines of the source that two places are on.
fn put_sources(
    page: &mut Vec<u8>,
    text: &[u8],
    lines: &Lines,
    at: usize,
    also: Option<usize>,
) -> Result<(), AllocError>
    ensures { OnOk result (Extends page.old.items page.new.items) }
{
    match also {
        Some(also) if lines.number(also) < lines.number(at) => {
            put_line(page, text, lines.number(also), also, None)?;
            put_line(page, text, lines.number(at), at, None)
        }
        Some(also) if lines.number(also) > lines.number(at) => {
            put_line(page, text, lines.number(at), at, None)?;
            put_line(page, text, lines.number(also), also, None)
        }
        _ => put_line(page, text, lines.number(at), at, also),
    }
}

/// Adds the line and the column of a place; of no place the line of the fault.
fn put_head(
    page: &mut Vec<u8>,
    text: &[u8],
    start: &Start,
    at: Option<usize>,
    line: Line,
) -> Result<(), AllocError>
    ensures { OnOk result ((place : List ℕ) × Places start.now text.now line place × (page.new.items ≡ page.old.items ++ place)) }
{
    match at {
        Some(at) => {
            put_place(page, start, &text[..text.len().min(at)])?;
            Ok(())
        }
        None => {
            let _digits = put_number(page, line.number())?;
            Ok(())
        }
    }
}

/// The lines that a person reads, after the name of the file: its place and what is wrong, the lines of the source, and the sentence.
pub fn page(
    alloc: Global,
    text: &[u8],
    lines: &Lines,
    fault: &SourceFault,
    reported: Reported,
) -> Result<Vec<u8>, AllocError>
    ensures { IfOk result (λ page. Reports lines.now.start text.now fault.now page.items) }
{
    let Reported { at, also, sentence } = reported;
    let mut page = Vec::new(alloc);
    page.push(b':')?;
    put_head(&mut page, text, &lines.start, at, fault.line)?;
    page.extend_from_slice(b": ")?;
    page.extend_from_slice(fault.kind.phrase().as_bytes())?;
    page.extend_from_slice(fault.kind.name().as_bytes())?;
    page.push(b'\n')?;
    if let Some(at) = at {
        put_sources(&mut page, text, lines, at, also)?;
    }
    put_shown(&mut page, sentence.into_bytes().as_slice())?;
    Ok(page)
}
