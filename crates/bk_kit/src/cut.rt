//! The rest of a line, where a fault of bytes ended the reading of a source.
ghost use Rattle.std.specs.Prelude.{◌≡◌, ◌++◌, ◌≤◌, ℕ, List, Option, None, OnOk, length};
ghost use Rattle.bk_lines.specs.Places.{LineEnd};
ghost use Rattle.bk_kit.specs.Checking.{HintsIn, IsCut, is_kind_of_bytes, is_of_bytes, ReadsOn, TextHints};
ghost use Rattle.bk_kit.specs.Tracing.{read_from};

use crate::checker::{NotChecked, Refusal, hints_of, no_hint};
use bk_base::{ByteIn, SourceKind};
use bk_checker::Report;
use bk_filters::KitFault;
use bk_lines::{Start, read_line_end};
use std::alloc::{AllocError, Global};

/// A section as far as it was read, where a fault of its bytes ended the reading.
#[derive(Debug, Drop)]
pub struct CutSection {
    /// Where the section begins in the source.
    pub start: Start,
    /// Its bytes.
    pub text: Vec<u8>,
}

/// How many bytes of a line are read at most after a fault of bytes: as many as are shown.
const LINE_END: usize = 120;

/// Whether a fault is of the bytes of a source, and not of its symbols.
pub fn is_kind_of_bytes(kind: &SourceKind) -> bool
    ensures { result ≡ is_kind_of_bytes kind.now }
{
    matches!(
        kind,
        SourceKind::BadByte
            | SourceKind::BadString
            | SourceKind::BadEscape
            | SourceKind::NumberOver32Bits
            | SourceKind::NameTooLong
            | SourceKind::TagTooLong
            | SourceKind::SectionTooLong
            | SourceKind::BadGet
    )
}

/// The same of any fault.
fn is_of_bytes(fault: &KitFault) -> bool
    ensures { result ≡ is_of_bytes fault.now }
{
    match fault {
        KitFault::Source(fault) => is_kind_of_bytes(&fault.kind),
        _ => false,
    }
}

/// Adds the rest of the line with which a text ends, as it is read from the source.
pub fn read_on<C: ByteIn>(source: &mut C, text: &mut Vec<u8>) -> Result<(), AllocError>
    ensures { (more : List ℕ) × LineEnd (C.left source.old) (C.left source.new) more × (length more ≤ 120)
        × OnOk result (text.new.items ≡ text.old.items ++ more) }
{
    let most = if text.last() == Some(&b'\n') {
        0
    } else {
        LINE_END
    };
    read_line_end(source, most, text)
}

/// The text before a fault of bytes, as far as it was read.
pub fn cut_at(alloc: Global, text: &[u8], start: &Start, fault: &KitFault) -> Option<CutSection>
    ensures { IsCut start.now text.now fault.now result }
{
    if !is_of_bytes(fault) {
        return None;
    }
    let mut copy = Vec::new(alloc);
    match copy.extend_from_slice(text) {
        Ok(()) => Some(CutSection {
            start: *start,
            text: copy,
        }),
        Err(_) => None,
    }
}

/// A refusal for a fault of bytes with the rest of its line, which is read from the source.
fn with_line<C: ByteIn>(alloc: Global, source: &mut C, refusal: Refusal) -> Refusal
    ensures fault { result.fault ≡ refusal.fault }
    ensures hints { (old : Option (List ℕ)) → HintsIn refusal old (C.left source.old) → HintsIn result old (C.left source.new) }
    ensures line { (more : List ℕ) × LineEnd (C.left source.old) (C.left source.new) more × (length more ≤ 120) }
    ensures symbols { refusal.cut ≡ None → source.new ≡ source.old }
{
    let Refusal { fault, hints, cut } = refusal;
    let Some(CutSection { start, text }) = cut else {
        return Refusal {
            fault,
            hints,
            cut: None,
        };
    };
    let mut text = text;
    match read_on(source, &mut text) {
        Ok(()) => Refusal {
            hints: hints_of(alloc, &text, &start, &fault),
            fault,
            cut: None,
        },
        Err(_) => no_hint(alloc, fault),
    }
}

/// The answer of a check with the rest of the line, where a fault of bytes ended the reading of the source.
pub fn with_whole_line<C: ByteIn>(
    alloc: Global,
    source: &mut C,
    answer: Result<Report, NotChecked>,
) -> Result<Report, NotChecked>
    ensures { (old : Option (List ℕ)) → TextHints answer old (C.left source.old)
        → ReadsOn answer result (read_from C.ByteIn old source.old) (read_from C.ByteIn old source.new) }
{
    match answer {
        Err(NotChecked::Text(refusal)) => Err(NotChecked::Text(with_line(alloc, source, refusal))),
        answer => answer,
    }
}
