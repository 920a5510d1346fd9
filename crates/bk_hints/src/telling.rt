//! What is reported to a person of a fault.
ghost use Rattle.std.specs.Prelude.{IfOk};
ghost use Rattle.bk_hints.specs.Hints.{Hints};

use crate::bytes::hint_bytes;
use crate::further::Faulty;
use crate::lines::Lines;
use crate::meanings::hint_meaning;
use crate::page::page;
use crate::refused::refused_at;
use crate::scene::Scene;
use crate::sentence::Reported;
use crate::syntax::hint_syntax;
use bk_base::{Refused, SourceFault, SourceKind};
use bk_lex::lex_placed;
use bk_lines::Start;
use std::alloc::{AllocError, Global};

/// Whether a fault is of the syntax of a section.
pub fn is_of_syntax(kind: &SourceKind) -> bool {
    matches!(
        kind,
        SourceKind::UnexpectedSymbol
            | SourceKind::WrongSectionTag
            | SourceKind::NestedTooDeeply
            | SourceKind::TooManyNodes
    )
}

/// What is reported of the fault of the symbol with this index. Before the `.` that ends the section, if one does, come `dot` bytes.
fn hint_symbol(
    section: &Faulty,
    dot: Option<usize>,
    at: usize,
    fault: &SourceFault,
) -> Result<Reported, AllocError> {
    let source = (section.text, section.lines);
    let scene = Scene::new(section.alloc, source, section.tokens, at, dot)?;
    if is_of_syntax(&fault.kind) {
        hint_syntax(&scene, &fault.kind)
    } else {
        hint_meaning(&scene, fault)
    }
}

/// What is reported of a section that has symbols: of its fault, and of its further faults of names and constants.
fn hint_section(
    section: &Faulty,
    dot: Option<usize>,
    fault: &SourceFault,
) -> Result<Vec<Vec<u8>>, AllocError>
    ensures { IfOk result (λ pages. Hints section.now.lines.now.start section.now.text.now fault.now pages.items) }
{
    let at = refused_at(section.alloc, section.text, section.tokens)?;
    let reported = hint_symbol(section, dot, at, fault)?;
    let mut pages = Vec::new(section.alloc);
    pages.push(page(section.alloc, section.text, section.lines, fault, reported)?)?;
    if !is_of_syntax(&fault.kind) {
        section.add_further(at, &fault.kind, &mut pages)?;
    }
    Ok(pages)
}

/// What is reported to a person of a section that is refused, each after the name of its file: of the fault, and then of the further
/// faults of names and constants of the section, twenty in all at most. Of each `:LINE:COLUMN: ` and what is wrong, the line of the
/// source with its number, a caret under the symbol or byte, and a sentence. Where two places matter, the lines of both are shown.
///
/// `text` is the text of a section as it was read, which begins here in its source; it may end where the fault is certain.
pub fn hints(
    alloc: Global,
    text: &[u8],
    start: &Start,
    fault: &SourceFault,
) -> Result<Vec<Vec<u8>>, AllocError>
    ensures { IfOk result (λ pages. Hints start.now text.now fault.now pages.items) }
{
    let lines = Lines::new(alloc, text, *start)?;
    match lex_placed(alloc, text, start.line) {
        Ok(lexed) => {
            let dot = if lexed.ended {
                lexed.used.checked_sub(1)
            } else {
                None
            };
            let section = Faulty {
                alloc,
                text,
                lines: &lines,
                tokens: lexed.tokens.as_slice(),
            };
            hint_section(&section, dot, fault)
        }
        Err(Refused::Fault(found)) => {
            let reported = hint_bytes(alloc, text, &found)?;
            let mut pages = Vec::new(alloc);
            pages.push(page(alloc, text, &lines, fault, reported)?)?;
            Ok(pages)
        }
        Err(_) => Err(AllocError),
    }
}
