//! What is reported of a symbol that is refused.

use crate::brackets::{
    OpenSections, hint_end, hint_extra, hint_glued, hint_late, hint_unclosed_before,
    hint_wrong_tag, open_sections,
};
use crate::changes::{hint_change, hint_closes};
use crate::commands::{
    hint_choice, hint_do, hint_else, hint_equal, hint_inserted, hint_misused, hint_test,
};
use crate::due::hint_due_here;
use crate::foreign::hint_foreign;
use crate::scene::Scene;
use crate::sentence::Reported;
use crate::signs::hint_signs;
use crate::statements::{
    hint_arguments, hint_counts, hint_definition, hint_dot, hint_expression, hint_items, hint_name,
    hint_outermost, hint_reserved,
};
use bk_base::SourceKind;
use std::alloc::AllocError;

/// The first of these that has something to report.
macro_rules! first_of {
    ($($hint:expr),+) => {{
        $(if let Some(reported) = $hint? {
            return Ok(Some(reported));
        })+
        Ok(None)
    }};
}

/// What is reported by the spellings around the symbol.
fn by_spelling(scene: &Scene) -> Result<Option<Reported>, AllocError> {
    first_of!(
        hint_signs(scene),
        hint_dot(scene),
        hint_glued(scene),
        hint_foreign(scene)
    )
}

/// What is reported by the sections that are open.
fn by_brackets(scene: &Scene, opened: &OpenSections) -> Result<Option<Reported>, AllocError> {
    first_of!(
        hint_end(scene, opened),
        hint_extra(scene, opened),
        hint_unclosed_before(scene, opened),
        hint_items(scene, opened)
    )
}

/// What is reported by the declaration or the command that the symbol is in, where people write it so.
fn by_habit(scene: &Scene) -> Result<Option<Reported>, AllocError> {
    first_of!(
        hint_reserved(scene),
        hint_definition(scene),
        hint_inserted(scene),
        hint_misused(scene),
        hint_name(scene)
    )
}

/// What is reported by the declaration or the command that the symbol is in, where no change of one symbol helps.
fn by_statement(scene: &Scene, opened: &OpenSections) -> Result<Option<Reported>, AllocError> {
    first_of!(
        hint_late(scene, opened),
        hint_outermost(scene, opened),
        hint_do(scene),
        hint_equal(scene),
        hint_else(scene),
        hint_test(scene),
        hint_choice(scene),
        hint_counts(scene),
        hint_expression(scene),
        hint_arguments(scene),
        hint_closes(scene)
    )
}

/// What is reported of an unexpected symbol, by the first of these that knows it.
fn hint_known(scene: &Scene) -> Result<Option<Reported>, AllocError> {
    let opened = open_sections(scene)?;
    first_of!(
        by_spelling(scene),
        by_brackets(scene, &opened),
        by_habit(scene),
        hint_change(scene, &opened),
        by_statement(scene, &opened)
    )
}

/// What is reported of a fault at a symbol.
pub fn hint_syntax(scene: &Scene, kind: &SourceKind) -> Result<Reported, AllocError> {
    match kind {
        SourceKind::WrongSectionTag => hint_wrong_tag(scene),
        SourceKind::NestedTooDeeply => scene.here(
            "the tree is more than 200 nodes deep here; a procedure of its own, or SWITCHON for a chain of TESTs, makes it flatter",
        ),
        SourceKind::TooManyNodes => scene.here(
            "the section has more than 65536 nodes here; a `.` and another section split it",
        ),
        _ => match hint_known(scene)? {
            Some(reported) => Ok(reported),
            None => hint_due_here(scene),
        },
    }
}
