//! What is reported of faults of names and constants: where the word or name is, and what is meant.

use crate::names::{
    Names, hint_dynamic, hint_label, hint_not_declared, hint_procedures, hint_twice,
};
use crate::roles::{NameRole, roles};
use crate::scene::Scene;
use crate::sentence::Reported;
use bk_base::{SourceFault, SourceKind};
use bk_lex::Kind;
use std::alloc::AllocError;

/// The item of MANIFEST that a destination or operand of `@` with this index is.
fn manifest(scene: &Scene, roles: &[NameRole], index: usize) -> Option<usize> {
    if scene.kind(index)? != Kind::Name {
        return None;
    }
    if scene.before_at(index) != Some(Kind::At)
        && !matches!(
            scene.kind(index.saturating_add(1)),
            Some(Kind::Assign | Kind::Comma)
        )
    {
        return None;
    }
    let names = Names {
        scene,
        roles,
        name: scene.spelling(index),
    };
    names.manifest_of(index)
}

/// What is reported of a destination, or of an operand of `@`, without an address.
fn hint_assignable(scene: &Scene, roles: &[NameRole]) -> Result<Reported, AllocError> {
    let at = scene.at;
    let declared = manifest(scene, roles, at);
    let sentence = match declared {
        Some(declared) => scene
            .sentence()
            .quote(scene.spelling(at))?
            .say(" is the MANIFEST constant of ")?
            .line(scene.line(declared))?
            .say(", which has no address; STATIC declares a variable")?,
        None => scene.sentence().say(
            "an expression has no address: a name, `!E` and `E!E` go before `:=` and after `@`, and `E%E` before `:=`",
        )?,
    };
    Ok(scene.reported(at, sentence))
}

/// What asks for a constant at the refused symbol.
fn asks(scene: &Scene) -> Option<Kind> {
    let mut asks = None;
    for (i, token) in scene.tokens.iter().enumerate() {
        if i >= scene.at {
            return asks;
        }
        match token.kind {
            Kind::Case
            | Kind::Vec
            | Kind::Table
            | Kind::By
            | Kind::Manifest
            | Kind::Static
            | Kind::Global => asks = Some(token.kind),
            Kind::Do | Kind::Let | Kind::And | Kind::SectionClose => asks = None,
            Kind::Colon if asks == Some(Kind::Case) => asks = None,
            Kind::Semicolon if is_case(asks) => asks = None,
            _ => {}
        }
    }
    asks
}

/// Whether what asks for a constant ends with its command.
fn is_case(asks: Option<Kind>) -> bool {
    matches!(asks, Some(Kind::Case | Kind::Vec | Kind::Table | Kind::By))
}

/// What is reported of an expression that is no constant.
fn hint_constant(scene: &Scene) -> Result<Reported, AllocError> {
    let at = scene.at;
    let sentence = match scene.kind(at) {
        Some(Kind::Name | Kind::Text | Kind::Query | Kind::Valof | Kind::Table) => scene
            .sentence()
            .quote(scene.spelling(at))?
            .say(" is no constant: ")?,
        _ => scene.sentence(),
    };
    let sentence = sentence.say(match asks(scene) {
        Some(Kind::Case) =>
            "a CASE takes a constant; MANIFEST declares one, and TEST compares with a variable",
        Some(Kind::Vec) =>
            "the size of a VEC is a constant, as the largest that is needed; MANIFEST declares one",
        Some(Kind::By) => "the step of a FOR is a constant; a WHILE steps by a variable",
        Some(Kind::Table) => "a TABLE has constants; a vector is filled by `:=`",
        Some(Kind::Static) =>
            "an item of STATIC begins with a constant; `:=` in START gives it another value",
        Some(Kind::Global) => "the number of a global is a constant, from 0 to 999",
        _ =>
            "a constant is due here: numbers, characters, TRUE, FALSE, names of MANIFEST, and operators on them",
    })?;
    Ok(scene.reported(at, sentence))
}

/// These words at the refused symbol.
fn hint_word(scene: &Scene, words: &str) -> Result<Reported, AllocError> {
    Ok(scene.reported(scene.at, scene.sentence().say(words)?))
}

/// What is reported of RESULTIS or RETURN where it can't be.
fn hint_result(scene: &Scene) -> Result<Reported, AllocError> {
    hint_word(
        scene,
        match scene.refused() {
            Some(Kind::Return) =>
                "`RETURN` leaves a procedure with BE; this one gives a value, by `RESULTIS E` in its VALOF",
            _ =>
                "`RESULTIS` goes in a VALOF of its procedure: `LET F() = VALOF $( .. RESULTIS E $)`; `RETURN` leaves one with BE",
        },
    )
}

/// What is reported of a fault that keeps no name.
fn hint_nameless(
    scene: &Scene,
    roles: &[NameRole],
    fault: &SourceFault,
) -> Result<Reported, AllocError> {
    match fault.kind {
        SourceKind::NotAssignable => hint_assignable(scene, roles),
        SourceKind::NotConstant => hint_constant(scene),
        SourceKind::NoResultOrReturn => hint_result(scene),
        SourceKind::ConstantDividedByZero => hint_word(
            scene,
            "the right operand of this division of constants is 0",
        ),
        SourceKind::CaseRepeated => hint_word(
            scene,
            "this SWITCHON has a CASE of the same value already",
        ),
        SourceKind::DefaultRepeated => hint_word(scene, "this SWITCHON has a DEFAULT already"),
        SourceKind::NoLoop => hint_word(
            scene,
            "no loop of this procedure or VALOF is around it; `ENDCASE` leaves a SWITCHON, `RETURN` a routine, and `RESULTIS E` a VALOF",
        ),
        SourceKind::NoSwitchon => hint_word(
            scene,
            "no SWITCHON is around it, or a FOR, a VALOF or a block with declarations is between",
        ),
        SourceKind::GlobalOutOfRange => hint_word(scene, "the number of a global is from 0 to 999"),
        SourceKind::VecOutOfRange => hint_word(
            scene,
            "the size of a VEC is from 0 to 32767; a TABLE, or several vectors, may hold more",
        ),
        SourceKind::FrameTooLarge => hint_word(
            scene,
            "the variables and vectors of this procedure take more than 65535 words; those of a procedure of its own don't count",
        ),
        _ => hint_word(scene, "the section is refused here"),
    }
}

/// What is reported of a fault of names or constants.
pub fn hint_meaning(scene: &Scene, fault: &SourceFault) -> Result<Reported, AllocError> {
    let roles = roles(scene.alloc, scene.tokens)?;
    let name = fault.kind.name().as_bytes();
    if name.is_empty() {
        return hint_nameless(scene, roles.as_slice(), fault);
    }
    let names = Names {
        scene,
        roles: roles.as_slice(),
        name,
    };
    let at = scene.at;
    match fault.kind {
        SourceKind::DeclaredTwice(_) => hint_twice(&names, at),
        SourceKind::DynamicName(_) => hint_dynamic(&names, at),
        SourceKind::LabelNotHere(_) => hint_label(&names, at),
        SourceKind::TwoProcedures(_) => hint_procedures(&names, at),
        _ => hint_not_declared(&names, at),
    }
}
