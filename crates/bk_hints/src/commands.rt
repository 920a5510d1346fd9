//! Commands that lack a word, or have one too many.

use crate::scene::Scene;
use crate::sentence::Reported;
use bk_lex::Kind;
use std::alloc::AllocError;

/// How many commands are tried at most.
const TRIED: usize = 8;

/// The nearest symbol before the refused one, of these kinds, that makes it right where the other kind is in its place.
fn turned(scene: &Scene, kinds: &[Kind], other: Kind) -> Result<Option<usize>, AllocError> {
    let mut tries = 0;
    for count in 1..scene.at.saturating_add(1) {
        let index = scene.at.saturating_sub(count);
        if tries < TRIED && scene.kind(index).is_some_and(|kind| kinds.contains(&kind)) {
            tries += 1;
            if scene.wants_at(index, other)? || is_right_else(scene, index, other)? {
                return Ok(Some(index));
            }
        }
    }
    Ok(None)
}

/// Whether the refused symbol is ELSE after a `;`, and right without it where this kind is at an index.
fn is_right_else(scene: &Scene, index: usize, other: Kind) -> Result<bool, AllocError> {
    if scene.refused() != Some(Kind::Or) || scene.before(1) != Some(Kind::Semicolon) {
        return Ok(false);
    }
    let next = index.saturating_add(1);
    let end = scene.at.saturating_sub(1);
    scene.goes_with(index, &[other], next, end, &[Kind::Or])
}

/// What is reported of ELSE that no TEST awaits.
pub fn hint_else(scene: &Scene) -> Result<Option<Reported>, AllocError> {
    if scene.refused() != Some(Kind::Or) {
        return Ok(None);
    }
    if let Some(before) = scene.back(1) {
        if scene.kind(before) == Some(Kind::Semicolon) && scene.is_right_without(before)? {
            let sentence = scene
                .sentence()
                .say("no `;` goes before ")?
                .quote(scene.spelling(scene.at))?;
            return Ok(Some(scene.reported(before, sentence)));
        }
    }
    if let Some(index) = turned(scene, &[Kind::If, Kind::Unless], Kind::Test)? {
        let sentence = scene
            .sentence()
            .say("the ")?
            .quote(scene.spelling(index))?
            .say(" of ")?
            .line(scene.line(index))?
            .say(" takes no ")?
            .quote(scene.spelling(scene.at))?
            .say("; `TEST E THEN C ELSE C` does, with no `;` before `ELSE`")?;
        return Ok(Some(scene.reported(scene.at, sentence)));
    }
    if scene.lacks(&[Kind::SectionClose])? {
        let sentence = scene
            .sentence()
            .say("a `$)` is missing before ")?
            .quote(scene.spelling(scene.at))?;
        return Ok(Some(Reported::at(scene.gap(), sentence)));
    }
    if scene.means(Kind::Bar)? {
        return Ok(Some(scene.here("`|` is or; `OR` is another spelling of `ELSE`")?));
    }
    Ok(Some(scene.here(
        "`ELSE` belongs to `TEST E THEN C ELSE C`, with no `;` before it; `IF` takes none",
    )?))
}

/// What is reported of a TEST that lacks ELSE.
pub fn hint_test(scene: &Scene) -> Result<Option<Reported>, AllocError> {
    if !scene.takes(Kind::Or)? {
        return Ok(None);
    }
    let next = scene.at.saturating_add(1);
    if scene.refused() == Some(Kind::Semicolon) && scene.kind(next) == Some(Kind::Or) {
        let sentence = scene
            .sentence()
            .say("no `;` goes before ")?
            .quote(scene.spelling(next))?;
        return Ok(Some(scene.reported(scene.at, sentence)));
    }
    if let Some(index) = turned(scene, &[Kind::Test], Kind::If)? {
        let sentence = scene
            .sentence()
            .say("the `TEST` of ")?
            .line(scene.line(index))?
            .say(" needs `ELSE` (or `OR`); `IF` takes none")?;
        return Ok(Some(scene.reported(index, sentence)));
    }
    let sentence = scene
        .sentence()
        .say("the `ELSE` of a TEST is missing before ")?;
    Ok(Some(Reported::at(scene.gap(), scene.name_refused(sentence)?)))
}

/// What is reported of `:=` where `=` is due, and of `=` where `:=` is.
pub fn hint_equal(scene: &Scene) -> Result<Option<Reported>, AllocError> {
    match scene.refused() {
        Some(Kind::Assign) if scene.means(Kind::Equal)? => {
            let declares = [Kind::Let, Kind::And, Kind::For]
                .iter()
                .any(|kind| scene.nearest(*kind).is_some());
            Ok(Some(scene.here(if declares || is_item(scene) {
                "a declaration and `FOR` have `=` here; `:=` assigns in a command"
            } else {
                "`:=` assigns, in a command of its own; `=` compares"
            })?))
        }
        Some(Kind::Equal) if scene.means(Kind::Assign)? => Ok(Some(scene.here(
            "`:=` assigns; `=` compares and declares",
        )?)),
        _ => Ok(None),
    }
}

/// Whether the refused symbol is after the name of an item of MANIFEST, STATIC or GLOBAL.
fn is_item(scene: &Scene) -> bool {
    scene.before(1) == Some(Kind::Name)
        && matches!(scene.before(2), Some(Kind::SectionOpen | Kind::Semicolon))
}

/// What is reported where a line begins with a symbol before which a `;` was inserted that is refused.
pub fn hint_inserted(scene: &Scene) -> Result<Option<Reported>, AllocError> {
    if !scene.is_inserted(scene.at) || !matches!(scene.following(), Some(Kind::Open | Kind::Bang)) {
        return Ok(None);
    }
    let next = scene.at.saturating_add(1);
    let Some(before) = scene.back(1) else {
        return Ok(None);
    };
    if !scene.goes(scene.at, &[], next, next.saturating_add(1))? {
        return Ok(None);
    }
    let sentence = scene
        .sentence()
        .say("a `;` was inserted before the ")?
        .quote(scene.spelling(next))?
        .say(", since ")?
        .line(scene.line(next))?
        .say(" begins with it; it belongs after ")?
        .quote(scene.spelling(before))?
        .say(" on ")?
        .line(scene.line(before))?;
    Ok(Some(scene.reported(before, sentence)))
}

/// Whether the refused symbol is DO or THEN where a command may begin, perhaps after a `;`.
fn is_begun_by_do(scene: &Scene) -> Result<bool, AllocError> {
    if scene.is_inserted(scene.at) {
        return Ok(false);
    }
    let at = scene.at;
    Ok(scene.takes(Kind::If)? || scene.goes(at, &[Kind::Semicolon, Kind::If], at, at)?)
}

/// What is reported of DO or THEN where a command may begin.
pub fn hint_do(scene: &Scene) -> Result<Option<Reported>, AllocError> {
    if scene.refused() != Some(Kind::Do) || !is_begun_by_do(scene)? {
        return Ok(None);
    }
    Ok(Some(scene.here(
        "`DO` and `THEN` begin no command; a loop with its test at the end is `C REPEATWHILE E`",
    )?))
}

/// What is reported where the `,` of a choice is due.
pub fn hint_choice(scene: &Scene) -> Result<Option<Reported>, AllocError> {
    let Some(arrow) = scene.nearest(Kind::Arrow) else {
        return Ok(None);
    };
    if !scene.takes(Kind::Comma)? || scene.takes(Kind::Semicolon)? || scene.takes(Kind::Close)? {
        return Ok(None);
    }
    let sentence = scene.sentence().say(
        "`C -> A, B` has a `,` and a second value; a field of a structure is `P!F`",
    )?;
    Ok(Some(scene.reported(arrow, sentence)))
}

/// What is reported of a word that is a command of another kind in C.
pub fn hint_misused(scene: &Scene) -> Result<Option<Reported>, AllocError> {
    let words = match (scene.before(1), scene.refused()) {
        (Some(Kind::Repeat), Some(Kind::Until | Kind::While)) => {
            "`REPEATUNTIL E` and `REPEATWHILE E` are one word each"
        }
        (Some(Kind::Colon), Some(Kind::Let | Kind::Manifest | Kind::Static | Kind::Global)) => {
            "a label, CASE or DEFAULT goes before a command, and a declaration is none: `$(` and `$)` around this one and its commands make a block"
        }
        (_, Some(Kind::Repeat | Kind::RepeatUntil | Kind::RepeatWhile)) => {
            "`REPEAT`, `REPEATUNTIL E` and `REPEATWHILE E` come after the command that they repeat"
        }
        (Some(Kind::Return), _) if starts_operand(scene) => {
            "`RETURN` takes no value; `RESULTIS E` gives that of a `VALOF`. If a command begins here, `;` is missing"
        }
        (Some(Kind::ResultIs), Some(Kind::Semicolon | Kind::SectionClose) | None)
            if !scene.is_needless()? => { "`RESULTIS` needs a value; `RETURN` takes none" }
        (Some(Kind::For), Some(Kind::Open)) =>
            "a FOR is `FOR I = A TO B DO C`, without parentheses",
        (Some(Kind::Let | Kind::And), Some(Kind::Vec)) => "a vector is `LET V = VEC N`",
        (_, Some(Kind::Vec)) if scene.takes(Kind::Number)? => {
            "`VEC N` goes only after the `=` of a LET in a block; a STATIC has a constant for its value"
        }
        (Some(Kind::Name | Kind::Number | Kind::Close), Some(Kind::Query)) => {
            "`C -> A, B` chooses one of two values; `?` is a value that is not set"
        }
        (_, Some(Kind::Do)) if scene.takes(Kind::To)? => {
            "`TO` and the limit are missing: `FOR I = A TO B DO C`"
        }
        (_, Some(Kind::Comma | Kind::To)) if scene.nearest(Kind::Case).is_some() => {
            "a CASE takes one constant: `CASE 1: CASE 2: C`"
        }
        _ => return Ok(None),
    };
    Ok(Some(scene.here(words)?))
}

/// Whether the refused symbol begins an operand.
pub fn starts_operand(scene: &Scene) -> bool {
    matches!(
        scene.refused(),
        Some(
            Kind::Name
                | Kind::Number
                | Kind::Text
                | Kind::Character
                | Kind::True
                | Kind::False
                | Kind::Open
                | Kind::Minus
                | Kind::Bang
                | Kind::At
                | Kind::Query
        )
    )
}
