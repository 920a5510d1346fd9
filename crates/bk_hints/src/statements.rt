//! Commands and declarations that are whole but wrong: names alone, expressions, items, and what is outside procedures.

use crate::brackets::OpenSections;
use crate::commands::starts_operand;
use crate::repair::begins_command;
use crate::scene::Scene;
use crate::sentence::Reported;
use bk_lex::Kind;
use std::alloc::AllocError;

/// Whether a spelling is of letters alone, as reserved words are.
fn is_word(spelling: &[u8]) -> bool {
    match spelling {
        [first, ..] => first.is_ascii_alphabetic(),
        [] => false,
    }
}

/// What is reported of a dot that belongs to the name before the refused symbol.
pub fn hint_dot(scene: &Scene) -> Result<Option<Reported>, AllocError> {
    let Some(before) = scene.back(1) else {
        return Ok(None);
    };
    let spelling = scene.spelling(before);
    if scene.kind(before) != Some(Kind::Name) || spelling.last().copied() != Some(b'.') {
        return Ok(None);
    }
    let sentence = scene
        .sentence()
        .say("the `.` belongs to the name ")?
        .quote(spelling)?
        .say("; a blank goes before the `.` that ends a section")?;
    Ok(Some(scene.reported(before, sentence)))
}

/// What is reported of a variable that is declared outside procedures.
pub fn hint_outermost(
    scene: &Scene,
    opened: &OpenSections,
) -> Result<Option<Reported>, AllocError> {
    if !opened.indices.is_empty() {
        return Ok(None);
    }
    let words = match (scene.before(2), scene.before(1), scene.refused()) {
        (Some(Kind::Let | Kind::And), Some(Kind::Name), Some(Kind::Equal | Kind::Assign)) => {
            if scene.following() == Some(Kind::Vec) {
                "outside procedures LET declares procedures alone; a vector is a LET of START, and a global or STATIC takes its address"
            } else {
                "outside procedures LET declares procedures alone; `STATIC $( N = E $)` declares a variable, and MANIFEST a constant"
            }
        }
        (Some(Kind::Let | Kind::And), Some(Kind::Name), Some(Kind::Comma)) => {
            "outside procedures LET declares procedures alone; `STATIC $( N = E $)` declares a variable, and MANIFEST a constant"
        }
        _ => return hint_command_outside(scene),
    };
    Ok(Some(scene.here(words)?))
}

/// Whether the refused name begins a procedure that lacks its LET: `F(X) BE` or `F(X) =`.
fn lacks_let(scene: &Scene) -> bool {
    let start = scene.at.saturating_add(1);
    if scene.refused() != Some(Kind::Name) || scene.kind(start) != Some(Kind::Open) {
        return false;
    }
    for index in start.saturating_add(1)..scene.tokens.len() {
        match scene.kind(index) {
            Some(Kind::Name | Kind::Comma) => {}
            Some(Kind::Close) => {
                return matches!(
                    scene.kind(index.saturating_add(1)),
                    Some(Kind::Be | Kind::Equal)
                );
            }
            _ => return false,
        }
    }
    false
}

/// What is reported of a command that is outside procedures.
fn hint_command_outside(scene: &Scene) -> Result<Option<Reported>, AllocError> {
    if !scene.takes(Kind::Let)? || !scene.takes(Kind::Semicolon)? {
        return Ok(None);
    }
    if lacks_let(scene) {
        return Ok(Some(scene.here("`LET` is missing before this procedure")?));
    }
    let is_after_semicolon = scene.before(1) == Some(Kind::Semicolon) && scene.before(2).is_some();
    Ok(match scene.refused() {
        Some(Kind::Equal | Kind::Be | Kind::SectionClose) | None => None,
        Some(_) if scene.is_inserted(scene.at) => None,
        Some(Kind::SectionOpen) => Some(scene.here(
            "a block goes only in a procedure: perhaps `BE` is missing before it, or a `$)` too many is above",
        )?),
        Some(_)
            if is_after_semicolon || scene.at == 0 || scene.before(1) == Some(Kind::SectionClose) =>
            Some(scene.here(
                "outside procedures only declarations go: LET, MANIFEST, STATIC, GLOBAL and GET; perhaps a `$)` too many is above",
            )?),
        Some(_) => None,
    })
}

/// The word that begins the list of items that the refused symbol is in.
fn list_word(scene: &Scene, opened: &OpenSections) -> Option<Kind> {
    let open = opened.indices.last().copied()?;
    let kind = scene.kind(open.checked_sub(1)?)?;
    if matches!(kind, Kind::Manifest | Kind::Static | Kind::Global) {
        Some(kind)
    } else {
        None
    }
}

/// What is reported of the items of MANIFEST, STATIC and GLOBAL.
pub fn hint_items(scene: &Scene, opened: &OpenSections) -> Result<Option<Reported>, AllocError> {
    if matches!(
        scene.before(1),
        Some(Kind::Manifest | Kind::Static | Kind::Global)
    ) && scene.following() != Some(Kind::SectionOpen)
    {
        let word = scene.spelling(scene.at.saturating_sub(1));
        let sentence = scene
            .sentence()
            .say("`$(` is missing: items go between brackets, as `")?
            .spell(word)?;
        let sentence = if scene.before(1) == Some(Kind::Global) {
            sentence.say(" $( N:100 $)`")?
        } else {
            sentence.say(" $( N = 1 $)`")?
        };
        return Ok(Some(scene.reported(scene.at, sentence)));
    }
    let Some(word) = list_word(scene, opened) else {
        return Ok(None);
    };
    let words = match scene.refused() {
        Some(Kind::Vec) => {
            "`VEC` goes only in a LET of a block; a STATIC has a constant for its value, and a vector's address is put there by `:=`"
        }
        Some(Kind::Comma) => "`;` goes between two items",
        Some(Kind::Assign) if scene.before(1) == Some(Kind::Name) =>
            "an item has `=` before its value; `:=` assigns in a command",
        Some(Kind::SectionClose) if matches!(scene.before(1), Some(Kind::SectionOpen)) => {
            "at least one item goes between `$(` and `$)`"
        }
        _
            if scene.before(1) == Some(Kind::Name)
                && !matches!(
                    scene.following(),
                    Some(Kind::Colon | Kind::Equal | Kind::Assign)
                )
                && scene.takes(Kind::Colon)? => {
            return Ok(Some(hint_item(scene, word)?));
        }
        _ => return Ok(None),
    };
    Ok(Some(scene.here(words)?))
}

/// What is reported of an item without its number or value.
fn hint_item(scene: &Scene, word: Kind) -> Result<Reported, AllocError> {
    let before = scene.at.saturating_sub(1);
    let sentence = scene
        .sentence()
        .say("the item ")?
        .quote(scene.spelling(before))?;
    let sentence = if word == Kind::Global {
        sentence
            .say(" lacks `:` and its number: `")?
            .spell(scene.spelling(before))?
            .say(":100`")?
    } else {
        sentence
            .say(" lacks `=` and its value: `")?
            .spell(scene.spelling(before))?
            .say(" = 0`")?
    };
    Ok(scene.reported(before, sentence))
}

/// What is reported of a reserved word where a name is due.
pub fn hint_reserved(scene: &Scene) -> Result<Option<Reported>, AllocError> {
    let spelling = scene.spelling(scene.at);
    if !is_word(spelling) || scene.refused() == Some(Kind::Name) || !scene.takes(Kind::Name)? {
        return Ok(None);
    }
    let is_sure = matches!(
        scene.before(1),
        Some(Kind::Let | Kind::And | Kind::For | Kind::Goto)
    );
    if scene.following() == Some(Kind::Name) || !is_sure && !names_thing(scene) {
        return Ok(None);
    }
    let sentence = scene
        .sentence()
        .quote(spelling)?
        .say(" is a reserved word, so it can be no name")?;
    Ok(Some(scene.reported(scene.at, sentence)))
}

/// Whether what is after the refused word goes on with a name.
fn names_thing(scene: &Scene) -> bool {
    !scene.refused().is_some_and(begins_command)
        && matches!(
            scene.following(),
            Some(
                Kind::Equal
                    | Kind::Assign
                    | Kind::Comma
                    | Kind::Close
                    | Kind::Colon
                    | Kind::Semicolon
                    | Kind::Plus
                    | Kind::Star
                    | Kind::Slash
                    | Kind::Less
                    | Kind::Greater
                    | Kind::NotEqual
            )
        )
}

/// What is reported of a definition that lacks its parentheses, its value or its body.
pub fn hint_definition(scene: &Scene) -> Result<Option<Reported>, AllocError> {
    let is_head = matches!(scene.before(2), Some(Kind::Let | Kind::And))
        && scene.before(1) == Some(Kind::Name);
    if !is_head {
        return Ok(None);
    }
    let before = scene.at.saturating_sub(1);
    let sentence = scene.sentence();
    let sentence = match scene.refused() {
        Some(Kind::Be) => sentence
            .say("a procedure has parentheses: `")?
            .spell(scene.spelling(before))?
            .say("() BE`")?,
        Some(Kind::Semicolon | Kind::SectionClose | Kind::Let | Kind::And) => sentence
            .say("a variable has a value: `LET ")?
            .spell(scene.spelling(before))?
            .say(" = 0`, or `= ?` to leave it unset")?,
        _ => return Ok(None),
    };
    Ok(Some(scene.reported(before, sentence)))
}

/// Whether the refused symbol ends a command.
fn ends_command(scene: &Scene) -> bool {
    matches!(
        scene.refused(),
        None | Some(
            Kind::Semicolon
                | Kind::SectionClose
                | Kind::Or
                | Kind::Let
                | Kind::Repeat
                | Kind::RepeatUntil
                | Kind::RepeatWhile
        )
    ) || scene.is_inserted(scene.at)
}

/// Whether a GOTO of the section names what a symbol does.
fn is_label(scene: &Scene, index: usize) -> bool {
    let name = scene.spelling(index);
    for (i, token) in scene.tokens.iter().enumerate() {
        if token.text.eq_ignore_ascii_case(name) && scene.before_at(i) == Some(Kind::Goto) {
            return true;
        }
    }
    false
}

/// What is reported of a name in the place of a command.
pub fn hint_name(scene: &Scene) -> Result<Option<Reported>, AllocError> {
    let start = scene.statement();
    let is_name = start.saturating_add(1) == scene.at && scene.kind(start) == Some(Kind::Name);
    if !is_name || !ends_command(scene) || !scene.takes(Kind::Assign)? {
        return Ok(None);
    }
    if !scene.is_inserted_end() && scene.is_needless()? {
        return Ok(None);
    }
    let name = scene.spelling(start);
    if is_label(scene, start) {
        let sentence = scene
            .sentence()
            .say("`:` is missing after the label ")?
            .quote(name)?;
        return Ok(Some(scene.reported(start, sentence)));
    }
    let sentence = scene
        .sentence()
        .say("a name alone is no command: `")?
        .spell(name)?
        .say("()` calls it")?;
    Ok(Some(scene.reported(start, sentence)))
}

/// What is reported of an expression in the place of a command, which is no call.
pub fn hint_expression(scene: &Scene) -> Result<Option<Reported>, AllocError> {
    if !ends_command(scene) || !scene.takes(Kind::Assign)? && !scene.takes(Kind::Plus)? {
        return Ok(None);
    }
    let start = scene.statement();
    if starts_command_word(scene, start) {
        return Ok(None);
    }
    for index in start..scene.at {
        if scene.kind(index) == Some(Kind::Equal) && scene.wants_at(index, Kind::Assign)? {
            let sentence = scene.sentence().say(
                "`=` compares, which is no command; perhaps `:=` is meant, which assigns",
            )?;
            return Ok(Some(scene.reported(index, sentence)));
        }
        if scene.kind(index) == Some(Kind::Equal) {
            break;
        }
    }
    if scene.goes(
        scene.at,
        &[Kind::Assign, Kind::Number],
        scene.at,
        scene.at.saturating_add(1),
    )? {
        let sentence = scene.sentence().say(
            "an expression is a command only where it is a call, as `F()` is",
        )?;
        return Ok(Some(scene.reported(start, sentence)));
    }
    Ok(None)
}

/// Whether a symbol with this index begins a command or declaration by a word.
fn starts_command_word(scene: &Scene, index: usize) -> bool {
    is_word(scene.spelling(index)) && scene.kind(index) != Some(Kind::Name)
}

/// What is reported of lists of destinations, names and values.
pub fn hint_counts(scene: &Scene) -> Result<Option<Reported>, AllocError> {
    if scene.refused() == Some(Kind::Comma) && scene.means(Kind::And)? {
        return Ok(Some(scene.here(
            "a LET has as many values as names; `AND` joins a second declaration, as `LET A = 1 AND B = 2`",
        )?));
    }
    let is_value = ends_command(scene) && scene.takes(Kind::Comma)? && scene.takes(Kind::Plus)?;
    if !is_value || scene.takes(Kind::Close)? {
        return Ok(None);
    }
    let has_names = scene.nearest(Kind::Comma).is_some()
        && (scene.nearest(Kind::Assign).is_some() || scene.nearest(Kind::Let).is_some());
    if !has_names {
        return Ok(None);
    }
    let sentence = scene.sentence().say(
        "there are as many values as names or destinations; a `,` and a value are missing",
    )?;
    Ok(Some(Reported::at(scene.gap(), sentence)))
}

/// What is reported of a name or an operand after another.
pub fn hint_arguments(scene: &Scene) -> Result<Option<Reported>, AllocError> {
    let before = scene.at.saturating_sub(1);
    if scene.kind(before) != Some(Kind::Name)
        || !starts_operand(scene)
        || scene.statement() != before
    {
        return Ok(None);
    }
    let sentence = scene
        .sentence()
        .quote(scene.spelling(before))?
        .say(" is followed by ")?
        .quote(scene.spelling(scene.at))?
        .say("; perhaps a call is meant: its arguments go in parentheses, as in `F(X, Y)`")?;
    Ok(Some(scene.reported(scene.at, sentence)))
}
