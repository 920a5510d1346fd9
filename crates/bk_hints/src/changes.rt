//! What is reported of the one symbol that is missing, too many or another.

use crate::brackets::OpenSections;
use crate::due::spelling;
use crate::near::is_list;
use crate::reader::{Part, State};
use crate::repair::{Edit, Near, Repair, find_repair};
use crate::scene::Scene;
use crate::sentence::{Reported, Sentence};
use bk_grammar::symbols::{infix, starts_operand};
use bk_lex::Kind;
use std::alloc::AllocError;

/// The sentence, at the gap before a symbol, which is named.
fn before(scene: &Scene, index: usize, sentence: Sentence) -> Result<Reported, AllocError> {
    let sentence = scene.name_at(index, sentence)?;
    let at = scene.gap_at(index);
    let sentence = if scene.kind(index).is_none() || at == scene.spot(index) {
        sentence
    } else {
        sentence.say(" of ")?.line(scene.line(index))?
    };
    Ok(Reported::at(at, sentence))
}

/// What is reported of a missing operand, name or command.
fn lacks_operand(
    scene: &Scene,
    near: &Near,
    repair: &Repair,
    index: usize,
) -> Result<Reported, AllocError> {
    let words = match repair.state {
        State::Begin | State::Maybe => "a command is missing before ",
        State::Due => "a name is missing before ",
        _ => "an expression is missing before ",
    };
    let reported = before(scene, index, scene.sentence().say(words)?)?;
    let Some(last) = near.symbols.get(repair.place.saturating_sub(1)) else {
        return Ok(reported);
    };
    if !is_operator(last.kind) && last.kind != Kind::Comma {
        return Ok(reported);
    }
    let sentence = reported
        .sentence
        .say(", or the ")?
        .quote(last.text)?
        .say(" before it is one too many")?;
    Ok(Reported::at(reported.at, sentence))
}

/// The last TEST before a symbol that has no ELSE before it.
fn last_test(scene: &Scene, index: usize) -> Option<usize> {
    let mut complete: usize = 0;
    for count in 1..index.saturating_add(1) {
        let there = index.checked_sub(count)?;
        match scene.kind(there) {
            Some(Kind::Or) => complete = complete.saturating_add(1),
            Some(Kind::Test) if complete == 0 => return Some(there),
            Some(Kind::Test) => complete = complete.saturating_sub(1),
            _ => {}
        }
    }
    None
}

/// What is reported of the missing ELSE of a TEST.
fn lacks_else(scene: &Scene, index: usize) -> Result<Reported, AllocError> {
    let sentence = scene.sentence().say("the `ELSE` (or `OR`) of the `TEST`")?;
    let test = last_test(scene, index);
    let sentence = match test {
        Some(test) => sentence.say(" of ")?.line(scene.line(test))?,
        None => sentence,
    };
    let reported = before(scene, index, sentence.say(" is missing before ")?)?;
    reported
        .and(test.and_then(|test| scene.spot(test)))
        .say("; `IF` takes none")
}

/// The index of the innermost `(` that is open before a symbol.
fn opening(scene: &Scene, index: usize) -> Option<usize> {
    let mut depth: usize = 0;
    for count in 1..index.min(scene.tokens.len()).saturating_add(1) {
        let there = index.min(scene.tokens.len()).checked_sub(count)?;
        match scene.kind(there) {
            Some(Kind::Close) => depth = depth.saturating_add(1),
            Some(Kind::Open) if depth == 0 => return Some(there),
            Some(Kind::Open) => depth = depth.saturating_sub(1),
            _ => {}
        }
    }
    None
}

/// What is reported of a `(` that is not closed.
fn lacks_close(scene: &Scene, index: usize) -> Result<Reported, AllocError> {
    let open = opening(scene, index);
    let sentence = match open {
        Some(open) => scene
            .sentence()
            .say("the `(` of ")?
            .line(scene.line(open))?
            .say(" is never closed: `)` is missing before ")?,
        None => scene.sentence().say("`)` is missing before ")?,
    };
    Ok(before(scene, index, sentence)?.and(open.and_then(|open| scene.spot(open))))
}

/// What is reported of a missing `$(`, where the refused symbol is outside procedures.
fn lacks_opening(scene: &Scene, index: usize) -> Result<Reported, AllocError> {
    let reported = before(
        scene,
        index,
        scene.sentence().say("`$(` is missing before ")?,
    )?;
    reported.say(", or a `$)` too many is further down")
}

/// What is reported of a `$(` that is not closed.
fn lacks_closing(scene: &Scene, near: &Near, index: usize) -> Result<Reported, AllocError> {
    let sentence = match near.open {
        Some(open) => scene
            .sentence()
            .say("the `$(` of ")?
            .line(scene.line(open))?
            .say(" is never closed: `$)` is missing before ")?,
        None => scene.sentence().say("`$)` is missing before ")?,
    };
    let open = near.open.and_then(|open| scene.spot(open));
    Ok(before(scene, index, sentence)?.and(open))
}

/// Whether the name before a place is called somewhere in the section, or is of the library.
fn is_called(scene: &Scene, near: &Near, place: usize) -> bool {
    let before = place.saturating_sub(1);
    let name = near.text(before);
    if near.kind(before) != Some(Kind::Name) {
        return false;
    }
    for (i, token) in scene.tokens.iter().enumerate() {
        if token.text.eq_ignore_ascii_case(name)
            && (token.place.is_none() || scene.kind(i.saturating_add(1)) == Some(Kind::Open))
        {
            return true;
        }
    }
    false
}

/// What is reported of a procedure that is followed by an argument.
fn lacks_parentheses(
    scene: &Scene,
    near: &Near,
    place: usize,
    index: usize,
) -> Result<Reported, AllocError> {
    let sentence = scene
        .sentence()
        .say("`(` is missing before ")?
        .quote(near.text(place))?
        .say(": the arguments of a call go in parentheses, as in `")?
        .spell(near.text(place.saturating_sub(1)))?
        .say("(X, Y)`")?;
    Ok(scene.reported(index, sentence))
}

/// Whether an operator may be missing where a `;` may.
fn may_add(near: &Near, repair: &Repair) -> bool {
    matches!(repair.around, Some(Part::Assigned(_) | Part::ResultIs))
        && near.kind(repair.place) == Some(Kind::Name)
        && !near.is_first(repair.place)
}

/// What is reported of a missing VALOF.
fn lacks_valof(
    scene: &Scene,
    near: &Near,
    repair: &Repair,
    index: usize,
) -> Result<Reported, AllocError> {
    let reported = before(
        scene,
        index,
        scene.sentence().say("`VALOF` is missing before ")?,
    )?;
    match near.symbols.get(repair.place.saturating_sub(1)) {
        Some(last) if is_operator(last.kind) && repair.is_operand => reported.say(
            ", or the operator before it is one too many",
        ),
        _ => Ok(reported),
    }
}

/// What is reported of a missing symbol.
fn hint_lack(
    scene: &Scene,
    near: &Near,
    repair: &Repair,
    kind: Kind,
) -> Result<Reported, AllocError> {
    let sentence = scene.sentence();
    let index = near.gap(repair.place, scene.at);
    let sentence = match kind {
        Kind::Name => return lacks_operand(scene, near, repair, index),
        Kind::SectionOpen if near.is_outermost => return lacks_opening(scene, index),
        Kind::SectionClose => return lacks_closing(scene, near, index),
        Kind::Or => return lacks_else(scene, index),
        Kind::Plus => sentence.say("an operator is missing before ")?,
        Kind::Equal if matches!(repair.state, State::Have(_)) => {
            sentence.say("an operator, as `=`, is missing before ")?
        }
        Kind::Comma if is_list(repair.around) => {
            sentence.say("`,` (or an operator) is missing before ")?
        }
        Kind::Close => return lacks_close(scene, index),
        Kind::Assign if is_called(scene, near, repair.place) => {
            return lacks_parentheses(scene, near, repair.place, index);
        }
        Kind::Semicolon if may_add(near, repair) => {
            sentence.say("`;` (or an operator) is missing before ")?
        }
        Kind::Valof => return lacks_valof(scene, near, repair, index),
        Kind::Do => sentence.say("`DO` (or `THEN`) is missing before ")?,
        Kind::Be => sentence.say("`BE` (or `=`) is missing before ")?,
        _ => sentence.quote(spelling(kind))?.say(" is missing before ")?,
    };
    before(scene, index, sentence)
}

/// Whether an operand comes after a symbol.
fn awaits_operand(kind: Kind) -> bool {
    is_operator(kind) || matches!(kind, Kind::Comma | Kind::Arrow | Kind::Not | Kind::At)
}

/// Whether a symbol is an operator between two operands.
fn is_operator(kind: Kind) -> bool {
    infix(kind).is_some()
}

/// The sentence with what is reported after it of a `;` too many.
fn semicolon_extra(near: &Near, place: usize, sentence: Sentence) -> Result<Sentence, AllocError> {
    let sentence = sentence.say("this `;` is one too many")?;
    let before = place.saturating_sub(1);
    let after = place.saturating_add(1);
    if near.kind(after) == Some(Kind::Or) {
        return sentence
            .say(": no `;` goes before ")?
            .quote(near.text(after));
    }
    match near.kind(before) {
        Some(Kind::Do | Kind::Be | Kind::Into | Kind::Or) => sentence
            .say(": a command is due after ")?
            .quote(near.text(before))?
            .say(", and `$( $)` does nothing"),
        _ => Ok(sentence),
    }
}

/// What is reported of a symbol that is one too many.
fn hint_extra(scene: &Scene, near: &Near, repair: &Repair) -> Result<Reported, AllocError> {
    let index = near.index(repair.place);
    let spelled = near.text(repair.place);
    let sentence = scene.sentence();
    let kind = near.kind(repair.place);
    let last = repair.place.saturating_sub(1);
    let awaits = repair.state == State::Want && near.kind(last).is_some_and(awaits_operand);
    if awaits && !kind.is_some_and(starts_operand) {
        let sentence = sentence
            .say("one of ")?
            .quote(near.text(last))?
            .say(" and ")?
            .quote(spelled)?
            .say(" is one too many, or an operand is missing between them")?;
        return Ok(scene.reported(index, sentence));
    }
    if matches!(
        kind,
        Some(Kind::Name | Kind::Number | Kind::Character | Kind::Text)
    ) {
        let sentence = sentence.say("this ")?.quote(spelled)?.say(if is_list(repair.around) {
            " is one too many, or `,` or an operator is missing before it"
        } else {
            " is one too many, or an operator is missing before it"
        })?;
        return Ok(scene.reported(index, sentence));
    }
    let sentence = match near.kind(repair.place) {
        Some(Kind::Close) => sentence.say(
            "this `)` closes nothing: it is one too many, or its `(` is missing",
        )?,
        Some(Kind::Do) if matches!(repair.state, State::Due | State::Begin) => sentence
            .say("this ")?
            .quote(spelled)?
            .say(
                " is one too many: `DO` and `THEN` begin no command; a loop with its test at the end is `C REPEATWHILE E`",
            )?,
        Some(Kind::Semicolon) => semicolon_extra(near, repair.place, sentence)?,
        Some(Kind::SectionClose) if near.is_outermost => sentence.say(
            "this `$)` is one too many, or its `$(` is missing",
        )?,
        Some(Kind::Valof) => sentence.say(
            "this `VALOF` is one too many: it takes a command, as `VALOF $( C; RESULTIS E $)`",
        )?,
        Some(kind) if is_operator(kind) => sentence
            .say("this ")?
            .quote(spelled)?
            .say(" is one too many, or an operand is missing after it")?,
        _ => sentence
            .say("this ")?
            .quote(spelled)?
            .say(" is one too many")?,
    };
    Ok(scene.reported(index, sentence))
}

/// What is reported of a symbol in the place of which another is meant.
fn hint_other(
    scene: &Scene,
    near: &Near,
    repair: &Repair,
    kind: Kind,
) -> Result<Reported, AllocError> {
    let index = near.index(repair.place);
    let words = match (near.kind(repair.place), kind) {
        (Some(Kind::Assign), _) if repair.state == State::Due => {
            "a declaration and `FOR` have `=` here; `:=` assigns in a command"
        }
        (Some(Kind::Assign), _) => "`:=` assigns, in a command of its own; `=` compares",
        (Some(Kind::Equal), Kind::Assign) => {
            "`=` compares, which is no command; perhaps `:=` is meant, which assigns"
        }
        (Some(Kind::And), _) => "`&` is and; `AND` joins declarations",
        (Some(Kind::Or), _) => "`|` is or; `OR` is another spelling of `ELSE`",
        _ => "",
    };
    if !words.is_empty() {
        return Ok(scene.reported(index, scene.sentence().say(words)?));
    }
    if kind == Kind::Test {
        let sentence = scene
            .sentence()
            .say("the ")?
            .quote(near.text(repair.place))?
            .say(" of ")?
            .line(scene.line(index))?
            .say(
                " takes no `ELSE` (or `OR`); `TEST E THEN C ELSE C` does, with no `;` before `ELSE`",
            )?;
        return Ok(scene.reported(index, sentence));
    }
    let sentence = scene
        .sentence()
        .quote(spelling(kind))?
        .say(" is meant here, perhaps, in the place of ")?
        .quote(near.text(repair.place))?;
    Ok(scene.reported(index, sentence))
}

/// What is reported where several `)` are missing, as far as is known.
pub fn hint_closes(scene: &Scene) -> Result<Option<Reported>, AllocError> {
    let before = scene.at.saturating_sub(1);
    let ends_line = scene.refused().is_none() || scene.line(before) != scene.line(scene.at);
    if opening(scene, scene.at).is_some() && ends_line && scene.takes(Kind::Close)? {
        return Ok(Some(lacks_close(scene, scene.at)?));
    }
    Ok(None)
}

/// What is reported where the change of one symbol makes the text right, or more of it.
pub fn hint_change(scene: &Scene, opened: &OpenSections) -> Result<Option<Reported>, AllocError> {
    let (near, found) = find_repair(scene, opened.indices.last().copied())?;
    let Some(repair) = found else {
        return Ok(None);
    };
    let reported = match repair.edit {
        Edit::Insert(kind) => hint_lack(scene, &near, &repair, kind)?,
        Edit::Delete => hint_extra(scene, &near, &repair)?,
        Edit::Replace(kind) => hint_other(scene, &near, &repair, kind)?,
    };
    Ok(Some(reported))
}
