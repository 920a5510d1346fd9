//! Section brackets: `$(` that is not closed, `$)` that closes nothing, and their tags.

use crate::scene::Scene;
use crate::sentence::Reported;
use bk_grammar::spelling::{same_tag, tag};
use bk_lex::{Kind, Token};
use std::alloc::{AllocError, Global};

/// The tag of a bracket with this index.
fn tag_at<'a>(tokens: &[Token<'a>], index: usize) -> &'a [u8] {
    match tokens.get(index) {
        Some(token) => tag(token.text),
        None => &[],
    }
}

/// Takes the `$(`s away that a `$)` with this tag closes, and answers the outermost of them.
fn close(tokens: &[Token], opened: &mut Vec<usize>, wanted: &[u8]) -> Option<usize> {
    for _ in 0..opened.len() {
        let index = opened.pop()?;
        if wanted.is_empty() || same_tag(wanted, tag_at(tokens, index)) {
            return Some(index);
        }
    }
    None
}

/// The sections that are open before a symbol.
#[derive(Drop)]
pub struct OpenSections {
    /// The indices of their `$(`s, outermost first.
    pub indices: Vec<usize>,
    /// The first `$(` and `$)` that close each other where the `$)` begins a line further left than the line of the `$(`.
    pub uneven: Option<(usize, usize)>,
}

/// Whether a `$)` begins a line that is further left than the line of its `$(`.
fn is_uneven(scene: &Scene, open: usize, close: usize) -> bool {
    let Some(place) = scene.place(close) else {
        return false;
    };
    let line = scene.line(close);
    let left = scene.lines.indentation(scene.text, line);
    line != scene.line(open)
        && scene.lines.is_first(scene.text, line, place)
        && left < scene.lines.indentation(scene.text, scene.line(open))
}

/// The sections that are open before the refused symbol.
pub fn open_sections(scene: &Scene) -> Result<OpenSections, AllocError> {
    let mut indices = Vec::new(scene.alloc);
    let mut uneven = None;
    for (i, token) in scene.tokens.iter().enumerate() {
        if i >= scene.at {
            return Ok(OpenSections { indices, uneven });
        }
        if token.kind == Kind::SectionOpen {
            indices.push(i)?;
        } else if token.kind == Kind::SectionClose {
            if let Some(open) = close(scene.tokens, &mut indices, tag(token.text)) {
                if uneven.is_none() && is_uneven(scene, open, i) {
                    uneven = Some((open, i));
                }
            }
        }
    }
    Ok(OpenSections { indices, uneven })
}

/// What is reported where a `$(` is not closed: which one, or perhaps which, by how the lines are.
fn hint_unclosed(scene: &Scene, opened: &OpenSections) -> Result<Option<Reported>, AllocError> {
    let Some(open) = opened.indices.last().copied() else {
        return Ok(None);
    };
    if let Some((first, last)) = opened.uneven {
        if open < first {
            let sentence = scene
                .sentence()
                .say("a `$)` is missing; perhaps the `$(` of ")?
                .line(scene.line(first))?
                .say(" is never closed, since the `$)` of ")?
                .line(scene.line(last))?
                .say(" is further left")?;
            return Ok(Some(scene.reported(first, sentence).and(scene.spot(last))));
        }
    }
    let sentence = scene
        .sentence()
        .say("the `$(` of ")?
        .line(scene.line(open))?
        .say(" is never closed: `")?
        .say("$)")?
        .spell(tag_at(scene.tokens, open))?
        .say("` is missing")?;
    Ok(Some(scene.reported(open, sentence).and(scene.spot(scene.at))))
}

/// What is reported where a section is refused at its end.
pub fn hint_end(scene: &Scene, opened: &OpenSections) -> Result<Option<Reported>, AllocError> {
    if scene.at < scene.tokens.len() {
        return Ok(None);
    }
    if let Some(dot) = scene.dot {
        let before = dot.checked_sub(1);
        let byte = match before {
            Some(before) => scene.text.get(before).copied(),
            None => None,
        };
        if byte.is_some_and(|byte| byte.is_ascii_digit()) {
            return Ok(Some(scene.here(
                "a `.` after a number ends the section; perhaps floating point is meant, which there is not",
            )?));
        }
    }
    hint_unclosed(scene, opened)
}

/// Reserved words that are often written at once after a bracket.
static GLUED: [&[u8]; 24] = [
    b"LET",
    b"IF",
    b"UNLESS",
    b"TEST",
    b"WHILE",
    b"UNTIL",
    b"FOR",
    b"SWITCHON",
    b"CASE",
    b"DEFAULT",
    b"RESULTIS",
    b"RETURN",
    b"FINISH",
    b"BREAK",
    b"LOOP",
    b"ENDCASE",
    b"GOTO",
    b"MANIFEST",
    b"STATIC",
    b"GLOBAL",
    b"OR",
    b"ELSE",
    b"REPEAT",
    b"AND",
];

/// Reserved words of more letters that are often written at once after a bracket.
static GLUED_LONG: [&[u8]; 2] = [b"REPEATWHILE", b"REPEATUNTIL"];

/// Whether a tag is a reserved word.
fn is_reserved(tag: &[u8]) -> bool {
    for word in &GLUED {
        if word.eq_ignore_ascii_case(tag) {
            return true;
        }
    }
    for word in &GLUED_LONG {
        if word.eq_ignore_ascii_case(tag) {
            return true;
        }
    }
    false
}

/// A bracket with this index has a tag that was perhaps meant as a word of its own.
fn hint_tag(scene: &Scene, index: usize) -> Result<Reported, AllocError> {
    let bracket = if scene.kind(index) == Some(Kind::SectionOpen) {
        "`$(`"
    } else {
        "`$)`"
    };
    let sentence = scene
        .sentence()
        .quote(tag_at(scene.tokens, index))?
        .say(" is taken as the tag of the ")?
        .say(bracket)?
        .say(" of ")?
        .line(scene.line(index))?
        .say(", since it comes directly after it: a blank is missing")?;
    Ok(scene.reported(index, sentence).and(scene.spot(scene.at)))
}

/// What is reported where the command before the refused symbol is after a bracket whose tag was meant as a word.
pub fn hint_glued(scene: &Scene) -> Result<Option<Reported>, AllocError> {
    let Some(index) = scene.statement().checked_sub(1) else {
        return Ok(None);
    };
    if !matches!(
        scene.kind(index),
        Some(Kind::SectionOpen | Kind::SectionClose)
    ) {
        return Ok(None);
    }
    let tag = tag_at(scene.tokens, index);
    if tag.is_empty() {
        return Ok(None);
    }
    let is_operator = index.saturating_add(1) == scene.at
        && matches!(
            scene.refused(),
            Some(Kind::Assign | Kind::Colon | Kind::Comma | Kind::Close | Kind::Percent)
        );
    if is_operator || is_reserved(tag) || scene.kind(index.saturating_add(1)) == Some(Kind::Open) {
        return Ok(Some(hint_tag(scene, index)?));
    }
    Ok(None)
}

/// What is reported of a `$)` whose tag is wrong.
pub fn hint_wrong_tag(scene: &Scene) -> Result<Reported, AllocError> {
    let opened = open_sections(scene)?;
    let wanted = tag_at(scene.tokens, scene.at);
    if is_reserved(wanted) {
        return hint_tag(scene, scene.at);
    }
    let Some(open) = opened.indices.last().copied() else {
        let sentence = scene
            .sentence()
            .say("this `$)` closes nothing: no `$(` is open here")?;
        return Ok(scene.reported(scene.at, sentence));
    };
    let tag = tag_at(scene.tokens, open);
    if !wanted.is_empty() {
        let sentence = scene
            .sentence()
            .say("no `$(")?
            .spell(wanted)?
            .say("` is open here; the innermost is the `$(")?
            .spell(tag)?
            .say("` of ")?
            .line(scene.line(open))?;
        return Ok(scene.reported(scene.at, sentence).and(scene.spot(open)));
    }
    let sentence = scene
        .sentence()
        .quote(tag)?
        .say(" is the tag of the `$(` of ")?
        .line(scene.line(open))?
        .say(", which `$)")?
        .spell(tag)?
        .say("` closes; perhaps a blank is missing after that `$(`")?;
    Ok(scene.reported(open, sentence))
}

/// What is reported of a `$)` where no section is open.
pub fn hint_extra(scene: &Scene, opened: &OpenSections) -> Result<Option<Reported>, AllocError> {
    if scene.refused() == Some(Kind::SectionClose) && opened.indices.is_empty() {
        return Ok(Some(scene.here("this `$)` closes nothing: no `$(` is open here")?));
    }
    Ok(None)
}

/// How many `$)`s are tried at most.
const TRIED: usize = 3;

/// Whether so many `$)`s before the refused symbol make it right.
fn closes(scene: &Scene, count: usize) -> Result<bool, AllocError> {
    let mut kinds = Vec::new(scene.alloc);
    for _ in 0..count {
        kinds.push(Kind::SectionClose)?;
    }
    scene.lacks(kinds.as_slice())
}

/// The innermost open section, where a declaration is refused and a `$)` is not.
fn late_in(scene: &Scene, opened: &OpenSections) -> Result<Option<usize>, AllocError> {
    if !matches!(
        scene.refused(),
        Some(Kind::Let | Kind::And | Kind::Manifest | Kind::Static | Kind::Global)
    ) {
        return Ok(None);
    }
    let Some(open) = opened.indices.last().copied() else {
        return Ok(None);
    };
    if scene.before(1) != Some(Kind::Colon) && scene.takes(Kind::SectionClose)? {
        return Ok(Some(open));
    }
    Ok(None)
}

/// What is reported where a declaration is after a command, and a `$)` is perhaps missing before it.
pub fn hint_unclosed_before(
    scene: &Scene,
    opened: &OpenSections,
) -> Result<Option<Reported>, AllocError> {
    match late_in(scene, opened)? {
        Some(open) if lacks_closings(scene, opened, open)? => Ok(Some(hint_before(
            scene, opened, open,
        )?)),
        _ => Ok(None),
    }
}

/// What is reported where a declaration is after a command.
pub fn hint_late(scene: &Scene, opened: &OpenSections) -> Result<Option<Reported>, AllocError> {
    if scene.refused() == Some(Kind::And) || late_in(scene, opened)?.is_none() {
        return Ok(None);
    }
    Ok(Some(scene.here(
        "declarations come before the commands of their block; `$(` and `$)` around this one and its commands make a block",
    )?))
}

/// Whether `$)`s before the refused declaration make it right, and its line is no further right than the `$(` that they close.
fn lacks_closings(scene: &Scene, opened: &OpenSections, open: usize) -> Result<bool, AllocError> {
    let left = scene.lines.indentation(scene.text, scene.line(scene.at));
    for count in 1..TRIED {
        if count <= opened.indices.len() && closes(scene, count)? {
            let outer = opened
                .indices
                .get(opened.indices.len().saturating_sub(count));
            let line = scene.line(outer.copied().unwrap_or(open));
            if left <= scene.lines.indentation(scene.text, line) {
                return Ok(true);
            }
        }
    }
    Ok(false)
}

/// What is reported where a `$)` is missing before a declaration.
fn hint_before(scene: &Scene, opened: &OpenSections, open: usize) -> Result<Reported, AllocError> {
    let index = match opened.uneven {
        Some((first, _)) if open < first => first,
        _ => open,
    };
    let sentence = scene
        .sentence()
        .say("perhaps the `$(` of ")?
        .line(scene.line(index))?
        .say(" lacks its `$)`: the ")?
        .quote(scene.spelling(scene.at))?
        .say(" of ")?
        .line(scene.line(scene.at))?
        .say(" comes after a command of that block")?;
    Ok(scene.reported(index, sentence).and(scene.spot(scene.at)))
}
