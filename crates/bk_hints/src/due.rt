//! What is missing, and what could be in the place of the refused symbol.

use crate::scene::Scene;
use crate::sentence::{Reported, Sentence};
use bk_lex::Kind;
use std::alloc::AllocError;

/// Symbols of which it is reported that they could be in the place of the refused one.
static POSSIBLE: [Kind; 16] = [
    Kind::Be,
    Kind::Into,
    Kind::To,
    Kind::Do,
    Kind::By,
    Kind::Or,
    Kind::Assign,
    Kind::Equal,
    Kind::Open,
    Kind::Close,
    Kind::Comma,
    Kind::Colon,
    Kind::Semicolon,
    Kind::SectionOpen,
    Kind::SectionClose,
    Kind::Let,
];

/// How a symbol is spelled that is missing or possible.
pub fn spelling(kind: Kind) -> &'static [u8] {
    match kind {
        Kind::Be => b"BE",
        Kind::Into => b"INTO",
        Kind::To => b"TO",
        Kind::Do => b"DO",
        Kind::By => b"BY",
        Kind::Or => b"ELSE",
        Kind::Let => b"LET",
        Kind::Valof => b"VALOF",
        Kind::Assign => b":=",
        Kind::Equal => b"=",
        Kind::Open => b"(",
        Kind::Close => b")",
        Kind::Colon => b":",
        Kind::Comma => b",",
        Kind::SectionOpen => b"$(",
        Kind::SectionClose => b"$)",
        Kind::Arrow => b"->",
        Kind::And => b"AND",
        Kind::Test => b"TEST",
        Kind::If => b"IF",
        Kind::While => b"WHILE",
        Kind::For => b"FOR",
        Kind::SwitchOn => b"SWITCHON",
        Kind::ResultIs => b"RESULTIS",
        Kind::Case => b"CASE",
        Kind::Default => b"DEFAULT",
        Kind::Repeat => b"REPEAT",
        Kind::RepeatWhile => b"REPEATWHILE",
        Kind::Vec => b"VEC",
        Kind::Bar => b"|",
        Kind::Ampersand => b"&",
        Kind::Manifest => b"MANIFEST",
        Kind::Static => b"STATIC",
        Kind::Global => b"GLOBAL",
        Kind::Finish => b"FINISH",
        Kind::Unless => b"UNLESS",
        Kind::Until => b"UNTIL",
        Kind::RepeatUntil => b"REPEATUNTIL",
        Kind::EndCase => b"ENDCASE",
        Kind::Break => b"BREAK",
        Kind::Loop => b"LOOP",
        Kind::Goto => b"GOTO",
        Kind::Table => b"TABLE",
        Kind::Return => b"RETURN",
        Kind::Plus => b"+",
        Kind::Name => b"X",
        _ => b";",
    }
}

/// The sentence with the refused symbol after it, at the gap before that symbol.
fn hint_gap(scene: &Scene, sentence: Sentence) -> Result<Reported, AllocError> {
    let sentence = scene.name_refused(sentence)?;
    let at = scene.gap();
    let sentence = if scene.refused().is_none() || at == scene.spot(scene.at) {
        sentence
    } else {
        sentence.say(" of ")?.line(scene.line(scene.at))?
    };
    Ok(Reported::at(at, sentence))
}

/// What is due at the refused symbol, in words, if it is an operand, a name or a command.
fn due_in_words(scene: &Scene) -> Result<Option<&'static str>, AllocError> {
    let has_number = scene.takes(Kind::Number)?;
    let has_name = scene.takes(Kind::Name)?;
    let has_command = scene.takes(Kind::While)?;
    Ok(if has_command {
        Some("a command is due before ")
    } else if has_number {
        Some("an expression is due before ")
    } else if has_name {
        Some("a name is due before ")
    } else {
        None
    })
}

/// What is reported where nothing else is known.
pub fn hint_due_here(scene: &Scene) -> Result<Reported, AllocError> {
    if let Some(words) = due_in_words(scene)? {
        return hint_gap(scene, scene.sentence().say(words)?);
    }
    let sentence = scene.name_refused(scene.sentence())?.say(" can't go here")?;
    let sentence = put_possible(scene, sentence)?;
    Ok(scene.reported(scene.at, sentence))
}

/// How many symbols are reported at most.
const MOST: usize = 4;

/// The sentence with the symbols after it that could be in the place of the refused one.
fn put_possible(scene: &Scene, sentence: Sentence) -> Result<Sentence, AllocError> {
    let mut sentence = sentence;
    let mut count = 0;
    for due in POSSIBLE {
        if count < MOST && scene.takes(due)? {
            sentence = sentence
                .say(if count == 0 { "; what could is " } else { ", " })?
                .quote(spelling(due))?;
            count += 1;
        }
    }
    Ok(sentence)
}
