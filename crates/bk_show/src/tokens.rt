//! The tokens of a section.

use crate::header::{is_inserted, is_of_header};
use crate::text::Text;
use bk_lex::{Kind, Token};
use std::alloc::{AllocError, Global};

/// The column of the spellings.
const SPELLING: usize = 20;

/// The kind of a token that the source spells.
fn kind_of(token: &Token<'_>) -> &'static str {
    match token.kind {
        Kind::Name => "name",
        Kind::Number => "number",
        Kind::Text => "string",
        Kind::Character => "character",
        _ => match token.text {
            [b'A'..=b'Z' | b'a'..=b'z', ..] => "word",
            _ => "sign",
        },
    }
}

/// Adds the line of a token that was inserted.
fn put_inserted(text: &mut Text, token: &Token<'_>) -> Result<(), AllocError> {
    text.begin(token.line)?;
    text.say("inserted")?;
    text.go_to(SPELLING)?;
    text.say(if token.kind == Kind::Do { "DO" } else { ";" })?;
    text.end()
}

/// Adds the line of a header, at its first symbol.
fn put_header(text: &mut Text, token: &Token<'_>) -> Result<(), AllocError> {
    text.begin(token.line)?;
    text.say("header")?;
    text.go_to(SPELLING)?;
    text.say("GLOBAL $( START : 1 ; STOP : 2 ; ... $) MANIFEST $( ... $)")?;
    text.end()
}

/// Adds the line of a token that the source spells.
fn put_spelled(text: &mut Text, token: &Token<'_>) -> Result<(), AllocError> {
    text.begin(token.line)?;
    text.say(kind_of(token))?;
    text.go_to(SPELLING)?;
    text.spell(token.text)?;
    text.end()
}

/// Adds the line of a token; the symbols of a header have one line.
fn put_token(text: &mut Text, token: &Token<'_>) -> Result<(), AllocError> {
    if is_inserted(token) {
        put_inserted(text, token)
    } else if !is_of_header(token) {
        put_spelled(text, token)
    } else if token.kind == Kind::Global {
        put_header(text, token)
    } else {
        Ok(())
    }
}

/// A line for each token.
pub fn tokens_text(alloc: Global, tokens: &[Token<'_>]) -> Result<Text, AllocError> {
    let mut text = Text::new(alloc);
    text.say("  line  token       spelling")?;
    text.end()?;
    for token in tokens {
        put_token(&mut text, token)?;
    }
    Ok(text)
}
