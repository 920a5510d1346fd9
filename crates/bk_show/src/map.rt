//! The map from the code of a section to its source, as a text that a program reads.

use crate::frame::{Frame, NamedWord};
use crate::origin::{Origin, put_at};
use crate::text::Text;
use crate::tree::Tree;
use crate::words::{Code, CodeProcedure, CodeWord};
use bk_base::Line;
use bk_ocode::Stmt;
use bk_source_map::{Change, Mark};
use std::alloc::{AllocError, Global};

/// The places of the columns.
const PLACES: usize = 7;

/// Adds a column: a number, or `-` where there is none.
fn put_column(text: &mut Text, number: Option<usize>) -> Result<(), AllocError> {
    match number {
        Some(number) => text.right(number as u64, PLACES),
        None => text.say("      -"),
    }
}

/// Adds a column with a line of the source.
fn put_line(text: &mut Text, line: Option<Line>) -> Result<(), AllocError> {
    put_column(text, line.map(|line| line.number() as usize))
}

/// Adds two blanks and a name, or `-` where there is none.
fn put_name(text: &mut Text, name: Option<&[u8]>) -> Result<(), AllocError> {
    text.say("  ")?;
    match name {
        Some(name) => text.name(name),
        None => text.say("-"),
    }
}

/// Adds a line of words.
fn put_words(text: &mut Text, words: &str) -> Result<(), AllocError> {
    text.say(words)?;
    text.end()
}

/// The nodes of a tree, by the tokens that they are at: the number of the line of each, from 1.
fn nodes_of(
    alloc: Global,
    origin: &Origin<'_>,
    tree: &Tree,
) -> Result<Vec<Option<usize>>, AllocError> {
    let mut nodes = Vec::new(alloc);
    for (index, node) in tree.nodes.iter().enumerate() {
        if let Some(at) = node.at {
            if let Some(token) = origin.token_at(at) {
                put_at(&mut nodes, token, index.saturating_add(1))?;
            }
        }
    }
    Ok(nodes)
}

/// Adds a word of the code.
fn put_word(
    text: &mut Text,
    origin: &Origin<'_>,
    nodes: &[Option<usize>],
    number: usize,
    word: CodeWord,
) -> Result<(), AllocError> {
    let node = match origin.token_of(word.stmt) {
        Some(token) => nodes.get(token).copied().unwrap_or(None),
        None => None,
    };
    let name = match word.token {
        Some(token) => origin.name_of_token(token),
        None => None,
    };
    put_column(text, Some(number))?;
    put_line(text, word.line)?;
    put_column(text, Some(word.stmt.saturating_add(1)))?;
    put_column(text, Some(word.item))?;
    put_column(text, node)?;
    put_name(text, name)?;
    text.end()
}

/// Adds a procedure.
fn put_procedure(
    text: &mut Text,
    origin: &Origin<'_>,
    procedure: CodeProcedure,
) -> Result<(), AllocError> {
    put_column(text, Some(procedure.word))?;
    put_line(text, origin.line(procedure.stmt))?;
    put_column(text, Some(procedure.formals as usize))?;
    put_name(text, Some(origin.entry_name(procedure.stmt)))?;
    text.end()
}

/// Adds the static words and the globals that have names.
fn put_fixed(text: &mut Text, origin: &Origin<'_>, code: &Code) -> Result<(), AllocError> {
    put_words(text, "statics")?;
    put_words(text, "   word  name")?;
    for word in code.statics.as_slice() {
        put_column(text, Some(word.word))?;
        put_name(text, origin.name_of_token(word.token))?;
        text.end()?;
    }
    put_words(text, "globals")?;
    put_words(text, " number  name")?;
    for (number, token) in origin.globals().iter().enumerate() {
        if let Some(token) = token {
            put_column(text, Some(number))?;
            put_name(text, origin.name_of_token(*token))?;
            text.end()?;
        }
    }
    Ok(())
}

/// The kind of a word of a frame.
fn kind_of(change: Change) -> &'static str {
    match change {
        Change::Formal => " argument",
        Change::Vector => " vector ",
        Change::Counter => " counter",
        Change::Limit => " limit",
        _ => " variable",
    }
}

/// Adds a word of a frame: its number, its name and its kind; of a vector the first of its words.
fn put_named(text: &mut Text, origin: &Origin<'_>, word: NamedWord) -> Result<(), AllocError> {
    text.say("  ")?;
    text.natural(word.slot)?;
    text.say(" ")?;
    text.name(origin.name_at(word.name).unwrap_or(b"-"))?;
    text.say(kind_of(word.change))?;
    if word.change == Change::Vector {
        text.natural(word.vector)?;
    }
    Ok(())
}

/// Adds the named words of frames, at each statement where they change.
fn put_frames<'s>(
    alloc: Global,
    text: &mut Text,
    origin: &'s Origin<'s>,
    marks: &'s [Mark],
) -> Result<(), AllocError> {
    put_words(text, "frames")?;
    put_words(text, "   stmt  words")?;
    let mut frame = Frame::new(alloc, marks);
    for (number, stmt) in origin.stmts().iter().enumerate() {
        let before = frame.passed();
        frame.reach(number, stmt)?;
        if frame.passed() != before || matches!(stmt, Stmt::Entry { .. }) {
            put_column(text, Some(number.saturating_add(1)))?;
            for word in frame.words() {
                put_named(text, origin, *word)?;
            }
            text.end()?;
        }
        frame.pass_stmt(stmt);
    }
    Ok(())
}

/// The map of a section. Each word of its code has its line, the numbers of its statement, of its item and of the node of the tree, from
/// 1, and the name of its operand; then come the procedures, the static words, the globals, and the named words of frames from each
/// statement on at which they change.
pub fn map_text<'s>(
    alloc: Global,
    origin: &'s Origin<'s>,
    code: &Code,
    marks: &'s [Mark],
    tree: &Tree,
) -> Result<Text, AllocError> {
    let mut text = Text::new(alloc);
    let nodes = nodes_of(alloc, origin, tree)?;
    put_words(&mut text, "   word   line   stmt   item   node  name")?;
    for (number, word) in code.words.iter().enumerate() {
        put_word(&mut text, origin, nodes.as_slice(), number, *word)?;
    }
    put_words(&mut text, "procedures")?;
    put_words(&mut text, "   word   line  arity  name")?;
    for procedure in code.procedures.as_slice() {
        put_procedure(&mut text, origin, *procedure)?;
    }
    put_fixed(&mut text, origin, code)?;
    put_frames(alloc, &mut text, origin, marks)?;
    Ok(text)
}
