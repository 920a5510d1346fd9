//! A section as text.
ghost use Rattle.std.specs.Prelude.{◌≡◌, Err, OnOk};
ghost use Rattle.bk_base.specs.Devices.{Begins};
ghost use Rattle.bk_show.specs.declared.section.NotShown.TheVariants.{Device};

use crate::dot::dot_text;
use crate::header::header_declarations;
use crate::intcode::intcode_text;
use crate::map::map_text;
use crate::names::{Slots, names_text};
use crate::ocode::ocode_text;
use crate::origin::Origin;
use crate::part::{Part, is_shown};
use crate::text::Text;
use crate::tokens::tokens_text;
use crate::tree::tree_of;
use crate::words::Code;
use bk_base::{ByteOut, Line, put_all};
use bk_lex::Token;
use bk_machine::Intcode;
use bk_ocode::Ocode;
use bk_scope::Resolved;
use bk_source_map::Placing;
use bk_tree::Section;
use std::alloc::{AllocError, Global};

/// What the phases of the compiler make of a section.
#[derive(Clone, Copy)]
pub struct Shown<'a> {
    /// The number of the section in its source, from 1.
    pub number: u32,
    /// Its first line.
    pub line: Line,
    /// Its tokens.
    pub tokens: &'a [Token<'a>],
    /// Its tree, with what its names mean.
    pub resolved: &'a Resolved<'a>,
    /// Its statements.
    pub code: &'a Ocode,
    /// Where they come from in its source.
    pub placing: &'a Placing,
    /// Its items.
    pub segment: &'a Intcode,
    /// How many items there are up to the end of each statement.
    pub ends: &'a [usize],
}

/// Why a section is not shown.
#[derive(Clone, Copy, Debug, PartialEq, Eq)]
pub enum NotShown {
    /// A growth was refused.
    Memory,
    /// The output failed.
    Device,
}

impl From<AllocError> for NotShown {
    ghost use Rattle.std.specs.Prelude.{◌≡◌};
    ghost use Rattle.bk_show.specs.declared.section.NotShown.TheVariants.{Memory};

    ghost from_gives = { λ _ fault. fault ≡ Memory };

    fn from(_error: AllocError) -> NotShown {
        NotShown::Memory
    }
}

/// The line above a section.
fn heading(alloc: Global, number: u32, line: Line) -> Result<Text, AllocError> {
    let mut text = Text::new(alloc);
    if number > 1 {
        text.end()?;
    }
    text.say("section ")?;
    text.natural(number)?;
    text.say(", from line ")?;
    text.natural(line.number())?;
    text.end()?;
    Ok(text)
}

/// Writes the line above a section; a graph has none.
fn put_heading<O: ByteOut>(
    alloc: Global,
    number: u32,
    line: Line,
    asked: Part,
    out: &mut O,
) -> Result<(), NotShown>
    ensures grows { Begins (O.taken out.old) (O.taken out.new) }
    ensures passes { Begins (O.passed out.old) (O.passed out.new) }
    ensures failed { result ≡ Err Device → O.faults out.new ≡ 1 }
{
    if asked == Part::Dot {
        return Ok(());
    }
    put_text(&heading(alloc, number, line)?, out)
}

/// The line above a part.
fn title(alloc: Global, words: &str) -> Result<Text, AllocError> {
    let mut text = Text::new(alloc);
    text.end()?;
    text.say(words)?;
    text.end()?;
    Ok(text)
}

/// Writes a text.
pub fn put_text<O: ByteOut>(text: &Text, out: &mut O) -> Result<(), NotShown>
    ensures grows { Begins (O.taken out.old) (O.taken out.new) }
    ensures passes { Begins (O.passed out.old) (O.passed out.new) }
    ensures failed { result ≡ Err Device → O.faults out.new ≡ 1 }
{
    match put_all(out, text.bytes()) {
        Ok(()) => Ok(()),
        Err(_) => Err(NotShown::Device),
    }
}

/// Writes a part, after the line that names it.
fn put_part<O: ByteOut>(
    alloc: Global,
    words: &str,
    text: &Text,
    out: &mut O,
) -> Result<(), NotShown>
    ensures grows { Begins (O.taken out.old) (O.taken out.new) }
    ensures passes { Begins (O.passed out.old) (O.passed out.new) }
    ensures failed { result ≡ Err Device → O.faults out.new ≡ 1 }
{
    put_text(&title(alloc, words)?, out)?;
    put_text(text, out)
}

/// Writes the tree, if it is asked for, as text or as a graph.
fn put_tree<O: ByteOut>(
    alloc: Global,
    number: u32,
    section: &Section,
    headers: &[bool],
    asked: Part,
    out: &mut O,
) -> Result<(), NotShown>
    ensures grows { Begins (O.taken out.old) (O.taken out.new) }
    ensures passes { Begins (O.passed out.old) (O.passed out.new) }
    ensures failed { result ≡ Err Device → O.faults out.new ≡ 1 }
{
    if asked == Part::Dot {
        let tree = tree_of(alloc, section, headers)?;
        return put_text(&dot_text(alloc, number, &tree)?, out);
    }
    if is_shown(Part::Tree, asked) {
        let tree = tree_of(alloc, section, headers)?;
        return put_part(alloc, "tree", &tree.text, out);
    }
    Ok(())
}

/// Writes the tokens and the tree, those of them that are asked for.
fn put_front<O: ByteOut>(
    alloc: Global,
    section: &Shown<'_>,
    headers: &[bool],
    asked: Part,
    out: &mut O,
) -> Result<(), NotShown>
    ensures grows { Begins (O.taken out.old) (O.taken out.new) }
    ensures passes { Begins (O.passed out.old) (O.passed out.new) }
    ensures failed { result ≡ Err Device → O.faults out.new ≡ 1 }
{
    if is_shown(Part::Tokens, asked) {
        put_part(alloc, "tokens", &tokens_text(alloc, section.tokens)?, out)?;
    }
    put_tree(
        alloc,
        section.number,
        section.resolved.section(),
        headers,
        asked,
        out,
    )
}

/// Writes OCODE and INTCODE, those of them that are asked for.
fn put_code<'s, O: ByteOut>(
    alloc: Global,
    section: &'s Shown<'s>,
    origin: &'s Origin<'s>,
    asked: Part,
    out: &mut O,
) -> Result<(), NotShown>
    ensures grows { Begins (O.taken out.old) (O.taken out.new) }
    ensures passes { Begins (O.passed out.old) (O.passed out.new) }
    ensures failed { result ≡ Err Device → O.faults out.new ≡ 1 }
{
    let marks = section.placing.marks.as_slice();
    if is_shown(Part::Ocode, asked) {
        let text = ocode_text(alloc, origin, marks)?;
        put_part(alloc, "OCODE", &text, out)?;
    }
    if is_shown(Part::Intcode, asked) {
        let text = intcode_text(alloc, section.segment, section.ends, origin, marks)?;
        put_part(alloc, "INTCODE", &text, out)?;
    }
    Ok(())
}

/// Writes the map, if it is asked for.
fn put_map<'s, O: ByteOut>(
    alloc: Global,
    section: &'s Shown<'s>,
    headers: &[bool],
    origin: &'s Origin<'s>,
    asked: Part,
    out: &mut O,
) -> Result<(), NotShown>
    ensures grows { Begins (O.taken out.old) (O.taken out.new) }
    ensures passes { Begins (O.passed out.old) (O.passed out.new) }
    ensures failed { result ≡ Err Device → O.faults out.new ≡ 1 }
{
    if asked == Part::Map {
        let marks = section.placing.marks.as_slice();
        let tree = tree_of(alloc, section.resolved.section(), headers)?;
        let code = Code::of(alloc, origin, section.segment, section.ends, marks)?;
        let text = map_text(alloc, origin, &code, marks, &tree)?;
        put_part(alloc, "map", &text, out)?;
    }
    Ok(())
}

/// Writes the names, if they are asked for.
fn put_names<'s, O: ByteOut>(
    alloc: Global,
    section: &'s Shown<'s>,
    headers: &[bool],
    origin: &'s Origin<'s>,
    asked: Part,
    out: &mut O,
) -> Result<(), NotShown>
    ensures grows { Begins (O.taken out.old) (O.taken out.new) }
    ensures passes { Begins (O.passed out.old) (O.passed out.new) }
    ensures failed { result ≡ Err Device → O.faults out.new ≡ 1 }
{
    if is_shown(Part::Names, asked) {
        let slots = Slots::of(alloc, origin, section.placing.marks.as_slice())?;
        let text = names_text(alloc, section.resolved, headers, &slots)?;
        put_part(alloc, "names", &text, out)?;
    }
    Ok(())
}

/// Writes the names and the code, those of them that are asked for.
fn put_back<O: ByteOut>(
    alloc: Global,
    section: &Shown<'_>,
    headers: &[bool],
    asked: Part,
    out: &mut O,
) -> Result<(), NotShown>
    ensures grows { Begins (O.taken out.old) (O.taken out.new) }
    ensures passes { Begins (O.passed out.old) (O.passed out.new) }
    ensures failed { result ≡ Err Device → O.faults out.new ≡ 1 }
{
    let places = section.placing.places.as_slice();
    let origin = Origin::of(alloc, section.tokens, section.code, places)?;
    put_names(alloc, &*section, headers, &origin, asked, out)?;
    put_map(alloc, &*section, headers, &origin, asked, out)?;
    put_code(alloc, &*section, &origin, asked, out)
}

/// Writes the part of a section that is asked for, after a line that names it. What is written is made of the values given and of
/// nothing else. Memory is taken for the text of one part at a time, and for the names.
pub fn show<O: ByteOut>(
    alloc: Global,
    section: &Shown<'_>,
    asked: Part,
    out: &mut O,
) -> Result<(), NotShown>
    // What was taken or passed on before stays.
    ensures grows { Begins (O.taken out.old) (O.taken out.new) }
    ensures passes { Begins (O.passed out.old) (O.passed out.new) }
    ensures failed { result ≡ Err Device → O.faults out.new ≡ 1 }
{
    let headers = header_declarations(alloc, section.tokens)?;
    put_heading(alloc, section.number, section.line, asked, out)?;
    put_front(alloc, section, headers.as_slice(), asked, out)?;
    put_back(alloc, section, headers.as_slice(), asked, out)
}

/// A section that is refused.
#[derive(Clone, Copy)]
pub struct RefusedSection<'a> {
    /// The number of the section in its source, from 1.
    pub number: u32,
    /// Its first line.
    pub line: Line,
    /// Its tokens.
    pub tokens: &'a [Token<'a>],
}

/// Writes what the phases of the compiler make of a section that a later one refuses: its tokens, and its tree if it has one, those of
/// them that are asked for.
pub fn show_refused<O: ByteOut>(
    alloc: Global,
    section: &RefusedSection<'_>,
    tree: Option<&Section>,
    asked: Part,
    out: &mut O,
) -> Result<(), NotShown>
    // What was taken or passed on before stays.
    ensures grows { Begins (O.taken out.old) (O.taken out.new) }
    ensures passes { Begins (O.passed out.old) (O.passed out.new) }
    ensures failed { result ≡ Err Device → O.faults out.new ≡ 1 }
{
    let headers = header_declarations(alloc, section.tokens)?;
    let has_tree = tree.is_some() && (asked == Part::Dot || is_shown(Part::Tree, asked));
    if !has_tree && !is_shown(Part::Tokens, asked) {
        return Ok(());
    }
    put_heading(alloc, section.number, section.line, asked, out)?;
    if is_shown(Part::Tokens, asked) {
        put_part(alloc, "tokens", &tokens_text(alloc, section.tokens)?, out)?;
    }
    match tree {
        Some(tree) => put_tree(alloc, section.number, tree, headers.as_slice(), asked, out),
        None => Ok(()),
    }
}
