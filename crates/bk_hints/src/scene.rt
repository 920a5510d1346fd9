//! A section with the symbol that is refused, and trials of other symbols there.

use crate::lines::Lines;
use crate::reader::Reader;
use crate::sentence::{Reported, Sentence};
use bk_base::Line;
use bk_lex::{Kind, Token};
use std::alloc::{AllocError, Global};

/// How many symbols before the refused one are read anew at each trial.
const BACK: usize = 48;

/// The first so many of the symbols.
fn first<'a, 'b>(tokens: &'b [Token<'a>], count: usize) -> &'b [Token<'a>] {
    &tokens[..count.min(tokens.len())]
}

/// Whether the symbols are read.
fn read_all<'a>(reader: &mut Reader<'a>, tokens: &[Token<'a>]) -> Result<bool, AllocError> {
    for token in tokens {
        if !reader.read(token.kind, token.text)? {
            return Ok(false);
        }
    }
    Ok(true)
}

/// Whether symbols of these kinds, which are nowhere, are read.
fn read_kinds(reader: &mut Reader, kinds: &[Kind]) -> Result<bool, AllocError> {
    for kind in kinds {
        if !reader.read(*kind, &[])? {
            return Ok(false);
        }
    }
    Ok(true)
}

/// A section, and the symbol that is refused.
#[derive(Drop)]
pub struct Scene<'a> {
    pub alloc: Global,
    pub text: &'a [u8],
    pub lines: &'a Lines,
    pub tokens: &'a [Token<'a>],
    /// The index of the symbol that is refused; the number of the symbols where it is their end.
    pub at: usize,
    /// How many bytes of the text come before the `.` that ends the section, if one does.
    pub dot: Option<usize>,
    /// What was read of the first so many symbols, with which a section begins.
    base: Reader<'a>,
    count: usize,
}

impl<'a> Scene<'a> {
    /// A section with these symbols, of which the one with this index is refused. Before the `.` that ends it, if one does, come
    /// `dot` bytes of the text.
    pub fn new(
        alloc: Global,
        source: (&'a [u8], &'a Lines),
        tokens: &'a [Token<'a>],
        at: usize,
        dot: Option<usize>,
    ) -> Result<Scene<'a>, AllocError> {
        let (text, lines) = source;
        let count = at.saturating_sub(BACK);
        let mut base = Reader::new(alloc);
        let _is_read = read_all(&mut base, first(tokens, count))?;
        Ok(Scene {
            alloc,
            text,
            lines,
            tokens,
            at,
            dot,
            base,
            count,
        })
    }

    /// The kind of a symbol.
    pub fn kind(&self, index: usize) -> Option<Kind> {
        match self.tokens.get(index) {
            Some(token) => Some(token.kind),
            None => None,
        }
    }

    /// The kind of the symbol that is refused.
    pub fn refused(&self) -> Option<Kind> {
        self.kind(self.at)
    }

    /// The index of the symbol so many before the one that is refused.
    pub fn back(&self, count: usize) -> Option<usize> {
        self.at.checked_sub(count)
    }

    /// The kind of the symbol so many before the one that is refused.
    pub fn before(&self, count: usize) -> Option<Kind> {
        self.kind(self.back(count)?)
    }

    /// The kind of the symbol before the one with this index.
    pub fn before_at(&self, index: usize) -> Option<Kind> {
        self.kind(index.checked_sub(1)?)
    }

    /// The kind of the symbol after the one that is refused.
    pub fn following(&self) -> Option<Kind> {
        self.kind(self.at.saturating_add(1))
    }

    /// The spelling of a symbol, empty where there is none.
    pub fn spelling(&self, index: usize) -> &'a [u8] {
        match self.tokens.get(index) {
            Some(token) => token.text,
            None => &[],
        }
    }

    /// The line of a symbol, or that of the last.
    pub fn line(&self, index: usize) -> Line {
        match self.tokens.get(index) {
            Some(token) => token.line,
            None => match self.tokens.last() {
                Some(token) => token.line,
                None => Line::first(),
            },
        }
    }

    /// Whether a symbol was inserted.
    pub fn is_inserted(&self, index: usize) -> bool {
        match self.tokens.get(index) {
            Some(token) => token.text.is_empty(),
            None => false,
        }
    }

    /// Whether the refused symbol is a `;` that was inserted at the end of a line.
    pub fn is_inserted_end(&self) -> bool {
        self.is_inserted(self.at) && self.refused() == Some(Kind::Semicolon)
    }

    /// The place of a symbol in the text, if it has one.
    pub fn place(&self, index: usize) -> Option<usize> {
        let place = self.tokens.get(index)?.place?;
        Some(place as usize)
    }

    /// Where a symbol that is in the text ends.
    fn end_of(&self, index: usize) -> Option<usize> {
        let place = self.place(index)?;
        Some(place.saturating_add(self.spelling(index).len()))
    }

    /// Whether a symbol is at once after the one before it.
    pub fn touches(&self, index: usize) -> bool {
        match (index.checked_sub(1), self.place(index)) {
            (Some(before), Some(place)) => self.end_of(before) == Some(place),
            _ => false,
        }
    }

    /// Where the caret is for a symbol: an inserted one is shown at the symbol after it, one of a header where its line begins,
    /// and the end after the last symbol.
    pub fn spot(&self, index: usize) -> Option<usize> {
        if index >= self.tokens.len() {
            return match self.dot {
                Some(dot) => Some(dot),
                None => self.end_of(self.tokens.len().checked_sub(1)?),
            };
        }
        if let Some(place) = self.place(index) {
            return Some(place);
        }
        if self.is_inserted(index) {
            if let Some(place) = self.place(index.saturating_add(1)) {
                return Some(place);
            }
        }
        let line = self.line(index);
        let start = self.lines.begin(line)?;
        Some(start.saturating_add(self.lines.indentation(self.text, line)))
    }

    /// Where the caret is for what is missing before the symbol that is refused: after the symbol before, where that is on
    /// another line.
    pub fn gap(&self) -> Option<usize> {
        self.gap_at(self.at)
    }

    /// The same for what is missing before a symbol.
    pub fn gap_at(&self, index: usize) -> Option<usize> {
        let before = index.checked_sub(1)?;
        if self.kind(index).is_some() && self.line(before) == self.line(index) {
            return self.spot(index);
        }
        match self.end_of(before) {
            Some(end) => Some(end),
            None => self.spot(index),
        }
    }

    /// Whether a section begins with the first so many symbols, these after them, and then those from one index up to another.
    /// Where that is past the last, they have to be a whole section.
    pub fn goes(
        &self,
        count: usize,
        extra: &[Kind],
        from: usize,
        to: usize,
    ) -> Result<bool, AllocError> {
        self.goes_with(count, extra, from, to, &[])
    }

    /// The same, with these symbols at the end.
    pub fn goes_with(
        &self,
        count: usize,
        extra: &[Kind],
        from: usize,
        to: usize,
        last: &[Kind],
    ) -> Result<bool, AllocError> {
        let (mut reader, start) = if count < self.count {
            (Reader::new(self.alloc), 0)
        } else {
            (self.base.copy()?, self.count)
        };
        let before = first(self.tokens, count).get(start..).unwrap_or(&[]);
        let after = first(self.tokens, to).get(from..).unwrap_or(&[]);
        let is_read = read_all(&mut reader, before)?
            && read_kinds(&mut reader, extra)?
            && read_all(&mut reader, after)?
            && read_kinds(&mut reader, last)?;
        Ok(is_read && (to <= self.tokens.len() || reader.end()?))
    }

    /// Whether this symbol could be where one is refused.
    pub fn takes(&self, kind: Kind) -> Result<bool, AllocError> {
        self.goes(self.at, &[kind], self.at, self.at)
    }

    /// Whether these symbols before the one that is refused make it right.
    pub fn lacks(&self, kinds: &[Kind]) -> Result<bool, AllocError> {
        let next = self.at.saturating_add(1);
        if self.is_inserted(self.at) {
            return self.goes(self.at, kinds, next, next.saturating_add(1));
        }
        self.goes(self.at, kinds, self.at, next)
    }

    /// Whether this symbol in the place of the one at an index makes the one that is refused right.
    pub fn wants_at(&self, index: usize, kind: Kind) -> Result<bool, AllocError> {
        let next = index.saturating_add(1);
        self.goes(index, &[kind], next, self.at.saturating_add(1))
    }

    /// Whether this symbol in the place of the one that is refused lets the next one follow.
    pub fn means(&self, kind: Kind) -> Result<bool, AllocError> {
        let next = self.at.saturating_add(1);
        self.goes(self.at, &[kind], next, next.saturating_add(1))
    }

    /// Whether the symbol after the refused one is right without it.
    pub fn is_needless(&self) -> Result<bool, AllocError> {
        let at = if self.is_inserted(self.at) {
            self.at.saturating_add(1)
        } else {
            self.at
        };
        let next = at.saturating_add(1);
        Ok(next < self.tokens.len() && self.goes(self.at, &[], next, next.saturating_add(1))?)
    }

    /// Whether the symbol that is refused is right without the one at an index.
    pub fn is_right_without(&self, index: usize) -> Result<bool, AllocError> {
        let next = index.saturating_add(1);
        self.goes(index, &[], next, self.at.saturating_add(1))
    }

    /// The index of the first symbol of the command or definition that the refused symbol is in, or is after.
    pub fn statement(&self) -> usize {
        for count in 0..self.at {
            let index = self.at.saturating_sub(count);
            if let Some(before) = index.checked_sub(1) {
                if self
                    .kind(before)
                    .is_some_and(|kind| comes_before_command(kind))
                {
                    return index;
                }
            }
        }
        0
    }

    /// The index of the nearest symbol of this kind before the refused one, in its command or definition.
    pub fn nearest(&self, kind: Kind) -> Option<usize> {
        for count in 1..self.at.saturating_add(1) {
            let index = self.at.checked_sub(count)?;
            let there = self.kind(index)?;
            if there == kind {
                return Some(index);
            }
            if comes_before_command(there) {
                return None;
            }
        }
        None
    }

    /// The sentence with the refused symbol after it.
    pub fn name_refused(&self, sentence: Sentence) -> Result<Sentence, AllocError> {
        self.name_at(self.at, sentence)
    }

    /// The sentence with a symbol after it; one that is inserted is named by the symbol after it.
    pub fn name_at(&self, index: usize, sentence: Sentence) -> Result<Sentence, AllocError> {
        match self.tokens.get(index) {
            None if self.dot.is_some() => sentence.say("the `.` that ends the section"),
            None => sentence.say("the end of the section"),
            Some(token) if token.place.is_some() => sentence.quote(token.text),
            Some(token) if token.text.is_empty() => {
                sentence.quote(self.spelling(index.saturating_add(1)))
            }
            Some(_) => sentence.say("the `GET` of ")?.line(self.line(index)),
        }
    }

    /// These words at the refused symbol.
    pub fn here(&self, words: &str) -> Result<Reported, AllocError> {
        Reported::new(self.alloc, self.spot(self.at), words)
    }

    /// A sentence without words.
    pub fn sentence(&self) -> Sentence {
        Sentence::new(self.alloc)
    }

    /// This sentence at a symbol.
    pub fn reported(&self, index: usize, sentence: Sentence) -> Reported {
        Reported::at(self.spot(index), sentence)
    }
}

/// Whether a command, or a declaration, may begin after this symbol.
pub fn comes_before_command(kind: Kind) -> bool {
    matches!(
        kind,
        Kind::Semicolon
            | Kind::SectionOpen
            | Kind::SectionClose
            | Kind::Do
            | Kind::Or
            | Kind::Be
            | Kind::Into
            | Kind::Valof
            | Kind::Colon
            | Kind::Repeat
    )
}
