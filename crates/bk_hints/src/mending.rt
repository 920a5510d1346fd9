//! The symbols of a section with others in the place of some, so that a fault of names or constants that was found is found no more.

use bk_base::{Line, SourceKind};
use bk_lex::{Kind, Token};
use std::alloc::{AllocError, Global};

/// How many symbols are changed at most.
const CHANGES: usize = 200;

/// What is in the place of a symbol.
#[derive(Clone, Copy, Debug, PartialEq, Eq)]
enum Instead {
    /// Nothing.
    Nothing,
    /// A symbol of this kind.
    Symbol(Kind),
    /// A name that no source has: that of the symbol with so many bytes of the text after it.
    Made(usize),
    /// The same, and `:=`.
    Assigned(usize),
}

/// A symbol that another is in the place of.
#[derive(Clone, Copy)]
struct Change {
    index: usize,
    instead: Instead,
}

/// A name that is declared before the section: that of a symbol, with so many bytes of the text after it.
#[derive(Clone, Copy)]
struct Declared {
    index: usize,
    further: usize,
}

/// What was changed in a section so far.
#[derive(Drop)]
pub struct Mending {
    declared: Vec<Declared>,
    changes: Vec<Change>,
    /// Whether a constant was put where none was.
    has_guess: bool,
}

impl Mending {
    /// Nothing.
    pub fn new(alloc: Global) -> Mending {
        Mending {
            declared: Vec::new(alloc),
            changes: Vec::new(alloc),
            has_guess: false,
        }
    }

    /// Whether a fault of constants may come from a constant that was put where none was.
    pub fn may_cause(&self, kind: &SourceKind) -> bool {
        self.has_guess
            && matches!(
                kind,
                SourceKind::ConstantDividedByZero
                    | SourceKind::CaseRepeated
                    | SourceKind::GlobalOutOfRange
                    | SourceKind::VecOutOfRange
            )
    }

    /// Puts something in the place of a symbol, if there is room for it.
    fn change(&mut self, index: usize, instead: Instead) -> Result<bool, AllocError> {
        if self.changes.len() >= CHANGES {
            return Ok(false);
        }
        self.changes.push(Change { index, instead })?;
        Ok(true)
    }

    /// Declares a name before the section.
    fn declare(&mut self, index: usize, further: usize) -> Result<(), AllocError> {
        self.declared.push(Declared { index, further })?;
        Ok(())
    }

    /// How many bytes of the text the next name has after that of its symbol, so that no two are one.
    fn further(&self) -> usize {
        self.changes.len().saturating_add(1)
    }

    /// Puts a name that no source has in the place of a symbol.
    fn rename(&mut self, index: usize) -> Result<bool, AllocError> {
        let further = self.further();
        self.change(index, Instead::Made(further))
    }

    /// The same, with a name that is declared.
    fn rename_used(&mut self, index: usize) -> Result<bool, AllocError> {
        let further = self.further();
        self.declare(index, further)?;
        self.change(index, Instead::Made(further))
    }

    /// Takes symbols away.
    fn remove(&mut self, from: usize, count: usize) -> Result<bool, AllocError> {
        let mut is_done = true;
        for i in 0..count {
            is_done = self.change(from.saturating_add(i), Instead::Nothing)? && is_done;
        }
        Ok(is_done)
    }

    /// Makes an assignment of RESULTIS and its expression.
    fn assign(&mut self, index: usize) -> Result<bool, AllocError> {
        let further = self.further();
        self.declare(index, further)?;
        self.change(index, Instead::Assigned(further))
    }

    /// Makes a command that needs nothing around it of one that is a word, and takes a label of a SWITCHON away.
    fn free(&mut self, tokens: &[Token], index: usize) -> Result<bool, AllocError> {
        match kind_at(tokens, index) {
            Some(Kind::Break | Kind::Loop | Kind::EndCase | Kind::Return) => {
                self.change(index, Instead::Symbol(Kind::Finish))
            }
            Some(Kind::Default) => self.remove(index, 2),
            Some(Kind::Case) if kind_at(tokens, index.saturating_add(2)) == Some(Kind::Colon) => {
                self.remove(index, 3)
            }
            Some(Kind::ResultIs) => self.assign(index),
            _ => Ok(false),
        }
    }

    /// Makes a constant of a symbol that is an expression of its own.
    fn make_constant(&mut self, tokens: &[Token], index: usize) -> Result<bool, AllocError> {
        let case = case_of(tokens, index);
        if case != index {
            return self.free(tokens, case);
        }
        match kind_at(tokens, index) {
            Some(Kind::Name | Kind::Number | Kind::Text | Kind::Character | Kind::Query) => {
                self.has_guess = true;
                self.change(index, Instead::Symbol(Kind::False))
            }
            _ => Ok(false),
        }
    }

    /// Makes a name that no GOTO may reach one that is declared; a GOTO to it is a command of its own.
    fn take_label(&mut self, tokens: &[Token], index: usize) -> Result<bool, AllocError> {
        match index.checked_sub(1) {
            Some(goto) if kind_at(tokens, goto) == Some(Kind::Goto) => {
                let is_done = self.change(index, Instead::Nothing)?;
                Ok(self.change(goto, Instead::Symbol(Kind::Finish))? && is_done)
            }
            _ => self.rename_used(index),
        }
    }

    /// The first sign of a division from a symbol on that is as it was.
    fn division(&self, tokens: &[Token], index: usize) -> Option<usize> {
        for (i, token) in tokens.iter().enumerate() {
            if i >= index
                && matches!(token.kind, Kind::Slash | Kind::Rem)
                && self.instead(i).is_none()
            {
                return Some(i);
            }
        }
        None
    }

    /// Changes the section so that this fault of the symbol at an index is found no more, if that is known to be possible.
    pub fn mend(
        &mut self,
        tokens: &[Token],
        index: usize,
        kind: &SourceKind,
    ) -> Result<bool, AllocError> {
        match kind {
            SourceKind::NotDeclared(_) => {
                self.declare(index, 0)?;
                Ok(true)
            }
            SourceKind::DeclaredTwice(_) => self.rename(index),
            SourceKind::DynamicName(_) => self.rename_used(index),
            SourceKind::LabelNotHere(_) => self.take_label(tokens, index),
            SourceKind::ConstantDividedByZero => match self.division(tokens, index) {
                Some(sign) => self.change(sign, Instead::Symbol(Kind::Plus)),
                None => Ok(false),
            },
            SourceKind::NotConstant | SourceKind::GlobalOutOfRange | SourceKind::VecOutOfRange =>
                self.make_constant(tokens, index),
            SourceKind::CaseRepeated => self.free(tokens, case_of(tokens, index)),
            SourceKind::NoLoop
            | SourceKind::NoSwitchon
            | SourceKind::NoResultOrReturn
            | SourceKind::DefaultRepeated => self.free(tokens, index),
            _ => Ok(false),
        }
    }

    /// What is in the place of a symbol, if something is.
    fn instead(&self, index: usize) -> Option<Instead> {
        let mut found = None;
        for change in &self.changes {
            if change.index == index {
                found = Some(change.instead);
            }
        }
        found
    }

    /// The symbols of a section with what was changed; none where a name can't be made. The text is that of the section. The symbols
    /// that it does not have are on this line.
    pub fn apply<'a>(
        &self,
        alloc: Global,
        text: &'a [u8],
        tokens: &[Token<'a>],
        line: Line,
    ) -> Result<Option<Vec<Token<'a>>>, AllocError> {
        let mut mended = Vec::new(alloc);
        for declared in &self.declared {
            let Some(name) = name_at(text, tokens, declared.index, declared.further) else {
                return Ok(None);
            };
            put_global(&mut mended, line, name)?;
        }
        for (i, token) in tokens.iter().enumerate() {
            let (kind, own, place) = (token.kind, token.text, token.place);
            match self.instead(i) {
                None => add(&mut mended, kind, token.line, place, own)?,
                Some(Instead::Nothing) => {}
                Some(Instead::Symbol(kind)) => add(&mut mended, kind, token.line, place, own)?,
                Some(Instead::Made(further)) => {
                    let Some(name) = name_at(text, tokens, i, further) else {
                        return Ok(None);
                    };
                    add(&mut mended, Kind::Name, token.line, place, name)?;
                }
                Some(Instead::Assigned(further)) => {
                    let Some(name) = name_at(text, tokens, i, further) else {
                        return Ok(None);
                    };
                    add(&mut mended, Kind::Name, token.line, place, name)?;
                    add(&mut mended, Kind::Assign, line, None, name)?;
                }
            }
        }
        Ok(Some(mended))
    }
}

/// Adds a symbol.
fn add<'a>(
    out: &mut Vec<Token<'a>>,
    kind: Kind,
    line: Line,
    place: Option<u32>,
    text: &'a [u8],
) -> Result<(), AllocError> {
    match out.push(Token {
        kind,
        line,
        place,
        text,
    }) {
        Ok(()) => Ok(()),
        Err(_) => Err(AllocError),
    }
}

/// Adds the declaration of a global, whose number is 0. The spellings of its signs and words are never read.
fn put_global<'a>(out: &mut Vec<Token<'a>>, line: Line, name: &'a [u8]) -> Result<(), AllocError> {
    for kind in [
        Kind::Global,
        Kind::SectionOpen,
        Kind::Name,
        Kind::Colon,
        Kind::False,
        Kind::SectionClose,
        Kind::Semicolon,
    ] {
        add(out, kind, line, None, name)?;
    }
    Ok(())
}

/// The spelling of a symbol with so many bytes of the text after it.
fn name_at<'a>(
    text: &'a [u8],
    tokens: &[Token<'a>],
    index: usize,
    further: usize,
) -> Option<&'a [u8]> {
    let token = tokens.get(index)?;
    if further == 0 {
        return Some(token.text);
    }
    let start = token.place? as usize;
    let end = start
        .saturating_add(token.text.len())
        .saturating_add(further);
    text.get(start..end)
}

/// The index of the CASE that a symbol is after, or else its own.
fn case_of(tokens: &[Token], index: usize) -> usize {
    match index.checked_sub(1) {
        Some(before) if kind_at(tokens, before) == Some(Kind::Case) => before,
        _ => index,
    }
}

/// The kind of a symbol.
fn kind_at(tokens: &[Token], index: usize) -> Option<Kind> {
    match tokens.get(index) {
        Some(token) => Some(token.kind),
        None => None,
    }
}
