//! The search for the one symbol that is missing, too many or another: each is tried near the refused symbol, and read on from there.

use crate::due::spelling;
use crate::names::is_alike;
use crate::near::{
    UNLIKELY, cost_of_deletion, cost_of_insertion, cost_of_opening, cost_of_replacement,
    is_doubled, is_mistaken,
};
use crate::reader::{Part, Reader, State};
use crate::scene::Scene;
use bk_lex::Kind;
use std::alloc::AllocError;

/// How many symbols before the refused one are changed, and how many after it are read.
const BACK: usize = 48;

const AHEAD: usize = 3000;

/// How many symbols before the refused one a `$(` is tried.
const FAR: usize = 1500;

/// How many symbols have to follow the refused one, where no end of the section comes before.
const ENOUGH: usize = 10;

/// A symbol that is written in the text, or in a header.
#[derive(Clone, Copy, Debug)]
pub struct Written<'a> {
    pub kind: Kind,
    pub text: &'a [u8],
    /// Whether it is the first of its line.
    pub is_first: bool,
    /// How many blanks its line begins with.
    pub indentation: usize,
    /// Its index among all symbols.
    pub index: usize,
}

/// A change of one symbol.
#[derive(Clone, Copy, Debug, PartialEq, Eq)]
pub enum Edit {
    Insert(Kind),
    Delete,
    Replace(Kind),
}

/// A change of a symbol, and what it leads to.
#[derive(Clone, Copy, Debug)]
pub struct Repair {
    pub edit: Edit,
    /// The index among the written symbols of the one that is changed, or before which one is put.
    pub place: usize,
    /// What is due before that place, and the innermost construct there.
    pub state: State,
    pub around: Option<Part>,
    /// Whether an operand of an operator is due there.
    pub is_operand: bool,
    /// How many symbols are read then; one more where they are a section.
    reach: usize,
    /// The less, the likelier the mistake is.
    cost: usize,
}

/// The symbols that are tried before another, and in its place.
static TRIED: [Kind; 36] = [
    Kind::Semicolon,
    Kind::Close,
    Kind::Do,
    Kind::Be,
    Kind::To,
    Kind::Into,
    Kind::Valof,
    Kind::Or,
    Kind::Colon,
    Kind::Assign,
    Kind::Equal,
    Kind::Arrow,
    Kind::Open,
    Kind::SectionOpen,
    Kind::SectionClose,
    Kind::Let,
    Kind::Plus,
    Kind::Name,
    Kind::By,
    Kind::And,
    Kind::Test,
    Kind::If,
    Kind::While,
    Kind::For,
    Kind::SwitchOn,
    Kind::ResultIs,
    Kind::Case,
    Kind::Default,
    Kind::Repeat,
    Kind::RepeatWhile,
    Kind::Vec,
    Kind::Bar,
    Kind::Ampersand,
    Kind::Manifest,
    Kind::Return,
    Kind::Comma,
];

/// The words that a name is compared with.
static WORDS: [Kind; 26] = [
    Kind::Test,
    Kind::While,
    Kind::SwitchOn,
    Kind::ResultIs,
    Kind::Case,
    Kind::Default,
    Kind::Repeat,
    Kind::RepeatWhile,
    Kind::RepeatUntil,
    Kind::Manifest,
    Kind::Static,
    Kind::Global,
    Kind::Return,
    Kind::Finish,
    Kind::Unless,
    Kind::Until,
    Kind::Valof,
    Kind::Into,
    Kind::EndCase,
    Kind::Break,
    Kind::Loop,
    Kind::Goto,
    Kind::Table,
    Kind::Let,
    Kind::And,
    Kind::For,
];

/// What it costs that a name is a misspelled word.
const MISSPELLED: usize = 5;

/// Whether a symbol ends an operand.
fn ends_operand(kind: Kind) -> bool {
    matches!(
        kind,
        Kind::Name
            | Kind::Number
            | Kind::Text
            | Kind::Character
            | Kind::True
            | Kind::False
            | Kind::Query
            | Kind::Close
    )
}

/// Whether a symbol ends a command.
fn ends_command(kind: Kind) -> bool {
    ends_operand(kind)
        || matches!(
            kind,
            Kind::SectionClose
                | Kind::Break
                | Kind::Loop
                | Kind::EndCase
                | Kind::Return
                | Kind::Finish
                | Kind::Repeat
        )
}

/// Whether a symbol begins a command and nothing else.
pub fn begins_command(kind: Kind) -> bool {
    matches!(
        kind,
        Kind::SectionOpen
            | Kind::Goto
            | Kind::If
            | Kind::Unless
            | Kind::Test
            | Kind::While
            | Kind::Until
            | Kind::For
            | Kind::SwitchOn
            | Kind::Break
            | Kind::Loop
            | Kind::EndCase
            | Kind::ResultIs
            | Kind::Return
            | Kind::Finish
    )
}

/// What is inserted between a symbol and the next, as the lexer does it.
fn inserted(before: Option<Kind>, kind: Kind, is_first: bool) -> Option<Kind> {
    let before = before?;
    let begins = begins_command(kind)
        || is_first
            && matches!(
                kind,
                Kind::Name | Kind::Number | Kind::Open | Kind::Bang | Kind::Case | Kind::Default
            );
    if !begins {
        return None;
    }
    if is_first && ends_command(before) {
        return Some(Kind::Semicolon);
    }
    if !is_first && ends_operand(before) {
        return Some(Kind::Do);
    }
    None
}

/// A reader, with the symbol before.
#[derive(Drop)]
pub struct Trial<'a> {
    pub reader: Reader<'a>,
    pub last: Option<Kind>,
}

impl<'a> Trial<'a> {
    /// The same, which takes only what has an address as a destination.
    fn copy(&self) -> Result<Trial<'a>, AllocError> {
        let mut reader = self.reader.copy()?;
        reader.strict = true;
        Ok(Trial {
            reader,
            last: self.last,
        })
    }

    /// Reads a symbol, with what is inserted before it.
    fn read(&mut self, kind: Kind, text: &'a [u8], is_first: bool) -> Result<bool, AllocError> {
        if let Some(between) = inserted(self.last, kind, is_first) {
            if !self.reader.read(between, &[])? {
                return Ok(false);
            }
        }
        self.last = Some(kind);
        self.reader.read(kind, text)
    }

    /// How many of the symbols from one on are read, up to another; one more where they end a section.
    fn read_on(
        &mut self,
        symbols: &[Written<'a>],
        from: usize,
        to: usize,
        moves: bool,
    ) -> Result<usize, AllocError> {
        let mut moves = moves;
        for place in from..to {
            let Some(symbol) = symbols.get(place) else {
                return Ok(place);
            };
            if !self.read(symbol.kind, symbol.text, symbol.is_first && !moves)? {
                return Ok(place);
            }
            moves = false;
        }
        if to >= symbols.len() && !self.reader.end()? {
            return Ok(to);
        }
        Ok(to.saturating_add(1))
    }
}

/// The symbols that are written.
fn all_written<'a>(scene: &Scene<'a>) -> Result<Vec<Written<'a>>, AllocError> {
    let mut symbols = Vec::new(scene.alloc);
    let mut before = None;
    let mut indentation = 0;
    for (index, token) in scene.tokens.iter().enumerate() {
        if !token.text.is_empty() {
            let is_first = before != Some(token.line);
            if is_first {
                indentation = scene.lines.indentation(scene.text, token.line);
            }
            symbols.push(Written {
                kind: token.kind,
                text: token.text,
                is_first,
                indentation,
                index,
            })?;
            before = Some(token.line);
        }
    }
    Ok(symbols)
}

/// The written symbols around the refused one.
#[derive(Drop)]
pub struct Near<'a> {
    pub symbols: Vec<Written<'a>>,
    /// The place of the refused one, or of the one before which the refused one was inserted.
    pub refused: usize,
    /// The index of the innermost `$(` that is open there, and whether none is.
    pub open: Option<usize>,
    pub is_outermost: bool,
}

/// Whether a symbol stays where it is when it moves to the beginning of a line.
fn leads(kind: Kind) -> bool {
    begins_command(kind)
        || matches!(
            kind,
            Kind::Name | Kind::Let | Kind::And | Kind::Case | Kind::Default | Kind::Manifest
        )
}

impl<'a> Near<'a> {
    /// The written symbols of a section, and the refused one.
    fn new(scene: &Scene<'a>, open: Option<usize>) -> Result<Near<'a>, AllocError> {
        let symbols = all_written(scene)?;
        let refused = symbols.iter().position(|symbol| symbol.index >= scene.at);
        let refused = refused.unwrap_or(symbols.len());
        Ok(Near {
            symbols,
            refused,
            open,
            is_outermost: open.is_none(),
        })
    }

    /// The kind of a written symbol.
    pub fn kind(&self, place: usize) -> Option<Kind> {
        match self.symbols.get(place) {
            Some(symbol) => Some(symbol.kind),
            None => None,
        }
    }

    /// The index among all symbols of a written symbol; their number where none is there.
    pub fn index(&self, place: usize) -> usize {
        match self.symbols.get(place) {
            Some(symbol) => symbol.index,
            None => usize::MAX,
        }
    }

    /// The index of the symbol before which one is missing: the refused one, where that was inserted there.
    pub fn gap(&self, place: usize, at: usize) -> usize {
        if place == self.refused {
            at
        } else {
            self.index(place)
        }
    }

    /// Whether a written symbol is the first of its line, or none is there.
    pub fn is_first(&self, place: usize) -> bool {
        match self.symbols.get(place) {
            Some(symbol) => symbol.is_first,
            None => true,
        }
    }

    /// How many blanks the line of a written symbol begins with.
    pub fn indentation(&self, place: usize) -> usize {
        match self.symbols.get(place) {
            Some(symbol) => symbol.indentation,
            None => 0,
        }
    }

    /// The spelling of a written symbol, empty where there is none.
    pub fn text(&self, place: usize) -> &'a [u8] {
        match self.symbols.get(place) {
            Some(symbol) => symbol.text,
            None => &[],
        }
    }

    /// Whether a written symbol may be a mistake for one of this kind.
    fn may_mean(&self, place: usize, state: State, kind: Kind) -> bool {
        match self.kind(place) {
            Some(Kind::Be) => state == State::Due && kind == Kind::Equal,
            Some(Kind::Equal) if kind == Kind::Be => state == State::Due,
            Some(written) => is_mistaken(written, kind),
            None => false,
        }
    }

    /// How far the symbols are read where one is changed.
    fn reach(&self, base: &Trial<'a>, place: usize, edit: Edit) -> Result<usize, AllocError> {
        let mut trial = base.copy()?;
        let to = self.symbols.len().min(self.refused.saturating_add(AHEAD));
        let first = self.is_first(place);
        let (taken, next, moves) = match edit {
            Edit::Insert(kind) => {
                let leads = leads(kind);
                (trial.read(kind, &[], first && leads)?, place, leads)
            }
            Edit::Delete => (true, place.saturating_add(1), false),
            Edit::Replace(kind) => (
                trial.read(kind, &[], first)?,
                place.saturating_add(1),
                false,
            ),
        };
        if !taken {
            return Ok(0);
        }
        if edit == Edit::Delete && first {
            return trial.read_deleted(&self.symbols, next, to);
        }
        trial.read_on(&self.symbols, next, to, moves)
    }
}

impl<'a> Trial<'a> {
    /// The same, where the first of a line is deleted.
    fn read_deleted(
        &mut self,
        symbols: &[Written<'a>],
        from: usize,
        to: usize,
    ) -> Result<usize, AllocError> {
        let Some(symbol) = symbols.get(from) else {
            return self.read_on(symbols, from, to, false);
        };
        if !self.read(symbol.kind, symbol.text, true)? {
            return Ok(from);
        }
        self.read_on(symbols, from.saturating_add(1), to, false)
    }
}

/// The better of two repairs: the one that gets further, or that is the likelier mistake.
fn better(best: Option<Repair>, other: Repair) -> Option<Repair> {
    match best {
        Some(best) if best.reach > other.reach => Some(best),
        Some(best) if best.reach == other.reach && best.cost <= other.cost => Some(best),
        _ => Some(other),
    }
}

/// The better of a doubled symbol, or of a `$(` where one may be missing, and of the changes before.
fn best_before<'a>(
    near: &Near<'a>,
    base: &Trial<'a>,
    place: usize,
    before: Option<Repair>,
) -> Result<Option<Repair>, AllocError> {
    let last = place.checked_sub(1);
    let may_open = near.is_outermost
        && last.is_some_and(|last| near.kind(last).is_some_and(opens_body));
    let (edit, cost) = if may_open {
        (
            Edit::Insert(Kind::SectionOpen),
            cost_of_opening(near, place),
        )
    } else if is_doubled(near, place) {
        (Edit::Delete, cost_of_deletion(near, place))
    } else {
        return Ok(before);
    };
    let reach = near.reach(base, place, edit)?;
    Ok(better(
        before,
        Repair {
            edit,
            place,
            state: base.reader.state,
            around: base.reader.around(),
            is_operand: base.reader.is_operand(),
            reach,
            cost,
        },
    ))
}

/// Whether a block often comes after a symbol.
fn opens_body(kind: Kind) -> bool {
    matches!(
        kind,
        Kind::Do | Kind::Be | Kind::Valof | Kind::Into | Kind::Or | Kind::Colon
    )
}

/// The best of the changes at a place, and of those before.
fn best_at<'a>(
    near: &Near<'a>,
    base: &Trial<'a>,
    place: usize,
    before: Option<Repair>,
) -> Result<Option<Repair>, AllocError> {
    let mut best = before;
    let state = base.reader.state;
    let around = base.reader.around();
    let is_operand = base.reader.is_operand();
    let reach = near.reach(base, place, Edit::Delete)?;
    best = better(
        best,
        Repair {
            edit: Edit::Delete,
            place,
            state,
            around,
            is_operand,
            reach,
            cost: cost_of_deletion(near, place),
        },
    );
    for kind in TRIED {
        let reach = near.reach(base, place, Edit::Insert(kind))?;
        best = better(
            best,
            Repair {
                edit: Edit::Insert(kind),
                place,
                state,
                around,
                is_operand,
                reach,
                cost: cost_of_insertion(near, base, place, kind),
            },
        );
        if near.may_mean(place, state, kind) {
            let reach = near.reach(base, place, Edit::Replace(kind))?;
            best = better(
                best,
                Repair {
                    edit: Edit::Replace(kind),
                    place,
                    state,
                    around,
                    is_operand,
                    reach,
                    cost: cost_of_replacement(near, place),
                },
            );
        }
    }
    best_word(near, base, place, best)
}

/// The better of a word that a name is perhaps meant for, and the best of the changes before.
fn best_word<'a>(
    near: &Near<'a>,
    base: &Trial<'a>,
    place: usize,
    before: Option<Repair>,
) -> Result<Option<Repair>, AllocError> {
    let mut best = before;
    if near.kind(place) != Some(Kind::Name) {
        return Ok(best);
    }
    for kind in WORDS {
        if is_alike(near.text(place), spelling(kind)) {
            let edit = Edit::Replace(kind);
            let reach = near.reach(base, place, edit)?;
            best = better(
                best,
                Repair {
                    edit,
                    place,
                    state: base.reader.state,
                    around: base.reader.around(),
                    is_operand: base.reader.is_operand(),
                    reach,
                    cost: MISSPELLED,
                },
            );
        }
    }
    Ok(best)
}

/// The written symbols around the refused one, and the change of one symbol that gets furthest, if one gets far.
///
/// `open` is the index of the innermost `$(` that is open there. Outside procedures a `$(` may be missing further up.
pub fn find_repair<'a>(
    scene: &Scene<'a>,
    open: Option<usize>,
) -> Result<(Near<'a>, Option<Repair>), AllocError> {
    let near = Near::new(scene, open)?;
    let mut base = Trial {
        reader: Reader::new(scene.alloc),
        last: None,
    };
    let from = near.refused.saturating_sub(BACK);
    let far = near.refused.saturating_sub(FAR);
    let mut best = None;
    for (place, symbol) in near.symbols.iter().enumerate() {
        if place >= from && place <= near.refused {
            best = best_at(&near, &base, place, best)?;
        } else if place >= far && place < from {
            best = best_before(&near, &base, place, best)?;
        }
        if place < near.refused && !base.read(symbol.kind, symbol.text, symbol.is_first)? {
            return Ok((near, None));
        }
    }
    if near.refused >= near.symbols.len() {
        best = best_at(&near, &base, near.refused, best)?;
    }
    let enough = near
        .symbols
        .len()
        .saturating_add(1)
        .min(near.refused.saturating_add(ENOUGH));
    let found = match best {
        Some(repair) if repair.reach >= enough && repair.cost < UNLIKELY => Some(repair),
        _ => None,
    };
    Ok((near, found))
}
