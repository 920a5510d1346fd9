//! Where the code of a section comes from: the symbol of each statement, and what labels and globals are called in the source.

use crate::text::Text;
use bk_base::Line;
use bk_lex::{Kind, Token};
use bk_ocode::{Ocode, Stmt, Variable};
use bk_tree::Position;
use std::alloc::{AllocError, Global};

/// A symbol that the source spells.
#[derive(Clone, Copy)]
struct Spelled {
    /// The number of bytes of the section's text up to and with its first.
    bytes: u32,
    /// Its number among the tokens.
    token: usize,
}

/// What a label is set by.
#[derive(Clone, Copy, Debug, PartialEq, Eq)]
enum Setter {
    /// A statement LAB.
    Code,
    /// An ENTRY.
    Procedure,
    /// A DATALAB.
    Data,
}

/// A label that is set.
#[derive(Clone, Copy)]
struct LabelAt {
    setter: Setter,
    /// The number of its symbol among the tokens.
    token: usize,
    /// How many labels of the same symbol are before it.
    before: u32,
}

/// The code of a section with the symbols that it comes from.
#[derive(Drop)]
pub struct Origin<'a> {
    tokens: &'a [Token<'a>],
    spelled: Vec<Spelled>,
    stmts: &'a [Stmt],
    places: &'a [Position],
    /// By the number of a label.
    labels: Vec<Option<LabelAt>>,
    /// By the number of a label: the constant of its CASE.
    cases: Vec<Option<i32>>,
    /// By the number of a token: how many labels it has.
    counts: Vec<u32>,
    /// By the number of a global: the token of a name that means it.
    globals: Vec<Option<usize>>,
}

/// Puts a value at an index, with nothing at the indices that the list did not have.
pub fn put_at<T: Copy>(
    list: &mut Vec<Option<T>>,
    index: usize,
    value: T,
) -> Result<(), AllocError> {
    for _ in list.len()..=index {
        list.push(None)?;
    }
    if let Some(old) = list.get_mut(index) {
        *old = Some(value);
    }
    Ok(())
}

/// The symbols that the source spells, by their places.
fn spelled_of(alloc: Global, tokens: &[Token<'_>]) -> Result<Vec<Spelled>, AllocError> {
    let mut spelled = Vec::new(alloc);
    for (number, token) in tokens.iter().enumerate() {
        if let Some(place) = token.place {
            spelled.push(Spelled {
                bytes: place.saturating_add(1),
                token: number,
            })?;
        }
    }
    Ok(spelled)
}

impl<'a> Origin<'a> {
    /// The code of a section, whose statements have these places.
    pub fn of(
        alloc: Global,
        tokens: &'a [Token<'a>],
        code: &'a Ocode,
        places: &'a [Position],
    ) -> Result<Origin<'a>, AllocError> {
        let mut counts = Vec::new(alloc);
        for _ in tokens {
            counts.push(0)?;
        }
        let mut origin = Origin {
            tokens,
            spelled: spelled_of(alloc, tokens)?,
            stmts: code.stmts(),
            places,
            labels: Vec::new(alloc),
            cases: Vec::new(alloc),
            counts,
            globals: Vec::new(alloc),
        };
        for (number, stmt) in code.stmts().iter().enumerate() {
            origin.note(number, stmt)?;
        }
        Ok(origin)
    }

    /// Notes what a statement says of labels and globals.
    fn note(&mut self, number: usize, stmt: &Stmt) -> Result<(), AllocError> {
        match stmt {
            Stmt::Label { label } => self.sets(Setter::Code, number, *label),
            Stmt::Entry { label, .. } => self.sets(Setter::Procedure, number, *label),
            Stmt::DataLabel { label } => self.sets(Setter::Data, number, *label),
            Stmt::Switch { cases, .. } => {
                for case in cases.as_slice() {
                    put_at(&mut self.cases, case.label as usize, case.value)?;
                }
                Ok(())
            }
            Stmt::Load {
                from: Variable::Global(global),
            }
            | Stmt::Assign {
                to: Variable::Global(global),
            }
            | Stmt::Address {
                of: Variable::Global(global),
            } => match self.token_of(number) {
                Some(token) => put_at(&mut self.globals, *global as usize, token),
                None => Ok(()),
            },
            _ => Ok(()),
        }
    }

    /// Notes that a statement sets a label.
    fn sets(&mut self, setter: Setter, number: usize, label: u32) -> Result<(), AllocError> {
        let Some(token) = self.token_of(number) else {
            return Ok(());
        };
        let before = self.counts.get(token).copied().unwrap_or(0);
        if let Some(count) = self.counts.get_mut(token) {
            if setter == Setter::Code {
                *count = before.saturating_add(1);
            }
        }
        put_at(
            &mut self.labels,
            label as usize,
            LabelAt {
                setter,
                token,
                before,
            },
        )
    }

    /// The statements.
    pub fn stmts(&self) -> &'a [Stmt] {
        self.stmts
    }

    /// The name that an ENTRY of this number gives its procedure; empty where the statement is no ENTRY.
    pub fn entry_name(&self, number: usize) -> &'a [u8] {
        match self.stmts.get(number) {
            Some(Stmt::Entry { name, .. }) => name.as_bytes(),
            _ => b"",
        }
    }

    /// The number of the token that begins at a position.
    pub fn token_at(&self, position: Position) -> Option<usize> {
        let bytes = position.bytes();
        let found = self
            .spelled
            .as_slice()
            .binary_search_by_key(&bytes, |one| one.bytes)
            .ok()?;
        Some(self.spelled.get(found)?.token)
    }

    /// The number of the token of a statement.
    pub fn token_of(&self, number: usize) -> Option<usize> {
        self.token_at(*self.places.get(number)?)
    }

    /// The symbol of a statement.
    pub fn symbol(&self, number: usize) -> Option<&'a Token<'a>> {
        self.tokens.get(self.token_of(number)?)
    }

    /// The line of a statement, if a symbol of the source gives it.
    pub fn line(&self, number: usize) -> Option<Line> {
        Some(self.symbol(number)?.line)
    }

    /// The line of the procedure that a label is the ENTRY of.
    pub fn line_of_label(&self, label: u32) -> Option<Line> {
        Some(self.tokens.get(self.label_at(label)?.token)?.line)
    }

    /// The name at a position.
    pub fn name_at(&self, position: Position) -> Option<&'a [u8]> {
        self.name_of_token(self.token_at(position)?)
    }

    /// The name of a statement whose symbol is one.
    pub fn name(&self, number: usize) -> Option<&'a [u8]> {
        self.name_of_token(self.token_of(number)?)
    }

    /// The token of a name of a global, if a statement has one for it.
    pub fn global_token(&self, number: u32) -> Option<usize> {
        self.globals.get(number as usize).copied()?
    }

    /// The name of a global, if a statement has one for it.
    pub fn global_name(&self, number: u32) -> Option<&'a [u8]> {
        self.name_of_token(self.global_token(number)?)
    }

    /// Whether a label is set at data.
    pub fn is_data(&self, label: u32) -> bool {
        match self.label_at(label) {
            Some(at) => at.setter == Setter::Data,
            None => false,
        }
    }

    /// The globals that statements have names for: the token of each by its number.
    pub fn globals(&self) -> &[Option<usize>] {
        self.globals.as_slice()
    }

    /// The token of the name of the static word that a label is set at.
    pub fn static_token(&self, label: u32) -> Option<usize> {
        let at = self.label_at(label)?;
        let _name = self.name_of_token(at.token)?;
        if at.setter == Setter::Data {
            Some(at.token)
        } else {
            None
        }
    }

    /// The name that a token is.
    pub fn name_of_token(&self, token: usize) -> Option<&'a [u8]> {
        let token = self.tokens.get(token)?;
        if token.kind == Kind::Name {
            Some(token.text)
        } else {
            None
        }
    }

    /// Where a label is set.
    fn label_at(&self, label: u32) -> Option<LabelAt> {
        self.labels.get(label as usize).copied()?
    }

    /// Adds what a label is for, after a comma, if that is known.
    pub fn say_label(&self, text: &mut Text, label: u32) -> Result<(), AllocError> {
        let Some(at) = self.label_at(label) else {
            return Ok(());
        };
        let Some(token) = self.tokens.get(at.token) else {
            return Ok(());
        };
        text.say(", ")?;
        match at.setter {
            Setter::Procedure => {
                text.say("the procedure ")?;
                text.name(token.text)
            }
            Setter::Data if token.kind == Kind::Name => {
                text.say("the static word ")?;
                text.name(token.text)
            }
            Setter::Data => self.say_symbol(text, "the ", at.token),
            Setter::Code => self.say_purpose(text, label, at),
        }
    }

    /// Adds words, a symbol, and its line.
    fn say_symbol(&self, text: &mut Text, words: &str, token: usize) -> Result<(), AllocError> {
        let Some(token) = self.tokens.get(token) else {
            return Ok(());
        };
        text.say(words)?;
        text.name(token.text)?;
        text.say(" of line ")?;
        text.natural(token.line.number())
    }

    /// Adds what a label of code is for.
    fn say_purpose(&self, text: &mut Text, label: u32, at: LabelAt) -> Result<(), AllocError> {
        let kind = self.tokens.get(at.token).map(|token| token.kind);
        match kind {
            Some(Kind::Case) => self.say_case(text, label),
            Some(Kind::Default) => text.say("the DEFAULT"),
            Some(Kind::Name) if self.is_label(at.token) => self.say_label_name(text, at.token),
            Some(Kind::If | Kind::Unless | Kind::SwitchOn) => {
                self.say_symbol(text, "after the ", at.token)
            }
            Some(Kind::Valof) => self.say_symbol(text, "the end of the ", at.token),
            Some(Kind::Test) => {
                let words = if at.before == 0 {
                    "the OR of the "
                } else {
                    "after the "
                };
                self.say_symbol(text, words, at.token)
            }
            Some(Kind::While | Kind::Until) => self.say_loop(
                text,
                at,
                ["body", "test", "end", "end"],
            ),
            Some(Kind::For) => self.say_loop(text, at, ["body", "step", "test", "end"]),
            Some(Kind::Arrow) => {
                let words = if at.before == 0 {
                    "the second value of the "
                } else {
                    "after the "
                };
                self.say_symbol(text, words, at.token)
            }
            // A chain of relations is an `&` with the position of a relation.
            Some(
                Kind::Ampersand
                | Kind::Bar
                | Kind::Equal
                | Kind::NotEqual
                | Kind::Less
                | Kind::Greater
                | Kind::LessEqual
                | Kind::GreaterEqual,
            ) => self.say_symbol(text, "after the ", at.token),
            _ => self.say_repeat(text, at),
        }
    }

    /// Whether a name is that of a label, with its colon.
    fn is_label(&self, token: usize) -> bool {
        match self.tokens.get(token.saturating_add(1)) {
            Some(next) => next.kind == Kind::Colon,
            None => false,
        }
    }

    /// Adds the name of a label.
    fn say_label_name(&self, text: &mut Text, token: usize) -> Result<(), AllocError> {
        text.say("the label ")?;
        match self.name_of_token(token) {
            Some(name) => text.name(name),
            None => Ok(()),
        }
    }

    /// Adds the CASE that a label is of.
    fn say_case(&self, text: &mut Text, label: u32) -> Result<(), AllocError> {
        text.say("the CASE ")?;
        match self.cases.get(label as usize).copied() {
            Some(Some(value)) => text.integer(value),
            _ => Ok(()),
        }
    }

    /// Adds which part of a loop a label is.
    fn say_loop(
        &self,
        text: &mut Text,
        at: LabelAt,
        parts: [&'static str; 4],
    ) -> Result<(), AllocError> {
        let [first, second, third, fourth] = parts;
        text.say("the ")?;
        text.say(match at.before {
            0 => first,
            1 => second,
            2 => third,
            _ => fourth,
        })?;
        self.say_symbol(text, " of the ", at.token)
    }

    /// Adds which part of a REPEAT a label is. One with a condition has a label before that.
    fn say_repeat(&self, text: &mut Text, at: LabelAt) -> Result<(), AllocError> {
        let count = self.counts.get(at.token).copied().unwrap_or(0);
        text.say(match at.before {
            0 => "the start of the REPEAT",
            1 if count > 2 => "the test of the REPEAT",
            _ => "the end of the REPEAT",
        })?;
        match self.tokens.get(at.token) {
            Some(token) => {
                text.say(" from line ")?;
                text.natural(token.line.number())
            }
            None => Ok(()),
        }
    }
}
