//! The words of a section's code, each with what it comes from.

use crate::entries::Entries;
use crate::follow::Follow;
use crate::origin::Origin;
use crate::placer::Placer;
use bk_base::Line;
use bk_machine::{Intcode, Item};
use bk_source_map::Mark;
use std::alloc::{AllocError, Global};

/// A word of the code.
#[derive(Clone, Copy)]
pub struct CodeWord {
    /// The line of its statement, if a symbol of the source gives it.
    pub line: Option<Line>,
    /// The number of its statement, from 0.
    pub stmt: usize,
    /// The number of its item, from 1, where the bytes of a string are one item.
    pub item: usize,
    /// The token of the name that its operand has in the source.
    pub token: Option<usize>,
    /// The number of its procedure; data is of none.
    pub procedure: Option<usize>,
}

/// A procedure of the code.
#[derive(Clone, Copy)]
pub struct CodeProcedure {
    /// The number of its first word, from 0.
    pub word: usize,
    /// The number of its ENTRY, from 0.
    pub stmt: usize,
    /// How many arguments it has.
    pub formals: u32,
}

/// A static word of the code.
#[derive(Clone, Copy)]
pub struct CodeStatic {
    /// The number of its word, from 0.
    pub word: usize,
    /// The token of its name.
    pub token: usize,
}

/// The code of a section.
#[derive(Drop)]
pub struct Code {
    /// Its words, in the order of their addresses.
    pub words: Vec<CodeWord>,
    /// Its procedures, in the same order.
    pub procedures: Vec<CodeProcedure>,
    /// Its static words that have names.
    pub statics: Vec<CodeStatic>,
}

/// Code so far.
#[derive(Drop)]
struct Walk<'s> {
    code: Code,
    follow: Follow<'s>,
    entries: Entries<'s>,
    placer: Placer,
    /// The number of the item that was reached last.
    item: usize,
    in_bytes: bool,
    procedure: Option<usize>,
}

impl<'s> Walk<'s> {
    /// Goes to the next item, the bytes of a string being one.
    fn reach(&mut self, item: Item) {
        let is_byte = matches!(item, Item::Byte(_));
        if !is_byte || !self.in_bytes {
            self.item = self.item.saturating_add(1);
        }
        self.in_bytes = is_byte;
    }

    /// Passes a label: a procedure begins there, or data does.
    fn label(&mut self, label: u32) -> Result<(), AllocError> {
        self.follow.set(label);
        let word = self.code.words.len();
        if self.entries.name_at(label).is_some() {
            let _before = self.entries.pass();
            self.procedure = Some(self.code.procedures.len());
            self.code.procedures.push(CodeProcedure {
                word,
                stmt: self.follow.stmt(),
                formals: self.follow.frame().formals(),
            })?;
        } else if self.follow.is_data(label) {
            self.procedure = None;
            if let Some(token) = self.follow.origin().static_token(label) {
                self.code.statics.push(CodeStatic { word, token })?;
            }
        }
        Ok(())
    }

    /// Adds the words of an item.
    fn words(&mut self, item: Item) -> Result<(), AllocError> {
        let token = match item {
            Item::Instruction { operand, .. } => self.follow.token_of(operand),
            _ => None,
        };
        for _ in 0..self.placer.pass(item) {
            self.code.words.push(CodeWord {
                line: self.follow.line(),
                stmt: self.follow.stmt(),
                item: self.item,
                token,
                procedure: self.procedure,
            })?;
        }
        Ok(())
    }
}

impl Code {
    /// The code of a section: the items of its segment, of which there are so many up to the end of each statement.
    pub fn of<'s>(
        alloc: Global,
        origin: &'s Origin<'s>,
        segment: &Intcode,
        ends: &'s [usize],
        marks: &'s [Mark],
    ) -> Result<Code, AllocError> {
        let mut walk = Walk {
            code: Code {
                words: Vec::new(alloc),
                procedures: Vec::new(alloc),
                statics: Vec::new(alloc),
            },
            follow: Follow::of(alloc, origin, ends, marks),
            entries: Entries::of(alloc, origin.stmts())?,
            placer: Placer::new(),
            item: 0,
            in_bytes: false,
            procedure: None,
        };
        for (number, item) in segment.items().iter().enumerate() {
            walk.follow.reach(number)?;
            walk.reach(*item);
            if let Item::SetLabel(label) = item {
                walk.label(*label)?;
            }
            walk.words(*item)?;
        }
        let Walk { code, .. } = walk;
        Ok(code)
    }
}
