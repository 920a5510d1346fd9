//! The names of the words of a frame, statement by statement.

use crate::origin::Origin;
use crate::text::Text;
use bk_ocode::{Stmt, Variable};
use bk_source_map::{Change, Mark};
use bk_tree::Position;
use std::alloc::{AllocError, Global};

/// The first word of a frame after its links.
const FIRST_FORMAL: u32 = 2;

/// A word of the frame that has a name.
#[derive(Clone, Copy)]
pub struct NamedWord {
    /// Its number in the frame.
    pub slot: u32,
    /// How it got its name.
    pub change: Change,
    /// Its name, by its position.
    pub name: Position,
    /// The first word of its vector, if it has one.
    pub vector: u32,
}

/// The words of the frame that have names before a statement.
#[derive(Drop)]
pub struct Frame<'s> {
    words: Vec<NamedWord>,
    marks: &'s [Mark],
    /// How many marks were passed.
    passed: usize,
    /// How many statements were reached.
    reached: usize,
    /// How many words the frame has in use.
    depth: u32,
    /// How many formals were named.
    formals: u32,
    /// The word whose address was pushed last.
    addressed: u32,
    /// The name of the procedure.
    procedure: &'s [u8],
}

/// The number of words in use after a statement that has so many before it.
fn depth_after(depth: u32, stmt: &Stmt) -> u32 {
    match stmt {
        Stmt::Number { .. }
        | Stmt::True
        | Stmt::False
        | Stmt::Query
        | Stmt::Load { .. }
        | Stmt::Address { .. }
        | Stmt::Text { .. } => depth.saturating_add(1),
        Stmt::Dyadic { .. }
        | Stmt::LoadByte
        | Stmt::Assign { .. }
        | Stmt::JumpIf { .. }
        | Stmt::GiveResult { .. }
        | Stmt::Switch { .. }
        | Stmt::ReturnItem => depth.saturating_sub(1),
        Stmt::AssignAt => depth.saturating_sub(2),
        Stmt::AssignByte => depth.saturating_sub(3),
        Stmt::TakeResult { depth: next } | Stmt::CallFunction { frame: next } => {
            next.saturating_add(1)
        }
        Stmt::Stack { depth: next }
        | Stmt::Save { depth: next }
        | Stmt::CallRoutine { frame: next } => { *next }
        Stmt::Entry { .. } => FIRST_FORMAL,
        _ => depth,
    }
}

impl<'s> Frame<'s> {
    /// Before the first statement.
    pub fn new(alloc: Global, marks: &'s [Mark]) -> Frame<'s> {
        Frame {
            words: Vec::new(alloc),
            marks,
            passed: 0,
            reached: 0,
            depth: FIRST_FORMAL,
            formals: 0,
            addressed: 0,
            procedure: b"",
        }
    }

    /// The word of this number, if it has a name.
    pub fn word(&self, slot: u32) -> Option<NamedWord> {
        let mut found = None;
        for word in self.words.as_slice() {
            if word.slot == slot {
                found = Some(*word);
            }
        }
        found
    }

    /// The words that have names, those of the outermost block first.
    pub fn words(&self) -> &[NamedWord] {
        self.words.as_slice()
    }

    /// How many arguments the procedure has.
    pub fn formals(&self) -> u32 {
        self.formals
    }

    /// How many marks were passed.
    pub fn passed(&self) -> usize {
        self.passed
    }

    /// The word that has the name at this position.
    pub fn named(&self, name: Position) -> Option<NamedWord> {
        let mut found = None;
        for word in self.words.as_slice() {
            if word.name == name && word.change != Change::Limit {
                found = Some(*word);
            }
        }
        found
    }

    /// The words past the depth have no names.
    fn leave(&mut self) {
        for _ in 0..self.words.len() {
            match self.words.last() {
                Some(word) if word.slot >= self.depth => {
                    let _word = self.words.pop();
                }
                _ => return,
            }
        }
    }

    /// Passes a mark.
    fn pass(&mut self, mark: Mark) -> Result<(), AllocError> {
        let slot = match mark.change {
            Change::Leaves => {
                self.leave();
                return Ok(());
            }
            Change::Formal => {
                self.formals = self.formals.saturating_add(1);
                self.formals.saturating_add(FIRST_FORMAL - 1)
            }
            _ => self.depth.saturating_sub(1),
        };
        self.words.push(NamedWord {
            slot,
            change: mark.change,
            name: mark.name,
            vector: self.addressed,
        })?;
        Ok(())
    }

    /// Goes to the statement of this number: the next one, or the one that was reached last.
    pub fn reach(&mut self, number: usize, stmt: &'s Stmt) -> Result<(), AllocError> {
        if number < self.reached {
            return Ok(());
        }
        self.reached = number.saturating_add(1);
        if let Stmt::Entry { name, .. } = stmt {
            self.words.clear();
            self.formals = 0;
            self.procedure = name.as_bytes();
        }
        let marks = self.marks;
        for i in self.passed..marks.len() {
            let mark = marks[i];
            if mark.before > number {
                return Ok(());
            }
            self.pass(mark)?;
            self.passed = i.saturating_add(1);
        }
        Ok(())
    }

    /// Goes past a statement.
    pub fn pass_stmt(&mut self, stmt: &Stmt) {
        if let Stmt::Address {
            of: Variable::Local(slot),
        } = stmt
        {
            self.addressed = *slot;
        }
        self.depth = depth_after(self.depth, stmt);
    }

    /// The variable whose vector begins at the word that a statement pushes the address of.
    pub fn vector_of(&self, number: usize) -> Option<Position> {
        let mark = self.marks.get(self.passed)?;
        if mark.change == Change::Vector && mark.before == number.saturating_add(1) {
            Some(mark.name)
        } else {
            None
        }
    }

    /// Adds the name of a word, and returns whether it has one.
    pub fn say_word(
        &self,
        text: &mut Text,
        origin: &Origin<'_>,
        slot: u32,
    ) -> Result<bool, AllocError> {
        let Some(word) = self.word(slot) else {
            return Ok(false);
        };
        let Some(name) = origin.name_at(word.name) else {
            return Ok(false);
        };
        if word.change == Change::Limit {
            text.say("the limit of ")?;
        }
        text.name(name)?;
        if word.change == Change::Formal {
            text.say(", argument ")?;
            text.natural(slot.saturating_sub(FIRST_FORMAL - 1))?;
            text.say(" of ")?;
            text.spell(self.procedure)?;
        }
        Ok(true)
    }

    /// Adds the formals, after the links.
    pub fn say_formals(&self, text: &mut Text, origin: &Origin<'_>) -> Result<(), AllocError> {
        let mut words = ", then ";
        for word in self.words.as_slice() {
            if let Some(name) = origin.name_at(word.name) {
                text.say(words)?;
                text.name(name)?;
                words = ", ";
            }
        }
        Ok(())
    }
}
