//! The statement of each item of a segment, item after item.

use crate::frame::Frame;
use crate::origin::Origin;
use bk_base::Line;
use bk_base::limit::OCODE_LABEL;
use bk_machine::Operand;
use bk_source_map::{Change, Mark};
use std::alloc::{AllocError, Global};

/// The items of a segment that were reached, and the statement that the next one is of.
#[derive(Drop)]
pub struct Follow<'s> {
    origin: &'s Origin<'s>,
    /// How many items there are up to the end of each statement.
    ends: &'s [usize],
    frame: Frame<'s>,
    /// The statement that the next item is of; past the last of them, the strings follow.
    stmt: usize,
    /// The statement of the string whose bytes are next.
    string: Option<usize>,
}

/// The statement of the string that has this label, of so many statements.
pub fn string_of(label: u32, stmts: usize) -> Option<usize> {
    let following = label.checked_sub(OCODE_LABEL)? as usize;
    stmts.checked_sub(following)
}

impl<'s> Follow<'s> {
    /// Before the first item. `ends` says how many items there are up to the end of each statement.
    pub fn of(
        alloc: Global,
        origin: &'s Origin<'s>,
        ends: &'s [usize],
        marks: &'s [Mark],
    ) -> Follow<'s> {
        Follow {
            origin,
            ends,
            frame: Frame::new(alloc, marks),
            stmt: 0,
            string: None,
        }
    }

    /// The code that is followed.
    pub fn origin(&self) -> &'s Origin<'s> {
        self.origin
    }

    /// The words of the frame that have names.
    pub fn frame(&self) -> &Frame<'s> {
        &self.frame
    }

    /// The number of the statement of the next item.
    pub fn stmt(&self) -> usize {
        self.string.unwrap_or(self.stmt)
    }

    /// The line of the next item: that of its statement.
    pub fn line(&self) -> Option<Line> {
        self.origin.line(self.stmt())
    }

    /// Goes to the statement of the item of this number.
    pub fn reach(&mut self, item: usize) -> Result<(), AllocError> {
        let stmts = self.origin.stmts();
        for number in self.stmt..stmts.len() {
            self.stmt = number;
            self.frame.reach(number, &stmts[number])?;
            if matches!(self.ends.get(number), Some(end) if item < *end) {
                return Ok(());
            }
            self.frame.pass_stmt(&stmts[number]);
            self.stmt = number.saturating_add(1);
        }
        Ok(())
    }

    /// Goes past a label that is set: the bytes after it may be those of a string.
    pub fn set(&mut self, label: u32) {
        self.string = string_of(label, self.origin.stmts().len());
    }

    /// Whether data or a string begins at a label.
    pub fn is_data(&self, label: u32) -> bool {
        string_of(label, self.origin.stmts().len()).is_some() || self.origin.is_data(label)
    }

    /// The token of the name that an operand has in the source.
    pub fn token_of(&self, operand: Operand) -> Option<usize> {
        match operand {
            Operand::Number(_) => None,
            Operand::Local(number) => {
                let word = self.frame.word(u32::try_from(number).ok()?)?;
                if word.change == Change::Limit {
                    return None;
                }
                self.origin.token_at(word.name)
            }
            Operand::Global(number) => self.origin.global_token(u32::try_from(number).ok()?),
            Operand::Label(label) => self.origin.static_token(label),
        }
    }
}
