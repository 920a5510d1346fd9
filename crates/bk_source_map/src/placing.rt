//! The places of statements that were found so far.
ghost use Rattle.std.specs.Prelude.{◌≡◌, [], OnOk};

use bk_tree::Position;
use std::alloc::{AllocError, Global};

/// What becomes of a word of a frame.
#[derive(Clone, Copy, Debug, PartialEq, Eq)]
pub enum Change {
    /// The next of the words from 2 on is this formal. The next statement is the ENTRY of its procedure.
    Formal,
    /// The last word of the frame is this variable.
    Variable,
    /// The last word of the frame is this variable, and the words before it are its vector.
    Vector,
    /// The last word of the frame is this variable of a FOR.
    Counter,
    /// The last word of the frame is the limit of this variable.
    Limit,
    /// A block or a FOR ended here: the words after the frame's last have no names.
    Leaves,
}

/// A word of a frame gets a name, or words lose theirs.
#[derive(Clone, Copy, Debug)]
pub struct Mark {
    /// How many statements are before it.
    pub before: usize,
    /// What becomes of the word.
    pub change: Change,
    /// The name, by its position.
    pub name: Position,
}

/// The places of statements so far, and what becomes of the words of frames between them.
#[derive(Drop)]
pub struct Placing {
    /// The places.
    pub places: Vec<Position>,
    /// What becomes of words, in the order of the statements.
    pub marks: Vec<Mark>,
}

impl Placing {
    /// None so far.
    pub fn new(alloc: Global) -> Placing
        ensures { result.places.items ≡ [] }
    {
        Placing {
            places: Vec::new(alloc),
            marks: Vec::new(alloc),
        }
    }

    /// A word of the frame changes before the next statement.
    pub fn mark(&mut self, change: Change, name: Position) -> Result<(), AllocError>
        ensures { OnOk result (self.new.places.items ≡ self.old.places.items) }
    {
        self.marks.push(Mark {
            before: self.places.len(),
            change,
            name,
        })?;
        Ok(())
    }
}
