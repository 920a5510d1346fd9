//! What is reported of a place in the source.
ghost use Rattle.std.specs.Prelude.{◌≡◌, []};

use bk_tree::Position;
use std::alloc::Global;

/// In which section of the source a place is.
#[derive(Clone, Copy, Debug)]
pub enum Within {
    /// In the section of this number, from 0.
    Section(usize),
    /// In the section that defines a procedure, given by its number among what lasts.
    Procedure(u64),
}

/// What is reported to a person of a place in the source.
#[derive(Debug, Drop)]
pub struct Notice {
    /// The place; the source's first line where there is nothing to report.
    pub at: Position,
    /// In which section it is. A position does not say that, and two sections may share a line.
    pub within: Within,
    /// The number of its line and its column, as `4:36`; empty where the text is not at hand.
    pub place: Vec<u8>,
    /// What there is to say of it, without the end of the line; nothing where there is nothing to report.
    pub what: Vec<u8>,
    /// The line of the source with a caret, where the text is at hand; then, where a run stopped, the calls that were active, a line each,
    /// innermost first: ten at most.
    pub further: Vec<u8>,
}

impl Notice {
    /// This at this place, before the text of the source is at hand.
    pub fn new(
        alloc: Global,
        at: Position,
        within: Within,
        what: Vec<u8>,
        further: Vec<u8>,
    ) -> Notice
        ensures at { result.at ≡ at }
        ensures unplaced { result.place.items ≡ [] }
    {
        Notice {
            at,
            within,
            place: Vec::new(alloc),
            what,
            further,
        }
    }
}
