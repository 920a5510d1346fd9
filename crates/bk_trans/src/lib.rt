//! The scheme: from the tree of a section to its statements in OCODE.
#![tactic(auto)]

mod aim;
mod around;
mod codes;
mod evaluation;
mod fitting;
mod items;
mod laws;
mod nodes;
mod pieces;
mod places;
mod remaining;
mod short;
mod statements;
mod translating;
mod unresolved;
mod writer;

pub use laws::{
    filling_names, labels_are_few, labels_are_set_once, scheme_is_accepted, statements_are_few,
    words_are_few,
};
pub use translating::translate;
