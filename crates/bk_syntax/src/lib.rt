//! The parser: the one tree of a section, or a fault; and again the trees of `bk_tree`.
#![tactic(auto)]

mod commands;
mod declarations;
mod definitions;
mod error;
mod expressions;
mod laws;
mod parser;

pub use bk_tree::{Command, Decl, Def, Expr, Section};
pub use laws::{
    begins_completes, completes_begins, end_fault_applies, goes_on_begins, have_one_tree,
    reads_the_grammar, symbol_fault_applies, tag_fault_applies,
};
pub use parser::{parse, parse_placed};
