//! Trees of BCPL sections, and their limits.
#![tactic(auto)]

mod copying;
pub mod make;
mod placed;
mod places;
mod position;
mod section;
mod tree;

pub use copying::copy;
pub use placed::{PlacedFault, on_line};
pub use places::{at_expressions, at_names};
pub use position::{Position, column_after};
pub use section::Section;
pub use tree::{
    Command, ConstItem, Decl, Def, Expr, Init, Letters, Name, Operator, Prefix, Simple, Sort,
};
