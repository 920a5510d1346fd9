//! The stack of unfinished constructs of the parser: frames, the sizes of their parts, and what is left of the limits.
#![tactic(auto)]

pub mod budget;
pub mod budgets;
pub mod completion;
pub mod completions;
pub mod frame;
pub mod frames;
pub mod limits;
pub mod size;
pub mod spare;
pub mod top;
