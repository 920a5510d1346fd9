//! What is reported to a person of a source that is refused: where the fault is, and what was wanted there or what is meant.
#![tactic(auto)]

mod brackets;
mod bytes;
mod changes;
mod commands;
mod due;
mod foreign;
mod further;
mod lines;
mod meanings;
mod mending;
mod names;
mod near;
mod page;
mod reader;
mod refused;
mod repair;
mod roles;
mod scene;
mod sentence;
mod signs;
mod statements;
mod syntax;
mod telling;

pub use telling::hints;
