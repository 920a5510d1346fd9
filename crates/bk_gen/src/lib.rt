//! From OCODE to INTCODE.
#![tactic(auto)]

mod accumulator;
mod code;
mod instruction;
mod laws;
pub mod plain;
mod plan;
mod point;
mod section;
mod segment;
mod table;
mod value;

pub use laws::{back_end, parts_are_well_placed, parts_without_start};
pub use section::PlacedSegment;
pub use segment::{generate, generate_placed};
