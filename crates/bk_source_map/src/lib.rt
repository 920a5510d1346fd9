//! Where the statements of a section come from in its source.
#![tactic(auto)]

mod asked;
mod data;
mod inner;
mod kind;
mod laws;
mod nodes;
mod placing;
mod put;
mod section;

pub use laws::{places_are_counted, statements_are_placed};
pub use placing::{Change, Mark, Placing};
pub use section::places_of;
