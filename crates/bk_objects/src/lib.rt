//! Values and memory, as programs use them: what the meaning of programs says of them, as functions.
#![tactic(auto)]

mod bytes;
mod computed;
mod format;
mod library;
mod operators;
mod store;
mod text;
mod worth;

pub use bytes::{put, read_byte, write, write_byte};
pub use computed::{Computed, Misuse, Reason};
pub use format::Part as FormatPart;
pub use library::{Effect, perform};
pub use operators::{calculated, combine, prefixed, read, sum, truth_of};
pub use store::Store;
pub use worth::{Cell, Location, Origin, Routine, Worth};
