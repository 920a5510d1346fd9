//! What the phases of the compiler make of a section, as text that a person reads: its tokens, its tree, its names, its OCODE and
//! its INTCODE.
#![tactic(auto)]

mod dot;
mod entries;
mod follow;
mod frame;
mod header;
mod instruction;
mod intcode;
mod layout;
mod map;
mod names;
mod ocode;
mod origin;
mod part;
mod placer;
mod procedures;
mod program;
mod section;
mod spelling;
mod steps;
mod text;
mod tokens;
mod trace;
mod tree;
mod used;
mod words;

pub use layout::Layout;
pub use part::Part;
pub use procedures::Procedures;
pub use program::{PlacedCode, Program};
pub use section::{NotShown, RefusedSection, Shown, show, show_refused};
pub use steps::{Extent, SourceTrace, put_source_end, put_source_heading, put_source_step};
pub use trace::{Step, put_heading, put_other, put_procedure, put_step};
