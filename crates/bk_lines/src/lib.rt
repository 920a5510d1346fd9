//! What a person is shown of a source: the line and the column of a place, and its line with a caret.
#![tactic(auto)]

mod places;
mod reading;
mod shown;

pub use places::{Start, line_end, line_start, put_number, put_place};
pub use reading::read_line_end;
pub use shown::{put_line, put_shown};
