//! What a person is told of a check: why a run stopped, the calls that were active, and what is suspicious in the source. No contract says
//! anything of these texts.
#![tactic(auto)]

mod acts;
mod calls;
mod depth;
mod falls;
mod formats;
mod globals;
mod jumps;
mod made;
mod mentions;
mod misuse;
mod names;
mod notice;
mod operands;
mod operations;
mod parts;
mod procedures;
mod remarks;
mod results;
mod rounds;
mod setting;
mod sought;
mod spelling;
mod stops;
mod text;
mod unset;
mod values;
mod walk;
mod words;

pub use calls::{active_section, calls_text, innermost_call};
pub use notice::{Notice, Within};
pub use remarks::{Remark, remarks_on};
pub use stops::{Limit, limit_text, stop_text};
