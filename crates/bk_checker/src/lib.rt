//! The meaning of programs, run over devices: the verdict of a program, and what is reported to a person of it.
#![tactic(auto)]

mod checker;
mod explain;
mod report;
mod run;
mod source;

pub use bk_reports::{Notice, Remark, Within};
pub use checker::check;
pub use report::{CheckFault, GivenUp, Report, Verdict};
pub use run::{CALLS, CELLS, FRAMES};
pub use source::SourceTexts;
