//! The kit for a page: functions over slices of bytes, for a host that is not Rattle.
#![tactic(auto)]

mod answer;
mod command;
mod kept;
mod stepping;

pub use answer::{Answer, Standing};
pub use command::bk_serve;
pub use stepping::bk_step;
