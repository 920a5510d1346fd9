//! The kit reads a command line and serves its order over any devices: it checks, shows and traces sources, and gives each answer its status and its
//! lines.
#![tactic(auto)]

mod checker;
mod command_line;
mod cut;
mod further;
mod orders;
mod procedures;
mod service;
mod showing;
mod source_trace;
mod status;
mod tracing;

pub use checker::{NotChecked, Refusal, check_source};
pub use command_line::{LineFault, order};
pub use cut::CutSection;
pub use further::further_hints;
pub use orders::{Files, Order};
pub use service::{refuse, serve, serve_named};
pub use showing::{show_sections, show_source};
pub use source_trace::trace_source;
pub use status::{report_hints, status_of_end, status_of_fault};
pub use tracing::{trace, trace_named};
