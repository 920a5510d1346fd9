//! The filters compile sources to OCODE and OCODE to INTCODE, and the runners run sources and INTCODE, all over any devices.
#![tactic(auto)]

mod code;
mod compiler;
mod generator;
mod kit_fault;
mod laws;
mod pieces;
mod reading;
mod runner;
mod section;
mod source;

pub use code::load_code;
pub use compiler::compile;
pub use generator::{generate_all, section_refused};
pub use kit_fault::{KitFault, put_text};
pub use laws::{codes_run, filters_write_code, ocode_runs, one_after_another, sources_run};
pub use pieces::put_pieces;
pub use reading::read_source_section;
pub use runner::{interpret, sizes};
pub use section::{CompiledSection, SectionCode, compile_section, hashers_of};
pub use source::{SegmentMaker, load_source, run_source};
