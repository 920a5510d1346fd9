//! What sources mean, and what the steps of OCODE do on the statements that the scheme gives.
#![tactic(auto)]

mod laws;

pub use laws::{
    programs_start_with_their_source, steps_do_what_sources_mean, steps_go_on_with_their_source,
};
