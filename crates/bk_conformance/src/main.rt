//! Runs the cases of conformance/, the examples and the texts of the page of faults, and compares what results from each with what is
//! wanted of it.
#![tactic(auto)]

mod cases;
mod examples;
mod faults;
mod parts;
mod text;

use examples::tell_examples;
use faults::tell_faults;
use parts::tell_parts;
use std::io;
use std::process::ExitCode;

/// Reports of each file of cases, each example and each fault; returns whether all are as wanted.
fn tell(rt: &HostRuntime) -> io::Result<bool> {
    let parts = tell_parts(rt)?;
    let examples = tell_examples(rt)?;
    let faults = tell_faults(rt)?;
    Ok(parts && examples && faults)
}

fn main(rt: HostRuntime) -> ExitCode {
    match tell(&rt) {
        Ok(true) => ExitCode::SUCCESS,
        _ => ExitCode::FAILURE,
    }
}
