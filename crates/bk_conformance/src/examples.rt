//! The programs of the examples: each by `bcpl run` and, with the plain generator, through the filters, with the output that is
//! shown for it.
use bk_rows::outcome::{INTERPRET, Outcome, RUN, filtered, outcome_of};
use std::{fs, io};

/// The programs, by the names of their files.
const EXAMPLES: [&str; 28] = [
    "calculator",
    "count",
    "exits",
    "factorial",
    "folding",
    "forms",
    "found",
    "goto",
    "hanoi",
    "hello",
    "letters",
    "life",
    "lines",
    "list",
    "loops",
    "machine",
    "primes",
    "procedures",
    "queens",
    "reverse",
    "roman",
    "sections",
    "sieve",
    "six",
    "sorting",
    "strings",
    "ticks",
    "words",
];

/// The bytes of an example's file with this ending.
fn file(rt: &HostRuntime, name: &str, ending: &str) -> io::Result<Vec<u8>> {
    let path = format!(in rt.alloc(); "{name}{ending}")?;
    fs::read(rt, path)
}

/// Whether an outcome is status 0 with just this output.
fn is_shown(outcome: &Outcome, output: &[u8]) -> bool {
    outcome.status == 0 && outcome.output.as_slice() == output && outcome.line.is_empty()
}

/// Whether the example writes what is shown for it, by each of the generators.
fn is_as_shown(rt: &HostRuntime, name: &str) -> io::Result<bool> {
    let alloc = rt.alloc();
    let source = file(rt, name, ".b")?;
    let input = file(rt, name, ".in").unwrap_or(Vec::new(alloc));
    let shown = file(rt, name, ".out")?;
    let run = outcome_of(alloc, &RUN, source.as_slice(), input.as_slice())?;
    let plain = filtered(alloc, source.as_slice(), true, &INTERPRET, input.as_slice())?;
    Ok(is_shown(&run, shown.as_slice()) && is_shown(&plain, shown.as_slice()))
}

/// Reports of each example whether it writes what is shown for it; returns whether all do.
pub fn tell_examples(rt: &HostRuntime) -> io::Result<bool> {
    let mut all = true;
    for name in EXAMPLES {
        let shown = is_as_shown(rt, name)?;
        let not = if shown { "" } else { "not " };
        println!(rt; "{name}: {not}as shown")?;
        all &= shown;
    }
    Ok(all)
}
