//! The cases of conformance/, through the calls of the kit over memory: each answer is compared with the one that is wanted.
use crate::cases::{Case, cases_of};
use bk_rows::outcome::{COMPILE, GENERATE, Outcome, filtered, outcome_of, plain_outcome};
use std::alloc::{AllocError, Global};
use std::{fs, io};

/// The files of cases, in their folders.
const FILES: [&str; 27] = [
    "machine/bytes",
    "machine/faults",
    "machine/functions",
    "machine/library",
    "machine/operations",
    "machine/segments",
    "machine/steps",
    "machine/store",
    "generator/beginnings",
    "generator/faults",
    "generator/limits",
    "generator/statements",
    "compiler/declarations",
    "compiler/forms",
    "compiler/insertion",
    "compiler/limits",
    "compiler/names",
    "compiler/sections",
    "compiler/symbols",
    "compiler/syntax",
    "compiler/translations",
    "compiler/which-fault",
    "programs/accepted",
    "programs/deep",
    "programs/ends",
    "programs/language",
    "show/parts",
];

/// The words of a command with the options of a case, on FILE.
fn words_of<'a>(
    alloc: Global,
    command: &'a str,
    case: &'a Case,
) -> Result<Vec<&'a str>, AllocError> {
    let mut words = Vec::new(alloc);
    words.push("bcpl")?;
    words.push(command)?;
    for word in case.args.as_str().split_whitespace() {
        words.push(word)?;
    }
    words.push("f")?;
    Ok(words)
}

/// Whether an outcome is the one that is wanted.
fn is_wanted(case: &Case, outcome: &Outcome) -> bool {
    outcome.status == case.status
        && outcome.output.as_slice() == case.output.as_slice()
        && outcome.line.as_slice() == case.line.as_slice()
}

/// A text with one blank between its words, and one after them.
fn words_alone(alloc: Global, text: &[u8]) -> Result<Vec<u8>, AllocError> {
    let mut words = Vec::new(alloc);
    let mut in_word = false;
    for byte in text {
        let is_blank = matches!(*byte, b' ' | 9 | 10 | 12 | 13);
        if !is_blank {
            words.push(*byte)?;
        } else if in_word {
            words.push(b' ')?;
        }
        in_word = !is_blank;
    }
    if in_word {
        words.push(b' ')?;
    }
    Ok(words)
}

/// Whether INTCODE does what a case wants.
fn is_interpreted(alloc: Global, case: &Case, text: &[u8]) -> Result<bool, AllocError> {
    let words = words_of(alloc, "interpret", case)?;
    let outcome = outcome_of(alloc, words.as_slice(), text, case.input.as_slice())?;
    Ok(is_wanted(case, &outcome))
}

/// Whether OCODE is refused as a case wants, or its segments, by each of the generators, do what it wants. The plain segments
/// are not the shorter ones.
fn is_generated(alloc: Global, case: &Case) -> Result<bool, AllocError> {
    let code = case.ocode.as_slice();
    let generated = outcome_of(alloc, &GENERATE, b"", code)?;
    if generated.status != 0 {
        let is_first = case.line.as_slice().starts_with(b"section 1,");
        return Ok(
            generated.status == case.status
                && generated.line.as_slice() == case.line.as_slice()
                && (generated.output.is_empty() || !is_first),
        );
    }
    let plain = plain_outcome(alloc, code)?;
    Ok(
        generated.output.len() <= plain.output.len()
            && is_interpreted(alloc, case, generated.output.as_slice())?
            && is_interpreted(alloc, case, plain.output.as_slice())?,
    )
}

/// Whether a source has the OCODE or the fault that a case wants.
fn is_compiled(alloc: Global, case: &Case) -> Result<bool, AllocError> {
    let outcome = outcome_of(alloc, &COMPILE, b"", case.b.as_slice())?;
    let wanted = words_alone(alloc, case.ocode.as_slice())?;
    let words = words_alone(alloc, outcome.output.as_slice())?;
    Ok(
        outcome.status == case.status
            && words.as_slice() == wanted.as_slice()
            && outcome.line.as_slice() == case.line.as_slice(),
    )
}

/// Whether a source does what a case wants, by `bcpl run` and through the filters with each of the generators.
fn is_run(alloc: Global, case: &Case) -> Result<bool, AllocError> {
    let source = case.b.as_slice();
    let input = case.input.as_slice();
    let words = words_of(alloc, "run", case)?;
    let run = outcome_of(alloc, words.as_slice(), source, input)?;
    let words = words_of(alloc, "interpret", case)?;
    let used = filtered(alloc, source, false, words.as_slice(), input)?;
    let plain = filtered(alloc, source, true, words.as_slice(), input)?;
    Ok(is_wanted(case, &run) && is_wanted(case, &used) && is_wanted(case, &plain))
}

/// Whether what is shown of a source is what a case wants.
fn is_shown(alloc: Global, case: &Case) -> Result<bool, AllocError> {
    let words = words_of(alloc, "show", case)?;
    let outcome = outcome_of(alloc, words.as_slice(), case.b.as_slice(), b"")?;
    Ok(is_wanted(case, &outcome))
}

/// Whether what results from a case is wanted.
fn is_met(alloc: Global, part: &str, case: &Case) -> Result<bool, AllocError> {
    match part {
        "machine" => is_interpreted(alloc, case, case.int.as_slice()),
        "generator" => is_generated(alloc, case),
        "compiler" => is_compiled(alloc, case),
        "show" => is_shown(alloc, case),
        _ => is_run(alloc, case),
    }
}

/// Reports which cases of a file are not met, and how many are; answers whether all are.
fn tell_cases(rt: &HostRuntime, file: &str, cases: &[Case]) -> io::Result<bool> {
    let part = file.split_once("/").map_or(file, |(part, _)| part);
    let mut met = 0u32;
    let mut all = !cases.is_empty();
    for case in cases {
        if is_met(rt.alloc(), part, case)? {
            met = met.saturating_add(1);
        } else {
            println!(rt; "{file}: {}: other", case.name)?;
            all = false;
        }
    }
    println!(rt; "{file}: {met} cases as wanted")?;
    Ok(all)
}

/// Reports of the cases of each file; returns whether all are met.
pub fn tell_parts(rt: &HostRuntime) -> io::Result<bool> {
    let mut all = true;
    for file in FILES {
        let path = format!(in rt.alloc(); "{file}.cases")?;
        let text = fs::read_to_string(rt, path)?;
        let met = match cases_of(rt.alloc(), text.as_str())? {
            Some(cases) => tell_cases(rt, file, cases.as_slice())?,
            None => {
                println!(rt; "{file}: not of the format")?;
                false
            }
        };
        all &= met;
    }
    Ok(all)
}
