//! What results from words, and of a source through the filters, with each of the generators.
use bk_base::{ByteIn, ByteOut, Reader512, Writer512};
use bk_gen::plain;
use bk_intcode::print;
use bk_kit::{LineFault, Order, order, refuse, serve};
use bk_ocode::{Ocode, read_section};
use std::alloc::{AllocError, Global};

/// The words that run FILE as a source.
pub const RUN: [&str; 3] = ["bcpl", "run", "f"];

/// The words of the first filter.
pub const COMPILE: [&str; 2] = ["bcpl", "compile"];

/// The words of the second.
pub const GENERATE: [&str; 2] = ["bcpl", "generate"];

/// The words that interpret FILE.
pub const INTERPRET: [&str; 3] = ["bcpl", "interpret", "f"];

/// What came of a command line: the status, the output and the error stream.
#[derive(Debug, Drop, PartialEq, Eq)]
pub struct Outcome {
    pub status: u8,
    pub output: Vec<u8>,
    pub line: Vec<u8>,
}

/// Serves an order, with memory for the output and the error stream, and answers the status.
fn serve_into<F: ByteIn, I: ByteIn>(
    alloc: Global,
    asked: &Order,
    file: &mut F,
    input: &mut I,
    output: &mut Vec<u8>,
    line: &mut Vec<u8>,
) -> u8 {
    let mut out = Writer512::new(output);
    let mut err = Writer512::new(line);
    serve(alloc, asked, file, input, &mut out, &mut err)
}

/// What results from an order.
pub fn served<F: ByteIn, I: ByteIn>(
    alloc: Global,
    asked: &Order,
    file: &mut F,
    input: &mut I,
) -> Outcome {
    let mut output = Vec::new(alloc);
    let mut line = Vec::new(alloc);
    let status = serve_into(alloc, asked, file, input, &mut output, &mut line);
    Outcome {
        status,
        output,
        line,
    }
}

/// What results from an order over memory.
fn served_bytes(alloc: Global, asked: &Order, file: &[u8], input: &[u8]) -> Outcome {
    let mut file = Reader512::new(file);
    let mut input = Reader512::new(input);
    served(alloc, asked, &mut file, &mut input)
}

/// Writes the line of words that give no order, and answers the status.
fn refuse_into(fault: &LineFault, line: &mut Vec<u8>) -> u8 {
    let mut err = Writer512::new(line);
    refuse(fault, &mut err)
}

/// What results from words that give no order.
fn refused(alloc: Global, fault: &LineFault) -> Outcome {
    let mut line = Vec::new(alloc);
    let status = refuse_into(fault, &mut line);
    Outcome {
        status,
        output: Vec::new(alloc),
        line,
    }
}

/// Serves the words over memory.
pub fn outcome_of(
    alloc: Global,
    words: &[&str],
    file: &[u8],
    input: &[u8],
) -> Result<Outcome, AllocError> {
    match order(alloc, words) {
        Ok(asked) => Ok(served_bytes(alloc, &asked, file, input)),
        Err(fault) => Ok(refused(alloc, &fault)),
    }
}

/// Writes the segment that the plain generator gives for a section, and says whether it was written.
fn put_segment<O: ByteOut>(
    alloc: Global,
    section: &Ocode,
    out: &mut O,
) -> Result<bool, AllocError> {
    let segment = plain::generate(alloc, section)?;
    Ok(print(&segment, out).is_ok())
}

/// Writes the segments that the plain generator gives for the sections of a text, and answers the status that the second filter
/// has for such an answer.
fn put_plain<O: ByteOut>(alloc: Global, code: &[u8], out: &mut O) -> Result<u8, AllocError> {
    let mut input = Reader512::new(code);
    for _ in 0..usize::MAX {
        let section = match read_section(alloc, &mut input) {
            Ok(Some(section)) => section,
            Ok(None) => break,
            Err(_) => return Ok(102),
        };
        if !put_segment(alloc, &section, out)? {
            return Ok(110);
        }
    }
    Ok(if out.flush().is_ok() { 0 } else { 110 })
}

/// What results from a text of OCODE through the plain generator in the place of the second filter. It reports no fault.
pub fn plain_outcome(alloc: Global, code: &[u8]) -> Result<Outcome, AllocError> {
    let mut output = Vec::new(alloc);
    let mut out = Writer512::new(&mut output);
    let status = put_plain(alloc, code, &mut out)?;
    drop(out);
    Ok(Outcome {
        status,
        output,
        line: Vec::new(alloc),
    })
}

/// What results from a source through the two filters and the interpreter: of the first of them that does not give status 0. The
/// plain generator may replace the second filter.
pub fn filtered(
    alloc: Global,
    source: &[u8],
    is_plain: bool,
    words: &[&str],
    input: &[u8],
) -> Result<Outcome, AllocError> {
    let compiled = outcome_of(alloc, &COMPILE, b"", source)?;
    if compiled.status != 0 {
        return Ok(compiled);
    }
    let code = compiled.output.as_slice();
    let generated = if is_plain {
        plain_outcome(alloc, code)?
    } else {
        outcome_of(alloc, &GENERATE, b"", code)?
    };
    if generated.status != 0 {
        return Ok(generated);
    }
    outcome_of(alloc, words, generated.output.as_slice(), input)
}
