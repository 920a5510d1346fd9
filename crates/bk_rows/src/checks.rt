//! Checks of what results from words and sources, and a device that refuses each byte.
use crate::devices::Short;
use crate::outcome::{Outcome, outcome_of};
use bk_base::{ByteIn, ByteOut, Failed, Writer512};
use bk_kit::{Order, order, serve};
use std::alloc::Global;
use std::process::Abort;
use std::test::Fail;

/// Refuses each byte.
#[derive(Drop)]
pub struct Refusing {
    pub failed: bool,
}

impl ByteOut for Refusing {
    ghost use Rattle.std.specs.Prelude.{None, if◌then◌else◌};
    ghost use Rattle.bk_base.specs.BufferLaws.{faults-le_one};

    ghost taken = { λ out. None };

    ghost passed = { λ out. None };

    ghost faults = { λ out. if out.failed then 1 else 0 };

    ghost one_failure = { λ out. faults-le_one out.failed };

    ghost passed_first = { λ out. tt };

    fn put(&mut self, _byte: u8) -> Result<(), Failed> {
        self.failed = true;
        Err(Failed)
    }

    fn flush(&mut self) -> Result<(), Failed> {
        if self.failed { Err(Failed) } else { Ok(()) }
    }

    fn failures(&self) -> u32 {
        if self.failed { 1 } else { 0 }
    }
}

/// The order of words that are right.
pub fn asked(alloc: Global, words: &[&str]) -> Result<Order, Fail> {
    match order(alloc, words) {
        Ok(asked) => Ok(asked),
        Err(_) => Err(Fail::from("refused")),
    }
}

/// Serves an order whose output fails after so many bytes, and answers the status.
fn serve_short<F: ByteIn, I: ByteIn>(
    alloc: Global,
    asked: &Order,
    file: &mut F,
    input: &mut I,
    room: usize,
    output: &mut Vec<u8>,
    line: &mut Vec<u8>,
) -> u8 {
    let mut out = Writer512::new(Short {
        bytes: output,
        room,
    });
    let mut err = Writer512::new(line);
    serve(alloc, asked, file, input, &mut out, &mut err)
}

/// What results from an order whose output fails after so many bytes.
pub fn served_short<F: ByteIn, I: ByteIn>(
    alloc: Global,
    asked: &Order,
    file: &mut F,
    input: &mut I,
    room: usize,
) -> Outcome {
    let mut output = Vec::new(alloc);
    let mut line = Vec::new(alloc);
    let status = serve_short(alloc, asked, file, input, room, &mut output, &mut line);
    Outcome {
        status,
        output,
        line,
    }
}

/// Checks an outcome: its status, its output and its line.
pub fn check_outcome(rt: &impl Abort, outcome: &Outcome, status: u8, output: &[u8], line: &[u8]) {
    assert_eq!(rt; outcome.status, status);
    assert_eq!(rt; outcome.output.as_slice(), output);
    assert_eq!(rt; outcome.line.as_slice(), line);
}

/// Checks the status and the line of an outcome.
pub fn check_fault(rt: &impl Abort, outcome: &Outcome, status: u8, line: &[u8]) {
    assert_eq!(rt; outcome.status, status);
    assert_eq!(rt; outcome.line.as_slice(), line);
}

/// Checks that the words give this status, this output and this line.
pub fn check(
    rt: &impl Abort,
    alloc: Global,
    words: &[&str],
    file: &[u8],
    input: &[u8],
    status: u8,
    output: &[u8],
    line: &[u8],
) -> Result<(), Fail> {
    let outcome = outcome_of(alloc, words, file, input)?;
    check_outcome(rt, &outcome, status, output, line);
    Ok(())
}
