//! The segments of the generator in use beside those of the plain one and after a section that is refused, and runs of which no text
//! says all that they write.
use crate::checks::check_fault;
use crate::outcome::{COMPILE, GENERATE, RUN, outcome_of, plain_outcome};
use bk_base::{End, Reader512, Writer512};
use bk_intcode::read_segment;
use bk_machine::{Intcode, Machine, Registers};
use std::alloc::{AllocError, Global};
use std::process::Abort;
use std::test::Fail;

/// Copies its input, and writes what RDCH gives after the end.
const COPYING: &[u8] =
    b"GET \"LIBHDR\"\nLET START() BE\n$( LET C = RDCH()\n   UNTIL C = ENDSTREAMCH DO $( WRCH(C); C := RDCH() $)\n   WRITEN(RDCH())\n$)\n";

/// An operand on the right that changes the variable on the left.
const LEFT_FIRST: &[u8] =
    b"GET \"LIBHDR\"\nLET F(P) = VALOF $( !P := 10; RESULTIS 1 $)\nLET START() BE\n$( LET X = 5\n   WRITEN(X + F(@X)); WRCH('*S'); WRITEN(X)\n$)\n";

const COUNTING: &[u8] = b"GET \"LIBHDR\"\nLET START() BE FOR I = 1 TO 3 DO WRITEN(I)\n";

const ENDLESS: &[u8] = b"GET \"LIBHDR\"\nLET START() BE WRCH('A') REPEAT\n";

/// Writes a letter, and then reads the word of a variable that is gone.
const GONE: &[u8] =
    b"GET \"LIBHDR\"\nLET START() BE\n$( LET P = 0\n   $( LET X = 5; P := @X $)\n   WRCH('A'); WRITEN(!P)\n$)\n";

const FINISHED: &[u8] =
    b"ENTRY L1 5 83 84 65 82 84\nSAVE 2\nFINISH\nRTRN\nENDPROC\nGLOBAL 1 1 L1\n";

const FINISHED_AND_CUT: &[u8] =
    b"ENTRY L1 5 83 84 65 82 84\nSAVE 2\nFINISH\nRTRN\nENDPROC\nGLOBAL 1 1 L1\nENTRY L1 5 83 84";

/// How many lines a text has.
fn lines(text: &[u8]) -> u32 {
    let mut count: u32 = 0;
    for byte in text {
        if *byte == b'\n' {
            count = count.saturating_add(1);
        }
    }
    count
}

#[test]
fn the_generator_in_use_prints_fewer_lines(rt: HostRuntime) -> Result<(), Fail> {
    for source in [COPYING, LEFT_FIRST, COUNTING] {
        let code = outcome_of(rt.alloc(), &COMPILE, b"", source)?.output;
        let plain = plain_outcome(rt.alloc(), code.as_slice())?;
        let used = outcome_of(rt.alloc(), &GENERATE, b"", code.as_slice())?;
        assert_eq!(rt; (plain.status, used.status), (0, 0));
        assert!(&rt; lines(used.output.as_slice()) < lines(plain.output.as_slice()));
    }
    Ok(())
}

#[test]
fn the_section_before_a_refused_one_is_written(rt: HostRuntime) -> Result<(), Fail> {
    let whole = outcome_of(rt.alloc(), &GENERATE, b"", FINISHED)?;
    let cut = outcome_of(rt.alloc(), &GENERATE, b"", FINISHED_AND_CUT)?;
    check_fault(&rt, &cut, 102, b"section 2, statement 1: truncated\n");
    assert!(&rt; !whole.output.is_empty());
    assert_eq!(rt; cut.output.as_slice(), whole.output.as_slice());
    Ok(())
}

/// Whether a text is three letters `A` or more, and nothing else.
fn are_letters(text: &[u8]) -> bool {
    for byte in text {
        if *byte != b'A' {
            return false;
        }
    }
    text.len() >= 3
}

#[test]
fn an_endless_program_writes_until_its_limit(rt: HostRuntime) -> Result<(), Fail> {
    let words = ["bcpl", "run", "-t", "1000", "f"];
    let outcome = outcome_of(rt.alloc(), &words, ENDLESS, b"")?;
    check_fault(&rt, &outcome, 106, b"step limit\n");
    assert!(&rt; are_letters(outcome.output.as_slice()));
    Ok(())
}

#[test]
fn what_comes_before_an_undefined_act_is_written(rt: HostRuntime) -> Result<(), Fail> {
    let outcome = outcome_of(rt.alloc(), &RUN, GONE, b"")?;
    assert!(&rt; outcome.output.starts_with(b"A"));
    Ok(())
}

/// The segment of a source of one section.
fn segment_of(alloc: Global, source: &[u8]) -> Result<Intcode, Fail> {
    let code = outcome_of(alloc, &COMPILE, b"", source)?.output;
    let text = outcome_of(alloc, &GENERATE, b"", code.as_slice())?.output;
    match read_segment(alloc, &mut Reader512::new(text.as_slice())) {
        Ok(Some(segment)) => Ok(segment),
        _ => Err(Fail::from("no segment")),
    }
}

/// What the endless program writes in runs of so many steps, one after another, and the registers after them.
fn written(rt: &impl Abort, alloc: Global, runs: &[u64]) -> Result<(Vec<u8>, Registers), Fail> {
    let segments = vec![in alloc; segment_of(alloc, ENDLESS)?]?;
    let mut machine = Machine::load(alloc, &segments, 4_096)?;
    let mut bytes = Vec::new(alloc);
    let mut out = Writer512::new(&mut bytes);
    let mut input = Reader512::new(b"".as_slice());
    for steps in runs {
        assert_eq!(rt; machine.run(*steps, &mut input, &mut out), End::StepLimit);
    }
    drop(out);
    Ok((bytes, machine.registers()))
}

#[test]
fn a_run_that_does_not_end_is_gone_on_with(rt: HostRuntime) -> Result<(), Fail> {
    let (once, registers) = written(&rt, rt.alloc(), &[2_000])?;
    let (twice, registers_after_two) = written(&rt, rt.alloc(), &[1_000, 1_000])?;
    assert!(&rt; are_letters(once.as_slice()));
    assert_eq!(rt; twice.as_slice(), once.as_slice());
    assert_eq!(rt; registers_after_two, registers);
    Ok(())
}
