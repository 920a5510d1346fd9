//! Checks of programs.
ghost use Rattle.std.specs.Prelude.{◌≡◌, ℕ, List, map, IfOk, IfErr, OnOk};
ghost use Rattle.std.specs.Io.KnownBytes.{Keeps};
ghost use Rattle.bk_base.specs.Devices.{Begins};
ghost use Rattle.bk_tree.specs.Section.{declarations_of};
ghost use Rattle.bk_tree.specs.Tree.{Declarations};
ghost use Rattle.bk_meaning.specs.Lasting.{program_of as program_in_sections};
ghost use Rattle.bk_checker.specs.declared.report.Verdict.TheVariants.{NoStart};
ghost use Rattle.bk_checker.specs.declared.report.CheckFault.TheVariants.{Write, TooDeep};
ghost use Rattle.bk_objects.specs.Views.{value_in};
ghost use Rattle.bk_check.specs.Views.{program_in};
ghost use Rattle.bk_checker.specs.Checks.{Checks, Blames, Flushed, Begun, Runs, ChecksPart, RunsPart, ChecksDeep, RunsDeep, devices};

use crate::explain::{explain, given_up};
use crate::report::{GivenUp, Report, Verdict};
use crate::run::{flush, go, verdict};
use bk_base::{ByteIn, ByteOut};
use bk_check::{Evaluator, call};
use bk_lasting::{GLOBALS_OBJECT, Lasting, first_memory, program_of};
use bk_objects::{Computed, Worth, read};
use bk_reports::{Notice, Within, remarks_on};
use bk_tree::{Position, Section};
use std::alloc::{AllocError, Global};

/// The machine before the run of a program.
fn first_machine<'a>(
    alloc: Global,
    program: &[Lasting],
    turns: u64,
) -> Result<Evaluator<'a>, AllocError>
    ensures { IfOk result (λ m. Begun (program_in program.now) turns m) }
{
    Ok(Evaluator {
        alloc,
        frames: Vec::new(alloc),
        store: first_memory(alloc, program)?,
        calls: 0,
        most_calls: 0,
        most_cells: 0,
        turns,
    })
}

/// Calls START, and steps up to the end.
fn check_start<'a, I: ByteIn, O: ByteOut>(
    m: &mut Evaluator<'a>,
    program: &[Lasting<'a>],
    start: Worth,
    input: &mut I,
    out: &mut O,
) -> Result<Report, GivenUp>
    ensures shows { IfOk result (λ report. (turns : ℕ) → Begun (program_in program.now) turns m.old
        → Runs (program_in program.now) (value_in start) turns report.verdict report.stop.at
        (devices I.ByteIn O.ByteOut input.old out.old) (devices I.ByteIn O.ByteOut input.new out.new)) }
    ensures flushed { OnOk result (O.passed out.new ≡ O.taken out.new) }
    ensures flushed_where_given_up { IfErr result (λ stop. Flushed stop.fault (O.passed out.new) (O.taken out.new)) }
    ensures part { IfErr result (λ _. (turns : ℕ) → Begun (program_in program.now) turns m.old
        → RunsPart (program_in program.now) (value_in start) turns
        (devices I.ByteIn O.ByteOut input.old out.old) (devices I.ByteIn O.ByteOut input.new out.new)) }
    ensures limit { IfErr result (λ stop. stop.fault ≡ TooDeep → (turns : ℕ) → Begun (program_in program.now) turns m.old
        → RunsDeep (program_in program.now) (value_in start) turns
        (devices I.ByteIn O.ByteOut input.old out.old) (devices I.ByteIn O.ByteOut input.new out.new)) }
    ensures passes { Begins (O.passed out.old) (O.passed out.new) }
    ensures sound { OnOk result ((I.faults input.new ≡ I.faults input.old) × (O.faults out.new ≡ O.faults out.old)) }
    ensures cause { IfErr result (λ stop. Blames stop.fault (I.faults input.old) (I.faults input.new) (O.faults out.old) (O.faults out.new)) }
{
    let arguments = Vec::new(m.alloc);
    let first = call(m, program, Position::first(), None, start, arguments)?;
    let came = go(m, program, first, input, out);
    flush(out)?;
    match came {
        Ok(last) => Ok(explain(m, program, &last)?),
        Err(fault) => Err(given_up(m, program, fault)),
    }
}

/// Where the program has no START.
fn no_start<O: ByteOut>(alloc: Global, out: &mut O) -> Result<Report, GivenUp>
    ensures verdict { IfOk result (λ report. report.verdict ≡ NoStart) }
    ensures flushed { OnOk result (O.passed out.new ≡ O.taken out.new) }
    ensures keeps { Keeps (O.taken out.old) (O.taken out.new) }
    ensures passes { Begins (O.passed out.old) (O.passed out.new) }
    ensures sound { OnOk result (O.faults out.new ≡ O.faults out.old) }
    ensures failed { IfErr result (λ stop. (stop.fault ≡ Write) × (O.faults out.new ≡ 1)) }
{
    flush(out)?;
    Ok(Report {
        verdict: Verdict::NoStart,
        stop: Notice::new(
            alloc,
            Position::first(),
            Within::Section(0),
            Vec::new(alloc),
            Vec::new(alloc),
        ),
        remarks: Vec::new(alloc),
    })
}

/// Runs a program from its START, if it has one.
fn check_program<'a, I: ByteIn, O: ByteOut>(
    alloc: Global,
    program: &[Lasting<'a>],
    turns: u64,
    input: &mut I,
    out: &mut O,
) -> Result<Report, GivenUp>
    ensures checks { IfOk result (λ report. (sections : List Declarations) → program_in program.now ≡ program_in_sections sections
        → Checks sections turns report.verdict report.stop.at
        (devices I.ByteIn O.ByteOut input.old out.old) (devices I.ByteIn O.ByteOut input.new out.new)) }
    ensures flushed { OnOk result (O.passed out.new ≡ O.taken out.new) }
    ensures flushed_where_given_up { IfErr result (λ stop. Flushed stop.fault (O.passed out.new) (O.taken out.new)) }
    ensures part { IfErr result (λ _. (sections : List Declarations) → program_in program.now ≡ program_in_sections sections → ChecksPart sections turns
        (devices I.ByteIn O.ByteOut input.old out.old) (devices I.ByteIn O.ByteOut input.new out.new)) }
    ensures limit { IfErr result (λ stop. stop.fault ≡ TooDeep → (sections : List Declarations) → program_in program.now ≡ program_in_sections sections
        → ChecksDeep sections turns
        (devices I.ByteIn O.ByteOut input.old out.old) (devices I.ByteIn O.ByteOut input.new out.new)) }
    ensures passes { Begins (O.passed out.old) (O.passed out.new) }
    ensures sound { OnOk result ((I.faults input.new ≡ I.faults input.old) × (O.faults out.new ≡ O.faults out.old)) }
    ensures cause { IfErr result (λ stop. Blames stop.fault (I.faults input.old) (I.faults input.new) (O.faults out.old) (O.faults out.new)) }
{
    let mut m = first_machine(alloc, program, turns)?;
    match read(&m.store, Worth::Address(1, GLOBALS_OBJECT)) {
        Computed::Value(start) => check_start(&mut m, program, start, input, out),
        _ => no_start(alloc, out),
    }
}

/// Does what the sections mean, in so many turns, with this input and output: the verdict of their meaning, and what a person
/// is reported of it.
///
/// Output is flushed before the input is asked where none of it is held, and at each end. What was written before an undefined act
/// stays written.
pub fn check<I: ByteIn, O: ByteOut>(
    alloc: Global,
    sections: &[Section],
    turns: u64,
    input: &mut I,
    out: &mut O,
) -> Result<Report, GivenUp>
    ensures checks { IfOk result (λ report. Checks (map declarations_of sections.now) turns report.verdict report.stop.at
        (devices I.ByteIn O.ByteOut input.old out.old) (devices I.ByteIn O.ByteOut input.new out.new)) }
    ensures flushed { OnOk result (O.passed out.new ≡ O.taken out.new) }
    ensures flushed_where_given_up { IfErr result (λ stop. Flushed stop.fault (O.passed out.new) (O.taken out.new)) }
    ensures part { IfErr result (λ _. ChecksPart (map declarations_of sections.now) turns
        (devices I.ByteIn O.ByteOut input.old out.old) (devices I.ByteIn O.ByteOut input.new out.new)) }
    // *Too deep* comes only where the meaning has more than 16384 calls active at once, or more than 16777216 cells living at a call or a VEC.
    ensures limit { IfErr result (λ stop. stop.fault ≡ TooDeep → ChecksDeep (map declarations_of sections.now) turns
        (devices I.ByteIn O.ByteOut input.old out.old) (devices I.ByteIn O.ByteOut input.new out.new)) }
    ensures passes { Begins (O.passed out.old) (O.passed out.new) }
    ensures sound { OnOk result ((I.faults input.new ≡ I.faults input.old) × (O.faults out.new ≡ O.faults out.old)) }
    ensures cause { IfErr result (λ stop. Blames stop.fault (I.faults input.old) (I.faults input.new) (O.faults out.old) (O.faults out.new)) }
{
    let remarks = remarks_on(alloc, sections)?;
    let program = program_of(alloc, sections)?;
    let mut report = check_program(alloc, &program, turns, input, out)?;
    report.remarks = remarks;
    Ok(report)
}
