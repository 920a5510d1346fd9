//! A run of INTCODE with a line for each of its steps.
ghost use Rattle.std.specs.Prelude.{◌≡◌, ◌≢◌, ◌≤◌, None, if◌then◌else◌};
ghost use Rattle.bk_base.specs.declared.run_end.End.TheVariants.{StepLimit, WriteFault};
ghost use Rattle.bk_base.specs.Devices.{Begins};
ghost use Rattle.bk_machine.specs.Runs.{HeldBy, Ran, Blames, devices};
ghost use Rattle.bk_machine.specs.State.{store_of, registers_of, end_of};
ghost use Rattle.bk_filters.specs.Interpreting.{is_read, streams};
ghost use Rattle.bk_kit.specs.Tracing.{Traced, TracedNamed, file_read};

use crate::orders::Files;
use crate::procedures::{procedures_of, read_sections};
use bk_base::{ByteIn, ByteOut, End, Limits};
use bk_filters::{KitFault, load_code};
use bk_machine::Machine;
use bk_show::{
    Procedures, SourceTrace, Step, put_heading, put_other, put_procedure, put_source_step, put_step,
};
use std::alloc::Global;

/// How a run is traced: its limits, and the procedures whose names are written, if they are known.
#[derive(Drop)]
struct Tracing<'p> {
    limits: Limits,
    procedures: Option<&'p Procedures>,
}

/// What was traced so far: how many steps, and the procedure whose steps came last.
#[derive(Drop)]
pub(crate) struct Progress<'p> {
    procedures: Option<&'p Procedures>,
    current: Option<usize>,
}

/// How the steps of a run are written.
#[derive(Drop)]
pub(crate) enum Telling<'p> {
    /// A line for each, under the name of its procedure where that is known.
    Code(Progress<'p>),
    /// With the lines and the names of the source.
    Source(SourceTrace<'p>),
}

/// Writes the line above the steps on the error stream, and passes it on. A failure of that stream, or refused memory, changes nothing.
fn report_heading<E: ByteOut>(alloc: Global, err: &mut E)
    ensures grows { Begins (E.taken err.old) (E.taken err.new) }
    ensures passes { Begins (E.passed err.old) (E.passed err.new) }
{
    if put_heading(alloc, err).is_ok() {
        let _passed = err.flush();
    }
}

/// Writes in the same way that the OCODE is not the one from which the INTCODE was generated.
fn report_other<E: ByteOut>(alloc: Global, err: &mut E)
    ensures grows { Begins (E.taken err.old) (E.taken err.new) }
    ensures passes { Begins (E.passed err.old) (E.passed err.new) }
{
    if put_other(alloc, err).is_ok() {
        let _passed = err.flush();
    }
}

/// Writes the line of a step on the error stream, in the same way, and passes it on.
fn report_step<E: ByteOut>(alloc: Global, step: &Step, err: &mut E)
    ensures grows { Begins (E.taken err.old) (E.taken err.new) }
    ensures passes { Begins (E.passed err.old) (E.passed err.new) }
{
    if put_step(alloc, step, err).is_ok() {
        let _passed = err.flush();
    }
}

/// Writes the line above the steps of a procedure in the same way, where the code at an address belongs to another procedure than the
/// steps before it.
fn report_procedure<E: ByteOut>(alloc: Global, progress: &mut Progress, at: u32, err: &mut E)
    ensures grows { Begins (E.taken err.old) (E.taken err.new) }
    ensures passes { Begins (E.passed err.old) (E.passed err.new) }
{
    let Some(procedures) = progress.procedures else {
        return;
    };
    let Some(number) = procedures.holding(at) else {
        return;
    };
    if progress.current == Some(number) {
        return;
    }
    progress.current = Some(number);
    if put_procedure(alloc, procedures.name(number), err).is_ok() {
        let _passed = err.flush();
    }
}

/// Writes the line of a step in the same way, under the name of its procedure if that was not written last.
fn report_code<E: ByteOut>(alloc: Global, progress: &mut Progress, step: &Step, err: &mut E)
    ensures grows { Begins (E.taken err.old) (E.taken err.new) }
    ensures passes { Begins (E.passed err.old) (E.passed err.new) }
{
    report_procedure(alloc, progress, step.at, err);
    report_step(alloc, step, err);
}

/// Writes the lines of a step of a source in the same way.
fn report_source<E: ByteOut>(
    alloc: Global,
    trace: &mut SourceTrace<'_>,
    step: &Step,
    machine: &Machine,
    err: &mut E,
)
    ensures grows { Begins (E.taken err.old) (E.taken err.new) }
    ensures passes { Begins (E.passed err.old) (E.passed err.new) }
{
    if put_source_step(alloc, trace, step, machine, err).is_ok() {
        let _passed = err.flush();
    }
}

/// Writes the lines of a step, as its run is written.
fn report<E: ByteOut>(
    alloc: Global,
    telling: &mut Telling<'_>,
    step: &Step,
    machine: &Machine,
    err: &mut E,
)
    ensures grows { Begins (E.taken err.old) (E.taken err.new) }
    ensures passes { Begins (E.passed err.old) (E.passed err.new) }
{
    match telling {
        Telling::Code(progress) => report_code(alloc, progress, step, err),
        Telling::Source(trace) => report_source(alloc, trace, step, machine, err),
    }
}

/// The step of this number, before it is done.
fn next_step(machine: &Machine, number: u64) -> Step {
    let at = machine.registers().c;
    Step {
        number,
        at,
        word: machine.word(at),
        next: machine.word(at.wrapping_add(1)),
        after: None,
    }
}

/// One step, with its line, and with the name of its procedure if that was not written last.
fn run_step<I: ByteIn, O: ByteOut, E: ByteOut>(
    alloc: Global,
    machine: &mut Machine,
    number: u64,
    telling: &mut Telling<'_>,
    input: &mut I,
    out: &mut O,
    err: &mut E,
) -> End
    requires fresh { end_of machine.old ≡ None }
    ensures ran { Ran (HeldBy I.held) result 1
        (store_of machine.old) (registers_of machine.old) (store_of machine.new) (registers_of machine.new)
        (devices I.ByteIn O.ByteOut input.old out.old) (devices I.ByteIn O.ByteOut input.new out.new) }
    ensures flushed { result ≢ WriteFault → O.passed out.new ≡ O.taken out.new }
    ensures passes { Begins (O.passed out.old) (O.passed out.new) }
    ensures cause { Blames result (I.faults input.old) (I.faults input.new) (O.faults out.new) }
    ensures paused { result ≡ StepLimit → end_of machine.new ≡ None }
    ensures reported { Begins (E.taken err.old) (E.taken err.new) × Begins (E.passed err.old) (E.passed err.new) }
{
    let mut step = next_step(machine, number);
    let end = machine.run(1, input, out);
    if end == End::StepLimit {
        step.after = Some(machine.registers());
    }
    report(alloc, telling, &step, machine, err);
    end
}

/// Up to so many steps, at least one, each with its line.
pub(crate) fn run_steps<I: ByteIn, O: ByteOut, E: ByteOut>(
    alloc: Global,
    machine: &mut Machine,
    limits: Limits,
    telling: &mut Telling<'_>,
    input: &mut I,
    out: &mut O,
    err: &mut E,
) -> End
    requires fresh { end_of machine.old ≡ None }
    ensures ran { result ≢ WriteFault → Ran (HeldBy I.held) result limits.steps
        (store_of machine.old) (registers_of machine.old) (store_of machine.new) (registers_of machine.new)
        (devices I.ByteIn O.ByteOut input.old out.old) (devices I.ByteIn O.ByteOut input.new out.new) }
    ensures flushed { result ≢ WriteFault → O.passed out.new ≡ O.taken out.new }
    ensures passes { Begins (O.passed out.old) (O.passed out.new) }
    ensures cause { Blames result (I.faults input.old) (I.faults input.new) (O.faults out.new) }
    ensures reported { Begins (E.taken err.old) (E.taken err.new) × Begins (E.passed err.old) (E.passed err.new) }
{
    for i in 0..limits.steps() {
        let end = run_step(alloc, machine, i + 1, telling, input, out, err);
        if end != End::StepLimit {
            return end;
        }
    }
    End::StepLimit
}

/// The procedures, if they are those of a program that ends at this address; else the output says that the OCODE is of another program.
fn known_procedures<'p, E: ByteOut>(
    alloc: Global,
    procedures: Option<&'p Procedures>,
    image: u32,
    err: &mut E,
) -> Option<&'p Procedures>
    ensures grows { Begins (E.taken err.old) (E.taken err.new) }
    ensures passes { Begins (E.passed err.old) (E.passed err.new) }
{
    let known = procedures?;
    if known.end() == image {
        return Some(known);
    }
    report_other(alloc, err);
    None
}

/// The run of `trace`, where the names of procedures may be known.
fn trace_with<C: ByteIn, I: ByteIn, O: ByteOut, E: ByteOut>(
    alloc: Global,
    code: &mut C,
    tracing: &Tracing,
    input: &mut I,
    out: &mut O,
    err: &mut E,
) -> Result<End, KitFault>
    ensures traced { Traced (HeldBy I.held) result tracing.now.limits.steps tracing.now.limits.words (C.left code.old) (C.left code.new) (C.ended code.new)
        (streams I.ByteIn O.ByteOut input.old out.old) (streams I.ByteIn O.ByteOut input.new out.new) }
    ensures read_fails { C.faults code.new ≡ (if is_read result then 1 else 0) }
    ensures reported { Begins (E.taken err.old) (E.taken err.new) × Begins (E.passed err.old) (E.passed err.new) }
{
    let mut machine = load_code(alloc, code, tracing.limits.words())?;
    let mut telling = Telling::Code(Progress {
        procedures: known_procedures(alloc, tracing.procedures, machine.sizes().image, err),
        current: None,
    });
    report_heading(alloc, err);
    Ok(run_steps(
        alloc,
        &mut machine,
        tracing.limits,
        &mut telling,
        input,
        out,
        err,
    ))
}

/// Reads all segments of a text of INTCODE, loads them and runs them as `interpret` does, with a line on the error stream for each
/// step. The output is passed on at each step, so a failure of it shows earlier. A failure of the error stream changes nothing.
pub fn trace<C: ByteIn, I: ByteIn, O: ByteOut, E: ByteOut>(
    alloc: Global,
    code: &mut C,
    limits: Limits,
    input: &mut I,
    out: &mut O,
    err: &mut E,
) -> Result<End, KitFault>
    ensures traced { Traced (HeldBy I.held) result limits.steps limits.words (C.left code.old) (C.left code.new) (C.ended code.new)
        (streams I.ByteIn O.ByteOut input.old out.old) (streams I.ByteIn O.ByteOut input.new out.new) }
    ensures read_fails { C.faults code.new ≡ (if is_read result then 1 else 0) }
    ensures reported { Begins (E.taken err.old) (E.taken err.new) × Begins (E.passed err.old) (E.passed err.new) }
{
    let tracing = Tracing {
        limits,
        procedures: None,
    };
    trace_with(alloc, code, &tracing, input, out, err)
}

/// The same, with the names of the procedures. The text of OCODE is read first: where it is refused or can't be read, nothing is read of
/// the INTCODE and nothing is run. Names are written if it is the OCODE from which the INTCODE was generated; else one line tells that
/// it is of another program.
pub fn trace_named<C: ByteIn, N: ByteIn, I: ByteIn, O: ByteOut, E: ByteOut>(
    alloc: Global,
    files: &mut Files<C, N>,
    limits: Limits,
    input: &mut I,
    out: &mut O,
    err: &mut E,
) -> Result<End, KitFault>
    ensures traced { TracedNamed (HeldBy I.held) result limits.steps limits.words
        (file_read N.ByteIn files.old.ocode files.new.ocode)
        (file_read C.ByteIn files.old.file files.new.file)
        (streams I.ByteIn O.ByteOut input.old out.old) (streams I.ByteIn O.ByteOut input.new out.new) }
    ensures reported { Begins (E.taken err.old) (E.taken err.new) × Begins (E.passed err.old) (E.passed err.new) }
{
    let sections = read_sections(alloc, &mut files.ocode)?;
    let procedures = procedures_of(alloc, sections.as_slice())?;
    let tracing = Tracing {
        limits,
        procedures: Some(&procedures),
    };
    trace_with(alloc, &mut files.file, &tracing, input, out, err)
}
