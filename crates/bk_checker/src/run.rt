//! Runs of the meaning over devices.
ghost use Rattle.std.specs.Prelude.{◌≡◌, ◌≢◌, ◌⊎◌, true, false, IfOk, IfErr, OnOk, OnErr, []};
ghost use Rattle.std.specs.Bool.{OnTrue};
ghost use Rattle.std.specs.Io.KnownBytes.{Keeps};
ghost use Rattle.bk_base.specs.Devices.{Begins};
ghost use Rattle.bk_meaning.specs.Lasting.{Program};
ghost use Rattle.bk_check.specs.declared.frame.Next.TheVariants as n;
ghost use Rattle.bk_check.specs.Views.{program_in};
ghost use Rattle.bk_check.specs.Resume.{argument_of as argument_in};
ghost use Rattle.bk_checker.specs.declared.report.CheckFault.TheVariants.{Write, TooDeep};
ghost use Rattle.bk_checker.specs.Checks.{Blames, over, verdict_of, Answered, Moves, Reaches, ComesToLimit, devices};
ghost use Rattle.bk_checker.specs.Limits.{Progresses, asked, IsTooDeep, IsTooLarge};

use crate::report::{CheckFault, Verdict};
use bk_base::{ByteIn, ByteOut, put_all};
use bk_check::{Evaluator, Next, Subject, Thing, step};
use bk_lasting::{Lasting, constant};
use bk_objects::{Effect, Origin, Reason, Routine, Worth, perform};
use bk_tree::{Init, Position};

/// How many frames are at most on the stack of a check, once more than `CALLS` calls were active.
pub const FRAMES: usize = 4_194_304;

/// How many calls may be active at once, however many frames these take.
pub const CALLS: u64 = 16_384;

/// How many cells live at most in a check: the words of the largest store of a run.
pub const CELLS: usize = 16_777_216;

/// Passes on what the output holds.
pub fn flush<O: ByteOut>(out: &mut O) -> Result<(), CheckFault>
    ensures all { OnOk result (O.passed out.new ≡ O.taken out.new) }
    ensures keeps { Keeps (O.taken out.old) (O.taken out.new) }
    ensures passes { Begins (O.passed out.old) (O.passed out.new) }
    ensures sound { OnOk result ((O.faults out.old ≡ 0) × (O.faults out.new ≡ 0)) }
    ensures cause { IfErr result (λ fault. (fault ≡ Write) × (O.faults out.new ≡ 1)) }
{
    match out.flush() {
        Ok(()) => Ok(()),
        Err(_) => Err(CheckFault::Write),
    }
}

/// The next byte, or -1 at the end. Where the input is not ready, the output is flushed first; if that fails, the input
/// is not asked.
#[inline(never)]
fn ask<I: ByteIn, O: ByteOut>(input: &mut I, out: &mut O) -> Result<u32, CheckFault>
    ensures answered { IfOk result (λ word. Answered word
        (devices I.ByteIn O.ByteOut input.old out.old) (devices I.ByteIn O.ByteOut input.new out.new)) }
    ensures still { OnErr result (Keeps (I.left input.old) (I.left input.new) × (I.ended input.new ≡ I.ended input.old)
        × Keeps (O.taken out.old) (O.taken out.new)) }
    ensures passes { Begins (O.passed out.old) (O.passed out.new) }
    ensures flushed_first { I.held input.old ≡ [] → I.ended input.old ≡ false → OnOk result (O.passed out.new ≡ O.taken out.new) }
    ensures sound { OnOk result ((I.faults input.new ≡ I.faults input.old) × (O.faults out.new ≡ O.faults out.old)) }
    ensures cause { IfErr result (λ fault. Blames fault (I.faults input.old) (I.faults input.new) (O.faults out.old) (O.faults out.new)) }
    ensures within { IfErr result (λ fault. fault ≢ TooDeep) }
{
    if !input.ready() {
        flush(out)?;
    }
    match input.next() {
        Err(_) => Err(CheckFault::Read),
        Ok(None) => Ok(0xFFFF_FFFF),
        Ok(Some(byte)) => Ok(u32::from(byte)),
    }
}

/// A call of a routine of the library.
fn library<'a, I: ByteIn, O: ByteOut>(
    m: &mut Evaluator<'a>,
    at: Position,
    routine: Routine,
    values: &Vec<Worth>,
    input: &mut I,
    out: &mut O,
) -> Result<Next<'a>, CheckFault>
    ensures moves { IfOk result (λ after. (p : Program) → Moves p m.old (n.Library at routine values.now) m.new after
        (devices I.ByteIn O.ByteOut input.old out.old) (devices I.ByteIn O.ByteOut input.new out.new)) }
    ensures falls { IfOk result (λ after. Progresses m.old (n.Library at routine values.now) m.new after) }
    ensures part { IfErr result (λ _. (p : Program) → Reaches p m.old (n.Library at routine values.now)
        (devices I.ByteIn O.ByteOut input.old out.old) (devices I.ByteIn O.ByteOut input.new out.new)) }
    ensures passes { Begins (O.passed out.old) (O.passed out.new) }
    ensures sound { OnOk result ((I.faults input.new ≡ I.faults input.old) × (O.faults out.new ≡ O.faults out.old)) }
    ensures cause { IfErr result (λ fault. Blames fault (I.faults input.old) (I.faults input.new) (O.faults out.old) (O.faults out.new)) }
    ensures flushed_first { I.held input.old ≡ [] → I.ended input.old ≡ false → OnOk result ((input.new ≡ input.old) ⊎ (O.passed out.new ≡ O.taken out.new)) }
    ensures within { IfErr result (λ fault. fault ≢ TooDeep) }
{
    match perform(m.alloc, &mut m.store, routine, values)? {
        Effect::Stops(status) => Ok(Next::Status(status)),
        Effect::TakesByte => {
            let word = ask(input, out)?;
            Ok(Next::Gives(Thing::Value(Worth::Number(word))))
        }
        Effect::Writes(text) => {
            if put_all(out, &text).is_err() {
                return Err(CheckFault::Write);
            }
            Ok(Next::Gives(Thing::Value(Worth::Unset(Origin::Library(routine)))))
        }
        Effect::Gives(x) => Ok(Next::Gives(Thing::Value(x))),
        Effect::Undefined(misuse) => Ok(Next::Undefined(
            Subject::Library(at, routine, misuse.argument, misuse.directive),
            misuse.reason,
        )),
    }
}

/// One step, with what it leaves to do to the devices.
fn turn<'a, I: ByteIn, O: ByteOut>(
    m: &mut Evaluator<'a>,
    program: &[Lasting<'a>],
    next: Next<'a>,
    input: &mut I,
    out: &mut O,
) -> Result<Next<'a>, CheckFault>
    ensures moves { IfOk result (λ after. Moves (program_in program.now) m.old next.entry m.new after
        (devices I.ByteIn O.ByteOut input.old out.old) (devices I.ByteIn O.ByteOut input.new out.new)) }
    ensures falls { over m.old.frames.items next.entry ≡ false → IfOk result (λ after. Progresses m.old next.entry m.new after) }
    ensures part { IfErr result (λ _. Reaches (program_in program.now) m.old next.entry
        (devices I.ByteIn O.ByteOut input.old out.old) (devices I.ByteIn O.ByteOut input.new out.new)) }
    ensures passes { Begins (O.passed out.old) (O.passed out.new) }
    ensures sound { OnOk result ((I.faults input.new ≡ I.faults input.old) × (O.faults out.new ≡ O.faults out.old)) }
    ensures cause { IfErr result (λ fault. Blames fault (I.faults input.old) (I.faults input.new) (O.faults out.old) (O.faults out.new)) }
    // A step leaves the input as it is, or passes on all that was written before it asks for a byte that the input does not hold.
    ensures flushed_first { I.held input.old ≡ [] → I.ended input.old ≡ false → OnOk result ((input.new ≡ input.old) ⊎ (O.passed out.new ≡ O.taken out.new)) }
    ensures within { IfErr result (λ fault. fault ≢ TooDeep) }
{
    match next {
        Next::Library(at, routine, values) => library(m, at, routine, &values, input, out),
        _ => Ok(step(m, program, next)?),
    }
}

/// Whether a run ends here.
fn is_over<'a>(m: &Evaluator<'a>, next: &Next<'a>) -> bool
    ensures { result ≡ over m.now.frames.items next.now }
{
    match next {
        Next::Status(_) | Next::DivideByZero(_) | Next::Undefined(_, _) | Next::Going(_) => true,
        Next::Gives(_) | Next::Leaves(_) => m.frames.is_empty(),
        _ => false,
    }
}

/// The number of the argument at fault, from 1, in a call of a routine of the library.
fn argument_of(subject: &Subject) -> Option<usize>
    ensures { result ≡ argument_in subject.now }
{
    match subject {
        Subject::Library(_, _, argument, _) => Some(*argument),
        _ => None,
    }
}

/// The verdict of what ends a run.
pub fn verdict(next: &Next) -> Verdict
    ensures { result ≡ verdict_of next.now }
{
    match next {
        Next::Gives(Thing::Value(_)) => Verdict::Status(0),
        Next::Status(status) => Verdict::Status(*status),
        Next::DivideByZero(_) => Verdict::DivideByZero,
        Next::Going(_) => Verdict::Turns,
        Next::Undefined(subject, reason) => Verdict::Undefined {
            argument: argument_of(subject),
            reason: *reason,
        },
        _ => Verdict::Undefined {
            argument: None,
            reason: Reason::NoPlace,
        },
    }
}

/// How many cells a VEC has that comes next; none where no VEC does.
fn cells_asked(next: &Next) -> usize
    ensures { result ≡ asked next.now }
{
    match next {
        Next::Starts([Init::Vector { size, .. }, ..], here, _, _) => match constant(here, size) {
            Some(last) => last as usize + 1,
            None => 0,
        },
        _ => 0,
    }
}

/// Whether more cells live than the limit of a check, or would with a VEC that comes next.
fn is_too_large(m: &Evaluator, next: &Next) -> bool
    ensures { OnTrue result (IsTooLarge m.now next.now) }
{
    let asked = cells_asked(next);
    m.most_cells > CELLS
        || (asked > 0 && m.turns > 0 && m.store.cells_in_use().saturating_add(asked) > CELLS)
}

/// Whether there are more frames than the limit of a check, or would be more cells.
fn is_too_deep(m: &Evaluator, next: &Next) -> bool
    ensures { OnTrue result (IsTooDeep m.now next.now) }
{
    (m.frames.len() > FRAMES && m.most_calls > CALLS) || is_too_large(m, next)
}

/// Steps up to the end of a run: what ends it.
pub fn go<'a, I: ByteIn, O: ByteOut>(
    m: &mut Evaluator<'a>,
    program: &[Lasting<'a>],
    first: Next<'a>,
    input: &mut I,
    out: &mut O,
) -> Result<Next<'a>, CheckFault>
    ensures moves { IfOk result (λ last. Moves (program_in program.now) m.old first.entry m.new last
        (devices I.ByteIn O.ByteOut input.old out.old) (devices I.ByteIn O.ByteOut input.new out.new)) }
    ensures ended { IfOk result (λ last. over m.new.frames.items last ≡ true) }
    ensures limits { IfErr result (λ fault. fault ≡ TooDeep → ComesToLimit (program_in program.now) m.old first.entry m.new
        (devices I.ByteIn O.ByteOut input.old out.old) (devices I.ByteIn O.ByteOut input.new out.new)) }
    ensures part { IfErr result (λ _. Reaches (program_in program.now) m.old first.entry
        (devices I.ByteIn O.ByteOut input.old out.old) (devices I.ByteIn O.ByteOut input.new out.new)) }
    ensures passes { Begins (O.passed out.old) (O.passed out.new) }
    ensures sound { OnOk result ((I.faults input.new ≡ I.faults input.old) × (O.faults out.new ≡ O.faults out.old)) }
    ensures cause { IfErr result (λ fault. Blames fault (I.faults input.old) (I.faults input.new) (O.faults out.old) (O.faults out.new)) }
{
    let mut next = first;
    'turns: loop {
        let left = m.turns;
        'steps: while m.turns == left {
            if is_over(m, &next) {
                return Ok(next);
            }
            if is_too_deep(m, &next) {
                return Err(CheckFault::TooDeep);
            }
            next = turn(m, program, next, input, out)?;
        }
    }
}
