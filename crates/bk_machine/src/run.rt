//! Runs of the machine over devices.
ghost use Rattle.std.specs.Prelude.{ℕ, List, ◌≡◌, ◌≢◌, false, [], Some, IfOk, IfErr, IfSome, OnErr, unwrap_or, vec_len};
ghost use Rattle.std.specs.Io.KnownBytes.{Keeps};
ghost use Rattle.bk_base.specs.declared.run_end.End.TheVariants.{ReadFault, WriteFault, StepLimit};
ghost use Rattle.bk_base.specs.Devices.{Begins};
ghost use Rattle.bk_machine.specs.Inner.Effects.{byte_or_end, turn_of, OwnEnd};
ghost use Rattle.bk_machine.specs.Inner.Stops.{Stops, BlamesStop};
ghost use Rattle.bk_machine.specs.Step.{step as step_of};
ghost use Rattle.bk_machine.specs.Kept.{words_in, words_on};
ghost use Rattle.bk_machine.specs.Runs.{HeldBy, Answered, AskFails, Went, BlamesBefore, devices};

use crate::board::Board;
use crate::put_output::put_output;
use crate::registers::Registers;
use crate::step::{Effect, step_or_stay};
use crate::store::Words;
use bk_base::{ByteIn, ByteOut, End};

/// What the devices answer to a step that asks for a byte. It has two parts at most, which the compiler passes in registers.
#[derive(Clone, Copy)]
pub enum Answer {
    /// The next byte, or -1 at the end.
    Word(u32),
    /// The input failed.
    ReadFault,
    /// The output failed, and the input was not asked.
    WriteFault,
}

/// The next byte, or -1 at the end. Where the input is not ready, the output is flushed first; if that fails, the input
/// is not asked.
#[cold]
#[inline(never)]
fn ask<I: ByteIn, O: ByteOut>(input: &mut I, out: &mut O) -> Answer
    ensures answered { IfOk (byte_or_end result) (λ word. Answered (HeldBy I.held) word
        (devices I.ByteIn O.ByteOut input.old out.old) (devices I.ByteIn O.ByteOut input.new out.new)) }
    ensures still { OnErr (byte_or_end result) (Keeps (I.left input.old) (I.left input.new) × (I.ended input.new ≡ I.ended input.old)
        × (I.held input.new ≡ I.held input.old) × Keeps (O.taken out.old) (O.taken out.new)) }
    ensures unready { OnErr (byte_or_end result) ((I.held input.old ≡ []) × (I.ended input.old ≡ false)) }
    ensures sound { IfOk (byte_or_end result) (λ _. I.faults input.old ≡ 0) }

    ensures flushed { I.held input.old ≡ [] → I.ended input.old ≡ false → I.faults input.old ≡ 0
        → byte_or_end result ≢ Err WriteFault → O.passed out.new ≡ O.taken out.new }
    ensures not_asked { byte_or_end result ≡ Err WriteFault → input.new ≡ input.old }
    ensures passes { Begins (O.passed out.old) (O.passed out.new) }
    ensures cause { IfErr (byte_or_end result) (λ e. AskFails e (I.faults input.old) (I.faults input.new) (O.faults out.new)) }
    ensures no_cause { IfOk (byte_or_end result) (λ _. I.faults input.new ≡ I.faults input.old) }
{
    if !input.ready() && out.flush().is_err() {
        return Answer::WriteFault;
    }
    match input.next() {
        Err(_) => Answer::ReadFault,
        Ok(None) => Answer::Word(0xFFFF_FFFF),
        Ok(Some(byte)) => Answer::Word(u32::from(byte)),
    }
}

/// Does to the devices what a step leaves to do. None where the run goes on.
#[inline(always)]
fn follow<I: ByteIn, O: ByteOut>(
    effect: Effect,
    store: Words<'_>,
    r: &mut Registers,
    input: &mut I,
    out: &mut O,
) -> Option<End>
    ensures went { (before : List ℕ) (start : Registers) → OwnEnd (Some effect) → step_of before start ≡ turn_of (Some effect) (words_in store.entry) r.old
        → Went (HeldBy I.held) (unwrap_or result StepLimit) 1 before start (words_in store.entry) r.new
        (devices I.ByteIn O.ByteOut input.old out.old) (devices I.ByteIn O.ByteOut input.new out.new) }
    ensures over { OwnEnd (Some effect) → IfSome result (λ e. e ≢ StepLimit) }
    ensures passes { Begins (O.passed out.old) (O.passed out.new) }
    ensures cause { OwnEnd (Some effect) → BlamesBefore (unwrap_or result StepLimit) (I.faults input.old) (I.faults input.new) (O.faults out.new) }
{
    match effect {
        Effect::Goes => None,
        Effect::Ends(end) => Some(end),
        Effect::Outputs(what) => match put_output(store, what, out) {
            Ok(true) => None,
            Ok(false) => Some(End::StoreLimit),
            Err(_) => Some(End::WriteFault),
        },
        Effect::Asks => match ask(input, out) {
            Answer::Word(word) => {
                r.a = word;
                None
            }
            Answer::ReadFault => Some(End::ReadFault),
            Answer::WriteFault => Some(End::WriteFault),
        },
    }
}

/// Why steps stop.
#[derive(Clone, Copy)]
pub enum Stop {
    /// The run ends, or all steps are done.
    Ends(End),
    /// With so many steps left, the next leads beyond the words that are kept.
    Beyond(u64),
}

/// The next step leads beyond the words that are kept. This is a call, so that the compiler does not prepare its result before each
/// step.
#[cold]
#[inline(never)]
fn beyond(left: u64) -> Stop
    ensures { result ≡ Stop.Beyond left }
{
    Stop::Beyond(left)
}

/// Up to this many steps on the words that are kept, of a store that has `count`.
#[inline(always)]
fn go_on<I: ByteIn, O: ByteOut>(
    store: &mut [u32],
    count: u32,
    r: &mut Registers,
    steps: u64,
    input: &mut I,
    out: &mut O,
) -> Stop
    ensures stops { Stops (HeldBy I.held) result steps count store.old r.old store.new r.new
        (devices I.ByteIn O.ByteOut input.old out.old) (devices I.ByteIn O.ByteOut input.new out.new) }
    ensures passes { Begins (O.passed out.old) (O.passed out.new) }
    ensures cause { BlamesStop result (I.faults input.old) (I.faults input.new) (O.faults out.new) }
{
    for i in 0..steps {
        let Some(effect) = step_or_stay(store, r) else {
            return beyond(steps - i);
        };
        let kept: &[u32] = store;
        if let Some(end) = follow(effect, Words { kept, count }, r, input, out) {
            return Stop::Ends(end);
        }
    }
    Stop::Ends(End::StepLimit)
}

/// The same on a board.
#[inline(never)]
fn go_kept<I: ByteIn, O: ByteOut>(board: &mut Board, steps: u64, input: &mut I, out: &mut O) -> Stop
    ensures stops { Stops (HeldBy I.held) result steps board.old.words board.old.kept.items board.old.registers board.new.kept.items board.new.registers
        (devices I.ByteIn O.ByteOut input.old out.old) (devices I.ByteIn O.ByteOut input.new out.new) }
    ensures words { board.new.words ≡ board.old.words }
    ensures size { vec_len board.new.kept ≡ vec_len board.old.kept }
    ensures passes { Begins (O.passed out.old) (O.passed out.new) }
    ensures cause { BlamesStop result (I.faults input.old) (I.faults input.new) (O.faults out.new) }
{
    let count = board.words;
    // a copy of its own, which the compiler keeps in registers
    let mut r = board.registers;
    let stop = go_on(board.kept.as_mut_slice(), count, &mut r, steps, input, out);
    board.registers = r;
    stop
}

/// Up to this many steps. Where one leads beyond the words that are kept, more are kept and it is taken again.
pub fn go<I: ByteIn, O: ByteOut>(board: &mut Board, steps: u64, input: &mut I, out: &mut O) -> End
    ensures went { Went (HeldBy I.held) result steps (words_on board.old) board.old.registers (words_on board.new) board.new.registers
        (devices I.ByteIn O.ByteOut input.old out.old) (devices I.ByteIn O.ByteOut input.new out.new) }
    ensures words { board.new.words ≡ board.old.words }
    ensures passes { Begins (O.passed out.old) (O.passed out.new) }
    ensures cause { BlamesBefore result (I.faults input.old) (I.faults input.new) (O.faults out.new) }
{
    let mut left = steps;
    loop {
        match go_kept(board, left, input, out) {
            Stop::Ends(end) => return end,
            Stop::Beyond(rest) => left = rest,
        }
        if !board.grow() {
            return End::StoreLimit;
        }
    }
}
