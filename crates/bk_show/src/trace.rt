//! The steps of a run, a line for each.
ghost use Rattle.std.specs.Prelude.{◌≡◌, Err};
ghost use Rattle.bk_base.specs.Devices.{Begins};
ghost use Rattle.bk_show.specs.declared.section.NotShown.TheVariants.{Device};

use crate::instruction::{Instruction, put_instruction, say_instruction};
use crate::section::{NotShown, put_text};
use crate::text::Text;
use bk_base::ByteOut;
use bk_machine::{Function, Operand, Registers};
use std::alloc::{AllocError, Global};

/// How many places a number of a step, an address, and a word have.
const STEP_PLACES: usize = 8;

const ADDRESS_PLACES: usize = 9;

const WORD_PLACES: usize = 12;

/// The columns of the word, of the registers, and of what the step does.
const WORD: usize = 19;

const REGISTERS: usize = 33;

const MEANING: usize = 77;

/// A step of a run.
#[derive(Clone, Copy)]
pub struct Step {
    /// Its number, from 1.
    pub number: u64,
    /// The address of its word.
    pub at: u32,
    /// The word there, if the store has one.
    pub word: Option<u32>,
    /// The word after it.
    pub next: Option<u32>,
    /// The registers after the step, where the run goes on.
    pub after: Option<Registers>,
}

/// The function of a word.
fn function_of(word: u32) -> Function {
    match word >> 29 {
        0 => Function::Load,
        1 => Function::Store,
        2 => Function::Add,
        3 => Function::Jump,
        4 => Function::JumpTrue,
        5 => Function::JumpFalse,
        6 => Function::Call,
        _ => Function::Operate,
    }
}

/// The address of a word: its own field, or the next word.
fn address_of(word: u32, next: Option<u32>) -> i32 {
    if word & 0x0200_0000 == 0 {
        (word & 0x01FF_FFFF).cast_signed()
    } else {
        next.unwrap_or(0).cast_signed()
    }
}

/// The operand of a word; none where both P and G are added.
fn operand_of(word: u32, next: Option<u32>) -> Option<Operand> {
    let address = address_of(word, next);
    match (word & 0x0800_0000 != 0, word & 0x0400_0000 != 0) {
        (false, false) => Some(Operand::Number(address)),
        (true, false) => Some(Operand::Local(address)),
        (false, true) => Some(Operand::Global(address)),
        (true, true) => None,
    }
}

/// The instruction of a word; none where both P and G are added.
pub fn instruction_of(word: u32, next: Option<u32>) -> Option<Instruction> {
    let operand = operand_of(word, next)?;
    Some(Instruction {
        function: function_of(word),
        indirect: word & 0x1000_0000 != 0,
        operand,
    })
}

/// Adds the registers.
fn put_registers(text: &mut Text, registers: Registers) -> Result<(), AllocError> {
    text.go_to(REGISTERS)?;
    text.right_signed(registers.a.cast_signed(), WORD_PLACES)?;
    text.right_signed(registers.b.cast_signed(), WORD_PLACES)?;
    text.right(u64::from(registers.p), ADDRESS_PLACES)?;
    text.right(u64::from(registers.c), ADDRESS_PLACES)
}

/// The line of a step.
fn step_text(alloc: Global, step: &Step) -> Result<Text, AllocError> {
    let mut text = Text::new(alloc);
    text.right(step.number, STEP_PLACES)?;
    text.right(u64::from(step.at), ADDRESS_PLACES)?;
    text.say("  ")?;
    let instruction = match step.word {
        Some(word) => instruction_of(word, step.next),
        None => None,
    };
    if let Some(instruction) = instruction {
        put_instruction(&mut text, instruction)?;
    } else if let Some(word) = step.word {
        text.natural(word)?;
    }
    if let Some(registers) = step.after {
        put_registers(&mut text, registers)?;
    }
    if let Some(instruction) = instruction {
        text.go_to(MEANING)?;
        say_instruction(&mut text, instruction)?;
    }
    text.end()?;
    Ok(text)
}

/// The line above the steps.
fn heading(alloc: Global) -> Result<Text, AllocError> {
    let mut text = Text::new(alloc);
    text.say(
        "    step       at  word                     A           B        P        C  what it does",
    )?;
    text.end()?;
    Ok(text)
}

/// Writes the line above the steps of a run.
pub fn put_heading<O: ByteOut>(alloc: Global, out: &mut O) -> Result<(), NotShown>
    ensures grows { Begins (O.taken out.old) (O.taken out.new) }
    ensures passes { Begins (O.passed out.old) (O.passed out.new) }
    ensures failed { result ≡ Err Device → O.faults out.new ≡ 1 }
{
    put_text(&heading(alloc)?, out)
}

/// The line that tells that the OCODE is not the one from which the INTCODE was generated.
fn other_text(alloc: Global) -> Result<Text, AllocError> {
    let mut text = Text::new(alloc);
    text.say("no names: the INTCODE was not generated from this OCODE")?;
    text.end()?;
    Ok(text)
}

/// Writes the line that tells that the OCODE is not the one from which the INTCODE was generated.
pub fn put_other<O: ByteOut>(alloc: Global, out: &mut O) -> Result<(), NotShown>
    ensures grows { Begins (O.taken out.old) (O.taken out.new) }
    ensures passes { Begins (O.passed out.old) (O.passed out.new) }
    ensures failed { result ≡ Err Device → O.faults out.new ≡ 1 }
{
    put_text(&other_text(alloc)?, out)
}

/// The line above the steps of a procedure.
fn procedure_text(alloc: Global, name: &[u8]) -> Result<Text, AllocError> {
    let mut text = Text::new(alloc);
    text.go_to(WORD)?;
    text.say("in ")?;
    text.spell(name)?;
    text.end()?;
    Ok(text)
}

/// Writes the line above the steps of a procedure, with its name.
pub fn put_procedure<O: ByteOut>(alloc: Global, name: &[u8], out: &mut O) -> Result<(), NotShown>
    ensures grows { Begins (O.taken out.old) (O.taken out.new) }
    ensures passes { Begins (O.passed out.old) (O.passed out.new) }
    ensures failed { result ≡ Err Device → O.faults out.new ≡ 1 }
{
    put_text(&procedure_text(alloc, name)?, out)
}

/// Writes the line of a step: its number, the address and the word that is executed, the registers after it, and what the word
/// does, in the words of docs/INTCODE.md.
pub fn put_step<O: ByteOut>(alloc: Global, step: &Step, out: &mut O) -> Result<(), NotShown>
    ensures grows { Begins (O.taken out.old) (O.taken out.new) }
    ensures passes { Begins (O.passed out.old) (O.passed out.new) }
    ensures failed { result ≡ Err Device → O.faults out.new ≡ 1 }
{
    put_text(&step_text(alloc, step)?, out)
}
