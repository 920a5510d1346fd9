//! The steps of the run of a source, with its lines, its names, its calls and its returns, in at most 80 columns.
ghost use Rattle.std.specs.Prelude.{◌≡◌, Err};
ghost use Rattle.bk_base.specs.Devices.{Begins};
ghost use Rattle.bk_show.specs.declared.section.NotShown.TheVariants.{Device};

use crate::instruction::{Instruction, put_instruction, say_instruction};
use crate::program::{PlacedWord, Program};
use crate::section::{NotShown, put_text};
use crate::spelling::put_string;
use crate::text::Text;
use crate::trace::{Step, instruction_of};
use bk_base::{ByteOut, End};
use bk_machine::{Function, Machine, Operand};
use std::alloc::{AllocError, Global};

/// The most columns of a line.
const COLUMNS: usize = 80;

/// How many places a number of a step, of a line, and of a word have.
const STEP_PLACES: usize = 8;

const LINE_PLACES: usize = 6;

const VALUE_PLACES: usize = 12;

/// The columns of the word and of its value.
const WORD: usize = 16;

const VALUE: usize = 26;

/// The most calls in one another that are indented.
const DEEPEST: usize = 20;

/// The word of a return.
const RETURN: u32 = 0xE000_0004;

/// The first word of a frame after its links.
const FIRST_ARGUMENT: u32 = 2;

/// The routines of the library with the numbers of their arguments, from global 2 on.
const LIBRARY: [(&str, u32); 9] = [
    ("STOP", 1),
    ("RDCH", 0),
    ("WRCH", 1),
    ("NEWLINE", 0),
    ("WRITES", 1),
    ("WRITEN", 1),
    ("WRITED", 2),
    ("GETBYTE", 2),
    ("PUTBYTE", 3),
];

/// The addresses of the first of them and of WRITEF (docs/INTCODE.md, *The store before a run*).
const FIRST_ROUTINE: u32 = 1016;

const WRITEF: u32 = 4;

/// Which steps of a run are written.
#[derive(Debug, Drop, PartialEq, Eq)]
pub struct Extent {
    /// The number of the first, from 1.
    pub from: u64,
    /// The number of the last.
    pub to: u64,
    /// The procedure that they are of; without one they are of any.
    pub only: Option<String>,
}

impl Extent {
    /// Whether the step of this number may be written.
    fn has(&self, number: u64) -> bool {
        self.from <= number && number <= self.to
    }

    /// Whether steps of a procedure of this name may be written.
    fn is_of(&self, name: &[u8]) -> bool {
        match &self.only {
            Some(only) => {
                let wanted = only.as_bytes();
                wanted.len() == name.len()
                    && wanted
                        .iter()
                        .zip(name.iter())
                        .all(|(a, b)| a.to_ascii_uppercase() == b.to_ascii_uppercase())
            }
            None => true,
        }
    }
}

/// The trace of a run so far.
#[derive(Drop)]
pub struct SourceTrace<'p> {
    program: &'p Program,
    extent: &'p Extent,
    /// How many calls did not return yet.
    depth: usize,
    /// The procedure that was named last.
    named: Option<usize>,
}

/// The routine of the library at an address, with the number of its arguments.
fn routine_at(at: u32) -> Option<(&'static str, u32)> {
    if at == WRITEF {
        return Some(("WRITEF", 1));
    }
    let number = at.checked_sub(FIRST_ROUTINE)?;
    LIBRARY.get((number / 2) as usize).copied()
}

/// Whether a routine of the library takes a string first.
fn takes_string(name: &str) -> bool {
    name == "WRITES" || name == "WRITEF"
}

/// The bytes of the string at an address of the store.
fn string_at(alloc: Global, machine: &Machine, at: u32) -> Result<Vec<u8>, AllocError> {
    let mut bytes = Vec::new(alloc);
    let length = machine.word(at).unwrap_or(0) % 256;
    for number in 1..=length {
        let word = machine.word(at.wrapping_add(number / 4)).unwrap_or(0);
        bytes.push(((word >> (number % 4 * 8)) % 256) as u8)?;
    }
    Ok(bytes)
}

/// Adds the arguments of a call, which are in the frame at an address.
fn put_arguments(
    text: &mut Text,
    machine: &Machine,
    frame: u32,
    count: u32,
) -> Result<(), AllocError> {
    text.say("(")?;
    for number in 0..count {
        if number > 0 {
            text.say(", ")?;
        }
        let at = frame.wrapping_add(FIRST_ARGUMENT).wrapping_add(number);
        text.integer(machine.word(at).unwrap_or(0).cast_signed())?;
    }
    text.say(")")
}

/// Adds a call of a routine of the library.
fn put_routine(
    alloc: Global,
    text: &mut Text,
    machine: &Machine,
    frame: u32,
    routine: (&'static str, u32),
) -> Result<(), AllocError> {
    let (name, count) = routine;
    text.say(name)?;
    if !takes_string(name) {
        return put_arguments(text, machine, frame, count);
    }
    let at = machine
        .word(frame.wrapping_add(FIRST_ARGUMENT))
        .unwrap_or(0);
    text.say("(")?;
    put_string(text, string_at(alloc, machine, at)?.as_slice())?;
    text.say(if name == "WRITEF" { ", ..)" } else { ")" })
}

/// Adds a step with its line: the word, the value of A after it, and what it does.
fn put_row(
    text: &mut Text,
    program: &Program,
    step: &Step,
    placed: Option<PlacedWord>,
) -> Result<(), AllocError> {
    text.right(step.number, STEP_PLACES)?;
    match placed.and_then(|word| word.line) {
        Some(line) => text.right(u64::from(line), LINE_PLACES)?,
        None => text.say("      ")?,
    }
    text.say("  ")?;
    let instruction = match step.word {
        Some(word) => instruction_of(word, step.next),
        None => None,
    };
    match instruction {
        Some(instruction) => put_instruction(text, instruction)?,
        None => text.natural(step.word.unwrap_or(0))?,
    }
    text.go_to(VALUE)?;
    match step.after {
        Some(registers) => text.right_signed(registers.a.cast_signed(), VALUE_PLACES)?,
        None => text.say("            ")?,
    }
    text.say("  ")?;
    if let Some(instruction) = instruction {
        say_instruction(text, instruction)?;
        put_operand_name(text, program, instruction, placed)?;
    }
    text.fit(COLUMNS);
    text.end()
}

/// Adds the name of the operand of an instruction, after a comma.
fn put_operand_name(
    text: &mut Text,
    program: &Program,
    instruction: Instruction,
    placed: Option<PlacedWord>,
) -> Result<(), AllocError> {
    let Some(number) = placed.and_then(|word| word.name) else {
        return Ok(());
    };
    if instruction.function == Function::Call {
        return Ok(());
    }
    match instruction.operand {
        Operand::Label(_) => Ok(()),
        _ => {
            text.say(", ")?;
            text.name(program.name(number))
        }
    }
}

/// The line above the steps.
fn heading(alloc: Global) -> Result<Text, AllocError> {
    let mut text = Text::new(alloc);
    text.say("    step  line  word                 A  what it does")?;
    text.end()?;
    Ok(text)
}

/// Why a run ended.
fn end_words(end: End) -> &'static str {
    match end {
        End::Status(_) => "status ",
        End::DivideByZero => "division by zero",
        End::StoreLimit => "store limit",
        End::StepLimit => "step limit",
        End::BadOperation => "bad operation",
        End::ReadFault => "read fault",
        End::WriteFault => "write fault",
    }
}

/// The line after the steps.
fn end_text(alloc: Global, end: End) -> Result<Text, AllocError> {
    let mut text = Text::new(alloc);
    text.say("the end: ")?;
    text.say(end_words(end))?;
    if let End::Status(status) = end {
        text.integer(status)?;
    }
    text.end()?;
    Ok(text)
}

impl<'p> SourceTrace<'p> {
    /// Before the first step of the run of a program.
    pub fn of(program: &'p Program, extent: &'p Extent) -> SourceTrace<'p> {
        SourceTrace {
            program,
            extent,
            depth: 0,
            named: None,
        }
    }

    /// Whether the steps of a procedure may be written.
    fn is_of(&self, procedure: Option<usize>) -> bool {
        match procedure.and_then(|number| self.program.procedure(number)) {
            Some(procedure) => self.extent.is_of(procedure.name.as_slice()),
            None => self.extent.only.is_none(),
        }
    }

    /// Begins the line of a call or a return.
    fn begin(&self, text: &mut Text, words: &str) -> Result<(), AllocError> {
        text.go_to(WORD)?;
        text.indent(self.depth.min(DEEPEST))?;
        text.say(words)
    }

    /// Adds the line that names the procedure of the next step, unless it was named last.
    fn put_procedure(&mut self, text: &mut Text, number: Option<usize>) -> Result<(), AllocError> {
        if number.is_none() || number == self.named {
            return Ok(());
        }
        self.named = number;
        let Some(procedure) = number.and_then(|number| self.program.procedure(number)) else {
            return Ok(());
        };
        self.begin(text, "in ")?;
        text.spell(procedure.name.as_slice())?;
        text.fit(COLUMNS);
        text.end()
    }

    /// Adds the line of a call, whose procedure begins at C.
    fn put_call(
        &mut self,
        alloc: Global,
        text: &mut Text,
        machine: &Machine,
    ) -> Result<(), AllocError> {
        let registers = machine.registers();
        self.begin(text, "-> ")?;
        if let Some(routine) = routine_at(registers.c) {
            put_routine(alloc, text, machine, registers.p, routine)?;
        } else {
            let number = self
                .program
                .word(registers.c)
                .and_then(|word| word.procedure);
            match number.and_then(|number| self.program.procedure(number)) {
                Some(procedure) => {
                    self.named = number;
                    text.spell(procedure.name.as_slice())?;
                    put_arguments(text, machine, registers.p, procedure.formals)?;
                }
                None => text.natural(registers.c)?,
            }
        }
        text.fit(COLUMNS);
        text.end()
    }

    /// Adds the line of a return from the code at an address.
    fn put_return(&self, text: &mut Text, step: &Step) -> Result<(), AllocError> {
        self.begin(text, "<- ")?;
        if let Some((name, _)) = routine_at(step.at) {
            text.say(name)?;
        } else {
            let number = self.program.word(step.at).and_then(|word| word.procedure);
            if let Some(procedure) = number.and_then(|number| self.program.procedure(number)) {
                text.spell(procedure.name.as_slice())?;
            }
        }
        if let Some(registers) = step.after {
            text.say(", A = ")?;
            text.integer(registers.a.cast_signed())?;
        }
        text.fit(COLUMNS);
        text.end()
    }

    /// The lines of a step. `machine` is as the step left it.
    fn step_text(
        &mut self,
        alloc: Global,
        step: &Step,
        machine: &Machine,
    ) -> Result<Text, AllocError> {
        let mut text = Text::new(alloc);
        let placed = self.program.word(step.at);
        let procedure = placed.and_then(|word| word.procedure);
        let is_in = self.extent.has(step.number);
        let is_own = is_in && self.is_of(procedure);
        if is_own {
            self.put_procedure(&mut text, procedure)?;
            put_row(&mut text, self.program, step, placed)?;
        }
        let Some(registers) = step.after else {
            return Ok(text);
        };
        let word = step.word.unwrap_or(0);
        let next = self
            .program
            .word(registers.c)
            .and_then(|word| word.procedure);
        let is_reported = is_own || (is_in && next.is_some() && self.is_of(next));
        if word >> 29 == 6 {
            if is_reported {
                self.put_call(alloc, &mut text, machine)?;
            }
            self.depth = self.depth.saturating_add(1);
        } else if word == RETURN {
            self.depth = self.depth.saturating_sub(1);
            if is_reported {
                self.put_return(&mut text, step)?;
            }
        }
        Ok(text)
    }
}

/// Writes the line above the steps of the run of a source.
pub fn put_source_heading<O: ByteOut>(alloc: Global, out: &mut O) -> Result<(), NotShown>
    ensures grows { Begins (O.taken out.old) (O.taken out.new) }
    ensures passes { Begins (O.passed out.old) (O.passed out.new) }
    ensures failed { result ≡ Err Device → O.faults out.new ≡ 1 }
{
    put_text(&heading(alloc)?, out)
}

/// Writes the lines of a step, if it is one that is asked for: its number, its line of the source, its word, A after it, and what the
/// word does; before it the name of its procedure where that changes, and after it a call or a return. `machine` is as the step left it.
pub fn put_source_step<O: ByteOut>(
    alloc: Global,
    trace: &mut SourceTrace<'_>,
    step: &Step,
    machine: &Machine,
    out: &mut O,
) -> Result<(), NotShown>
    ensures grows { Begins (O.taken out.old) (O.taken out.new) }
    ensures passes { Begins (O.passed out.old) (O.passed out.new) }
    ensures failed { result ≡ Err Device → O.faults out.new ≡ 1 }
{
    put_text(&trace.step_text(alloc, step, machine)?, out)
}

/// Writes the line after the steps, which says why the run ended.
pub fn put_source_end<O: ByteOut>(alloc: Global, end: End, out: &mut O) -> Result<(), NotShown>
    ensures grows { Begins (O.taken out.old) (O.taken out.new) }
    ensures passes { Begins (O.passed out.old) (O.passed out.new) }
    ensures failed { result ≡ Err Device → O.faults out.new ≡ 1 }
{
    put_text(&end_text(alloc, end)?, out)
}
