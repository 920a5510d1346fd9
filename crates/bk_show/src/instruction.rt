//! Instructions of INTCODE as text, and what each does, in the words of docs/INTCODE.md.

use crate::text::Text;
use bk_machine::{Function, Operand};
use std::alloc::AllocError;

/// An instruction.
#[derive(Clone, Copy)]
pub struct Instruction {
    pub function: Function,
    pub indirect: bool,
    pub operand: Operand,
}

/// The letter of a function.
fn letter_of(function: Function) -> &'static str {
    match function {
        Function::Load => "L",
        Function::Store => "S",
        Function::Add => "A",
        Function::Jump => "J",
        Function::JumpTrue => "T",
        Function::JumpFalse => "F",
        Function::Call => "K",
        Function::Operate => "X",
    }
}

/// Adds an operand as a segment has it.
fn put_operand(text: &mut Text, operand: Operand) -> Result<(), AllocError> {
    match operand {
        Operand::Number(number) => text.integer(number),
        Operand::Local(number) => {
            text.say("P")?;
            text.integer(number)
        }
        Operand::Global(number) => {
            text.say("G")?;
            text.integer(number)
        }
        Operand::Label(label) => {
            text.say("L")?;
            text.natural(label)
        }
    }
}

/// Adds an instruction as a segment has it.
pub fn put_instruction(text: &mut Text, instruction: Instruction) -> Result<(), AllocError> {
    text.say(letter_of(instruction.function))?;
    if instruction.indirect {
        text.say("I")?;
    }
    put_operand(text, instruction.operand)
}

/// Adds a register and a number that is added to it.
fn say_sum(text: &mut Text, register: &str, number: i32) -> Result<(), AllocError> {
    text.say(register)?;
    text.say(" + ")?;
    text.integer(number)
}

/// Adds an address, before any indirection.
fn say_address(text: &mut Text, operand: Operand) -> Result<(), AllocError> {
    match operand {
        Operand::Number(number) => text.integer(number),
        Operand::Local(number) => say_sum(text, "P", number),
        Operand::Global(number) => say_sum(text, "G", number),
        Operand::Label(label) => {
            text.say("L")?;
            text.natural(label)
        }
    }
}

/// Adds the word at an address.
fn say_word(text: &mut Text, operand: Operand) -> Result<(), AllocError> {
    match operand {
        Operand::Local(number) => {
            text.say("P!")?;
            text.integer(number)
        }
        Operand::Global(number) => {
            text.say("G!")?;
            text.integer(number)
        }
        _ => {
            text.say("!")?;
            say_address(text, operand)
        }
    }
}

/// Adds the value of the operand D.
fn say_value(text: &mut Text, indirect: bool, operand: Operand) -> Result<(), AllocError> {
    if indirect {
        say_word(text, operand)
    } else {
        say_address(text, operand)
    }
}

/// Adds the word at the address D.
fn say_target(text: &mut Text, indirect: bool, operand: Operand) -> Result<(), AllocError> {
    if indirect {
        text.say("!(")?;
        say_word(text, operand)?;
        text.say(")")
    } else {
        say_word(text, operand)
    }
}

/// What an operation of this number does.
fn operation_words(number: i32) -> &'static str {
    match number {
        1 => "A := !A",
        2 => "A := -A",
        3 => "A := NOT A",
        4 => "C := P!1; P := P!0",
        5 => "A := B * A",
        6 => "A := B / A",
        7 => "A := B REM A",
        8 => "A := B + A",
        9 => "A := B - A",
        10 => "A := B = A",
        11 => "A := B ~= A",
        12 => "A := B < A",
        13 => "A := B >= A",
        14 => "A := B > A",
        15 => "A := B <= A",
        16 => "A := B << A",
        17 => "A := B >> A",
        18 => "A := B & A",
        19 => "A := B | A",
        20 => "A := B NEQV A",
        21 => "A := B EQV A",
        22 => "ends with 0",
        23 => "switch",
        24 => "STOP",
        25 => "RDCH",
        26 => "WRCH",
        27 => "NEWLINE",
        28 => "WRITES",
        29 => "WRITEN",
        30 => "WRITED",
        31 => "GETBYTE",
        32 => "PUTBYTE",
        33 => "WRITEF",
        40 => "A := byte A of the words at B",
        41 => "sets byte A of the words at B",
        _ => "bad operation",
    }
}

/// Adds what an operation does.
fn say_operation(text: &mut Text, indirect: bool, operand: Operand) -> Result<(), AllocError> {
    match operand {
        Operand::Number(number) if !indirect => text.say(operation_words(number)),
        _ => {
            text.say("does operation ")?;
            say_value(text, indirect, operand)
        }
    }
}

/// Adds words and the operand D.
fn say_with(text: &mut Text, words: &str, given: Instruction) -> Result<(), AllocError> {
    text.say(words)?;
    say_value(text, given.indirect, given.operand)
}

/// Adds what an instruction does.
pub fn say_instruction(text: &mut Text, given: Instruction) -> Result<(), AllocError> {
    match given.function {
        Function::Load => say_with(text, "B := A; A := ", given),
        Function::Store => {
            say_target(text, given.indirect, given.operand)?;
            text.say(" := A")
        }
        Function::Add => say_with(text, "A := A + ", given),
        Function::Jump => say_with(text, "C := ", given),
        Function::JumpTrue => {
            say_with(text, "C := ", given)?;
            text.say(" if A is not 0")
        }
        Function::JumpFalse => {
            say_with(text, "C := ", given)?;
            text.say(" if A is 0")
        }
        Function::Call => say_with(text, "calls A with a frame at P + ", given),
        Function::Operate => say_operation(text, given.indirect, given.operand),
    }
}
