//! The words of items, put after those of the store.
ghost use Rattle.std.specs.Prelude.{◌≡◌, ◌+◌, ◌-◌, ◌*◌, ◌%◌, ◌^◌, ◌<◌, ◌≤◌, ◌++◌, OnOk, IfOk, fold, length, vec_len, slice_index, slice_set};
ghost use Rattle.bk_machine.specs.Instructions.{function_number, bit, fields, instruction_at, instruction_words};
ghost use Rattle.bk_machine.specs.Placement.{SEGMENTS, grown, segment_settings, segment_words, with_setting};
ghost use Rattle.bk_machine.specs.Segment.{IsSegment};
ghost use Rattle.bk_machine.specs.Inner.LabelNumbers.{number_of};
ghost use Rattle.bk_machine.specs.Inner.Packing.{IsFilled};

use crate::extent::LONG_ADDRESS;
use crate::item::{Function, Item, Operand};
use crate::labels::Labels;
use crate::library::GLOBAL_0;
use std::alloc::AllocError;

fn function_number(function: Function) -> u32
    ensures value { result ≡ function_number function }
    ensures within { result < 8 }
{
    match function {
        Function::Load => 0,
        Function::Store => 1,
        Function::Add => 2,
        Function::Jump => 3,
        Function::JumpTrue => 4,
        Function::JumpFalse => 5,
        Function::Call => 6,
        Function::Operate => 7,
    }
}

fn bit(set: bool) -> u32
    ensures value { result ≡ bit set }
    ensures within { result ≤ 1 }
{
    if set { 1 } else { 0 }
}

/// The word of an instruction, without its address.
pub(crate) fn fields(
    function: Function,
    indirect: bool,
    local: bool,
    global: bool,
    long: bool,
) -> u32
    ensures value { result ≡ fields function indirect local global long }
    ensures room { result + 2 ^ 25 ≤ 2 ^ 32 }
{
    0x2000_0000 * function_number(function)
        + 0x1000_0000 * bit(indirect)
        + 0x800_0000 * bit(local)
        + 0x400_0000 * bit(global)
        + LONG_ADDRESS * bit(long)
}

/// Puts an instruction after the words.
pub(crate) fn push_instruction(
    words: &mut Vec<u32>,
    function: Function,
    indirect: bool,
    local: bool,
    global: bool,
    address: u32,
) -> Result<(), AllocError>
    ensures { OnOk result (words.new.items ≡ words.old.items ++ instruction_at function indirect local global address) }
{
    if address < LONG_ADDRESS {
        words.push(fields(function, indirect, local, global, false) + address)?;
    } else {
        words.push(fields(function, indirect, local, global, true))?;
        words.push(address)?;
    }
    Ok(())
}

/// Puts the words of an instruction after the others.
fn push_operand(
    words: &mut Vec<u32>,
    labels: &Labels,
    function: Function,
    indirect: bool,
    operand: Operand,
) -> Result<(), AllocError>
    ensures { OnOk result (words.new.items
        ≡ words.old.items ++ instruction_words (number_of labels.now) function indirect operand) }
{
    match operand {
        Operand::Number(n) => push_instruction(
            words,
            function,
            indirect,
            false,
            false,
            n.cast_unsigned(),
        ),
        Operand::Local(n) => push_instruction(
            words,
            function,
            indirect,
            true,
            false,
            n.cast_unsigned(),
        ),
        Operand::Global(n) => push_instruction(
            words,
            function,
            indirect,
            false,
            true,
            n.cast_unsigned(),
        ),
        Operand::Label(label) => {
            words.push(fields(function, indirect, false, false, false) + labels.number(label))?;
            Ok(())
        }
    }
}

/// What a byte weighs at a place of a word.
fn weight(place: u32) -> u32
    requires { place < 4 }
    ensures { result ≡ 2 ^ (8 * place) }
{
    match place {
        0 => 1,
        1 => 0x100,
        2 => 0x1_0000,
        _ => 0x100_0000,
    }
}

/// Puts a byte into the last word, of which as many are filled.
fn add_byte(words: &mut Vec<u32>, filled: u32, byte: u8)
    requires filled { IsFilled words.old.items filled }
    requires goes_on { 0 < filled }
    ensures value { words.new.items ≡ slice_set words.old.items (length words.old.items - 1)
        (slice_index words.old.items (length words.old.items - 1) + 2 ^ (8 * filled) * byte) }
    ensures filled { IsFilled words.new.items ((filled + 1) % 4) }
{
    let last = words.len() - 1;
    words[last] += weight(filled) * u32::from(byte);
}

/// Puts the words of an item after the others, and says how many bytes of the last word are filled.
fn push_item(
    words: &mut Vec<u32>,
    labels: &Labels,
    filled: u32,
    item: Item,
) -> Result<u32, AllocError>
    requires { IsFilled words.old.items filled }
    ensures value { IfOk result (λ next. grown (number_of labels.now) (record { words = words.old.items; filled = filled }) item
        ≡ record { words = words.new.items; filled = next }) }
    ensures filled { IfOk result (λ next. IsFilled words.new.items next) }
{
    match item {
        Item::Instruction {
            function,
            indirect,
            operand,
        } => push_operand(words, labels, function, indirect, operand)?,
        Item::Byte(byte) if filled == 0 => {
            words.push(u32::from(byte))?;
            return Ok(1);
        }
        Item::Byte(byte) => {
            add_byte(words, filled, byte);
            return Ok((filled + 1) % 4);
        }
        Item::Word(word) => words.push(word.cast_unsigned())?,
        Item::LabelWord(label) => words.push(labels.number(label))?,
        _ => {}
    }
    Ok(0)
}

/// Puts the words of a segment after the others, and sets its globals among those.
pub(crate) fn push_items(
    words: &mut Vec<u32>,
    labels: &Labels,
    items: &[Item],
) -> Result<(), AllocError>
    requires whole { IsSegment items.now }
    requires globals { SEGMENTS ≤ vec_len words.old }
    ensures { OnOk result (words.new.items
        ≡ fold with_setting (words.old.items ++ segment_words (number_of labels.now) items.now) (segment_settings (number_of labels.now) items.now)) }
{
    let mut filled = 0;
    for item in items {
        filled = match *item {
            Item::SetGlobal { number, label } => {
                words[(GLOBAL_0 + number) as usize] = labels.number(label);
                0
            }
            item => push_item(words, labels, filled, item)?,
        };
    }
    Ok(())
}
