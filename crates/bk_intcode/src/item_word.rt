//! The word of an item.
ghost use Rattle.std.specs.Prelude.{◌≡◌, ◌+◌, ◌≤◌, ◌++◌, length, pos};
ghost use Rattle.bk_base.specs.Decimal.{spelling};
ghost use Rattle.bk_machine.specs.Segment.{IsLabel, IsOperand, IsItem};
ghost use Rattle.bk_intcode.specs.ItemText.{letter, operand_text, item_text};

use bk_base::limit::GLOBAL_NUMBER;
use bk_base::word_text;
use bk_machine::{Function, Item, Operand};
use bk_words::WordBuffer;

/// The letter of a function.
pub fn letter_of(function: Function) -> u8
    ensures { result ≡ letter function }
{
    match function {
        Function::Load => b'L',
        Function::Store => b'S',
        Function::Add => b'A',
        Function::Jump => b'J',
        Function::JumpTrue => b'T',
        Function::JumpFalse => b'F',
        Function::Call => b'K',
        Function::Operate => b'X',
    }
}

/// Adds a number to a word.
fn add_number(word: &mut WordBuffer, number: i32)
    requires { length word.old ≤ 5 }
    ensures { word.new ≡ word.old ++ spelling number }
{
    let text = word_text(number);
    word.extend(text.as_bytes());
}

/// Adds the number of a label to a word.
fn add_label(word: &mut WordBuffer, label: u32)
    requires short { length word.old ≤ 5 }
    requires label { IsLabel label }
    ensures { word.new ≡ word.old ++ spelling (pos label) }
{
    add_number(word, label as i32);
}

/// Adds the number of a global to a word.
fn add_global(word: &mut WordBuffer, number: u32)
    requires short { length word.old ≤ 5 }
    requires in_range { number ≤ GLOBAL_NUMBER }
    ensures added { word.new ≡ word.old ++ spelling (pos number) }
    ensures digits { length word.new ≤ length word.old + 3 }
{
    add_number(word, number as i32);
}

/// Adds an operand to a word.
fn add_operand(word: &mut WordBuffer, operand: Operand)
    requires short { length word.old ≤ 4 }
    requires in_range { IsOperand operand }
    ensures { word.new ≡ word.old ++ operand_text operand }
{
    match operand {
        Operand::Number(n) => add_number(word, n),
        Operand::Local(n) => {
            word.push(b'P');
            add_number(word, n);
        }
        Operand::Global(n) => {
            word.push(b'G');
            add_number(word, n);
        }
        Operand::Label(l) => {
            word.push(b'L');
            add_label(word, l);
        }
    }
}

/// The word that means an item.
pub fn item_word(item: Item) -> WordBuffer
    requires { IsItem item }
    ensures { result ≡ item_text item }
{
    let mut word = WordBuffer::new();
    match item {
        Item::Instruction {
            function,
            indirect,
            operand,
        } => {
            word.push(letter_of(function));
            if indirect {
                word.push(b'I');
            }
            add_operand(&mut word, operand);
        }
        Item::SetLabel(l) => add_label(&mut word, l),
        Item::Byte(b) => {
            word.push(b'C');
            add_number(&mut word, i32::from(b));
        }
        Item::Word(w) => {
            word.push(b'D');
            add_number(&mut word, w);
        }
        Item::LabelWord(l) => {
            word.push(b'D');
            word.push(b'L');
            add_label(&mut word, l);
        }
        Item::SetGlobal { number, label } => {
            word.push(b'G');
            add_global(&mut word, number);
            word.push(b'L');
            add_label(&mut word, label);
        }
        Item::Frame(n) => {
            word.push(b'Q');
            add_number(&mut word, n as i32);
        }
        Item::End => word.push(b'Z'),
    }
    word
}
