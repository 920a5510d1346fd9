//! Where the items of segments are placed in a store.

use bk_machine::{Item, Operand};

/// The address of the first word of the first segment (docs/INTCODE.md, *The store before a run*).
pub const FIRST_SEGMENT: u32 = 1034;

/// The greatest number that the address field of an instruction holds.
const LONGEST_FIELD: i32 = 0x01FF_FFFF;

/// The bytes of a word.
const WORD_BYTES: u32 = 4;

/// Where the next item is placed.
#[derive(Clone, Copy)]
pub struct Placer {
    /// The address after the items that were placed.
    next: u32,
    /// How many of those items are bytes that come one after another up to that address.
    bytes: u32,
}

/// Whether a number does not fit the address field.
fn is_long_number(number: i32) -> bool {
    number < 0 || number > LONGEST_FIELD
}

/// Whether the address of an instruction takes a word of its own.
fn is_long(operand: Operand) -> bool {
    match operand {
        Operand::Number(number) => is_long_number(number),
        Operand::Local(number) => is_long_number(number),
        Operand::Global(number) => is_long_number(number),
        Operand::Label(_) => false,
    }
}

/// How many words an item takes that is no byte.
fn words_of(item: Item) -> u32 {
    match item {
        Item::Instruction { operand, .. } => 1 + u32::from(is_long(operand)),
        Item::Word(_) | Item::LabelWord(_) => 1,
        _ => 0,
    }
}

impl Placer {
    /// Before the first item of the first segment.
    pub fn new() -> Placer {
        Placer {
            next: FIRST_SEGMENT,
            bytes: 0,
        }
    }

    /// The address of the next item.
    pub fn next(&self) -> u32 {
        self.next
    }

    /// Goes past an item, and returns how many words begin with it.
    pub fn pass(&mut self, item: Item) -> u32 {
        let words = if let Item::Byte(_) = item {
            let is_first = self.bytes % WORD_BYTES == 0;
            self.bytes = self.bytes.wrapping_add(1);
            u32::from(is_first)
        } else {
            self.bytes = 0;
            words_of(item)
        };
        self.next = self.next.saturating_add(words);
        words
    }

    /// Ends a segment.
    pub fn end(&mut self) {
        self.bytes = 0;
    }
}
