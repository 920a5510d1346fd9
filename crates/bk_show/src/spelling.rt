//! How the parts of a tree are spelled in a source.

use crate::text::Text;
use bk_tree::{Operator, Prefix, Simple, Sort};
use std::alloc::AllocError;

/// The spelling of a prefix operator.
pub fn prefix_spelling(prefix: Prefix) -> &'static str {
    match prefix {
        Prefix::Contents => "!",
        Prefix::Address => "@",
        Prefix::Plus => "+",
        Prefix::Minus => "-",
        Prefix::Not => "NOT",
    }
}

/// The spelling of an operator between two operands.
pub fn operator_spelling(operator: Operator) -> &'static str {
    match operator {
        Operator::Subscript => "!",
        Operator::Byte => "%",
        Operator::Times => "*",
        Operator::Over => "/",
        Operator::Rem => "REM",
        Operator::Add => "+",
        Operator::Subtract => "-",
        Operator::Equal => "=",
        Operator::Unequal => "~=",
        Operator::Less => "<",
        Operator::Greater => ">",
        Operator::AtMost => "<=",
        Operator::AtLeast => ">=",
        Operator::ShiftLeft => "<<",
        Operator::ShiftRight => ">>",
        Operator::Both => "&",
        Operator::Either => "|",
        Operator::Same => "EQV",
        Operator::Differ => "NEQV",
    }
}

/// The spelling of a command of one word.
pub fn simple_spelling(simple: Simple) -> &'static str {
    match simple {
        Simple::Break => "BREAK",
        Simple::Loop => "LOOP",
        Simple::EndCase => "ENDCASE",
        Simple::Return => "RETURN",
        Simple::Finish => "FINISH",
    }
}

/// The word that a declaration with constants begins with.
pub fn sort_spelling(sort: Sort) -> &'static str {
    match sort {
        Sort::Manifest => "MANIFEST",
        Sort::Static => "STATIC",
        Sort::Global => "GLOBAL",
    }
}

/// Adds a byte of a string as a source spells it.
fn put_string_byte(text: &mut Text, byte: u8) -> Result<(), AllocError> {
    match byte {
        b'\n' => text.say("*N"),
        b'\t' => text.say("*T"),
        8 => text.say("*B"),
        12 => text.say("*P"),
        b'\r' => text.say("*C"),
        b'"' => text.say("*\""),
        b'*' => text.say("**"),
        _ => text.spell(&[byte]),
    }
}

/// Adds the bytes of a string as a source spells them, between quotes.
pub fn put_string(text: &mut Text, bytes: &[u8]) -> Result<(), AllocError> {
    text.say("\"")?;
    for byte in bytes {
        put_string_byte(text, *byte)?;
    }
    text.say("\"")
}
