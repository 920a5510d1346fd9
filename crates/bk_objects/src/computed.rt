//! What results from an operation on values.

use crate::format::Part;
use crate::worth::{Origin, Worth};

/// Why an operation is undefined.
#[derive(Clone, Copy, Debug)]
pub enum Reason {
    /// It uses a value that was never set.
    Unset(Origin),
    /// It needs the cell at this address: the object is dead or has no such cell, or the cell was not set, or not all of its bytes.
    Cell(Worth),
    /// It needs the byte with this number of the words from this address on: the same, or the cell has an address or a procedure.
    Byte(u32, Worth),
    /// It needs an address in a living object, and the object of this one is dead, or ends before it.
    Beyond(Worth),
    /// It needs an address, and this value is none.
    NoAddress(Worth),
    /// It needs a number, and this value is none, or one that does not go with the other operand.
    NoNumber(Worth),
    /// It sets a byte to this value, which is no number.
    NoByte(Worth),
    /// It needs two addresses in one object.
    Apart,
    /// It calls this value, which is no procedure.
    NoProcedure(Worth),
    /// It needs an argument that is missing.
    Argument,
    /// It needs the place of an expression that has none.
    NoPlace,
    /// It needs a constant, and an expression is none.
    NoConstant,
}

/// Why a call of a routine of the library is undefined.
#[derive(Clone, Copy, Debug)]
pub struct Misuse {
    /// The number of the argument, from 1.
    pub argument: usize,
    /// The directive of the format that takes the argument, if one does.
    pub directive: Option<Part>,
    /// What is wrong with it.
    pub reason: Reason,
}

/// What results from an operation on values.
#[derive(Clone, Copy, Debug)]
pub enum Computed {
    /// It gives this value.
    Value(Worth),
    /// It divides by zero, which ends the program.
    DivideByZero,
    /// It is undefined.
    Undefined(Reason),
}
