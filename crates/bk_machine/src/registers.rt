//! The registers of the machine.

/// The registers: C is the next word, P the frame, A and B the operands.
#[derive(Clone, Copy, Debug, PartialEq, Eq)]
pub struct Registers {
    pub c: u32,
    pub p: u32,
    pub a: u32,
    pub b: u32,
}
