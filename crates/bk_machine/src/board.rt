//! The store of a machine, with its registers.
ghost use Rattle.std.specs.Prelude.{◌≤◌, vec_len, vec_capacity};

use crate::registers::Registers;

/// A store of a fixed number of words, and the registers. The first words are kept, up to the last that was reached; the others
/// are 0. There is memory for all.
#[derive(Debug, Drop)]
pub struct Board {
    pub kept: Vec<u32>,
    /// How many words the store has.
    pub words: u32,
    pub registers: Registers,
    pub ghost within: { vec_len kept ≤ words },
    pub ghost room: { words ≤ vec_capacity kept },
}
