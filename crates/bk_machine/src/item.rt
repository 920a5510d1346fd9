//! Items of INTCODE: what one word of a segment's text says.

/// The eight functions of the machine, by their letters L, S, A, J, T, F, K and X.
#[derive(Clone, Copy, Debug, PartialEq, Eq)]
pub enum Function {
    /// L: `B := A; A := D`.
    Load,
    /// S: `!D := A`.
    Store,
    /// A: `A := A + D`.
    Add,
    /// J: `C := D`.
    Jump,
    /// T: `C := D` if A is not 0.
    JumpTrue,
    /// F: `C := D` if A is 0.
    JumpFalse,
    /// K: calls A, with a frame D words above P.
    Call,
    /// X: does operation D.
    Operate,
}

/// The address of an instruction, as it is written.
#[derive(Clone, Copy, Debug, PartialEq, Eq)]
pub enum Operand {
    /// A number.
    Number(i32),
    /// A number from P on.
    Local(i32),
    /// A number from G on.
    Global(i32),
    /// The number of a label, from 1 to `limit::INTCODE_LABEL`.
    Label(u32),
}

/// One item.
#[derive(Clone, Copy, Debug, PartialEq, Eq)]
pub enum Item {
    /// An instruction: if it is indirect, its operand is the word at its address.
    Instruction {
        function: Function,
        indirect: bool,
        operand: Operand,
    },
    /// Sets a label at the next word.
    SetLabel(u32),
    /// A byte. Those that come one after another are packed four a word, byte 0 lowest, and filled with zeros.
    Byte(u8),
    /// A word.
    Word(i32),
    /// A word that holds the number of a label.
    LabelWord(u32),
    /// A global, from 0 to `limit::GLOBAL_NUMBER`, holds the number of a label.
    SetGlobal {
        number: u32,
        label: u32,
    },
    /// The largest depth of the segment's frames in words, from `limit::FRAME_WORDS_LEAST` to `limit::FRAME_WORDS`.
    /// It takes no word.
    Frame(u32),
    /// The end of the segment.
    End,
}
