//! Statements of OCODE.
use crate::byte_string::ByteString;
use crate::case_list::CaseList;
use crate::global_list::GlobalList;

/// A word that a statement names.
#[derive(Clone, Copy, Debug, PartialEq, Eq)]
pub enum Variable {
    /// The word of the frame at this slot, from 2 on.
    Local(u32),
    /// The global of this number, from 0 to `limit::GLOBAL_NUMBER`.
    Global(u32),
    /// The word of data after this label.
    Static(u32),
}

/// What is done with one item.
#[derive(Clone, Copy, Debug, PartialEq, Eq)]
pub enum Monadic {
    /// RV: the word at this address.
    Contents,
    /// NEG.
    Negate,
    /// NOT, on all bits.
    Not,
}

/// What is done with two items, the second from the top on the left.
#[derive(Clone, Copy, Debug, PartialEq, Eq)]
pub enum Dyadic {
    /// MULT.
    Multiply,
    /// DIV.
    Divide,
    /// REM.
    Remainder,
    /// PLUS.
    Add,
    /// MINUS.
    Subtract,
    /// EQ.
    Equal,
    /// NE.
    Unequal,
    /// LS: less.
    Less,
    /// GR: greater.
    Greater,
    /// LE.
    AtMost,
    /// GE.
    AtLeast,
    /// LSHIFT.
    ShiftLeft,
    /// RSHIFT.
    ShiftRight,
    /// LOGAND.
    And,
    /// LOGOR.
    Or,
    /// EQV.
    Eqv,
    /// NEQV.
    Neqv,
}

/// A case of a switch.
#[derive(Clone, Copy, Debug, PartialEq, Eq)]
pub struct Case {
    /// The value that is met.
    pub value: i32,
    /// The label to which the switch jumps then.
    pub label: u32,
}

/// A global that holds an entry.
#[derive(Clone, Copy, Debug, PartialEq, Eq)]
pub struct GlobalEntry {
    /// The global, from 0 to `limit::GLOBAL_NUMBER`.
    pub number: u32,
    /// The label of the entry.
    pub label: u32,
}

/// One statement. Labels go from 1 to `limit::OCODE_LABEL`; slots and depths are counted in words from the frame on.
///
/// An item is a word on top of the frame; the depth is the number of words of the frame that are in use.
#[derive(Debug, Drop)]
pub enum Stmt {
    /// LN: pushes a number.
    Number { value: i32 },
    /// TRUE: pushes -1.
    True,
    /// FALSE: pushes 0.
    False,
    /// QUERY: pushes an unset word.
    Query,
    /// LP, LG, LL: pushes a word.
    Load { from: Variable },
    /// LLP, LLG, LLL: pushes the address of a word.
    Address { of: Variable },
    /// LSTR: pushes the address of a string.
    Text { bytes: ByteString },
    /// RV, NEG, NOT: on the top item.
    Monadic { operator: Monadic },
    /// MULT to NEQV: on the two top items.
    Dyadic { operator: Dyadic },
    /// GETBYTE: a byte of the words at the second item; the index is on top.
    LoadByte,
    /// SP, SG, SL: stores the top item.
    Assign { to: Variable },
    /// STIND: stores the second item at the address on top.
    AssignAt,
    /// PUTBYTE: sets a byte to the third item; the address is the second and the index on top.
    AssignByte,
    /// JUMP.
    Jump { label: u32 },
    /// JT, JF: takes the top item, and jumps if its truth is this.
    JumpIf { truth: bool, label: u32 },
    /// LAB: sets a label.
    Label { label: u32 },
    /// RES: takes the top item as the result, and jumps to where a RSTACK takes it up.
    GiveResult { label: u32 },
    /// RSTACK: makes the depth this, and pushes the result.
    TakeResult { depth: u32 },
    /// STACK: makes the depth this; new words are unset.
    Stack { depth: u32 },
    /// STORE: all items are in their words.
    Store,
    /// ENTRY: a procedure and its name.
    Entry { label: u32, name: ByteString },
    /// SAVE: the first depth of a procedure: 2 and its formals.
    Save { depth: u32 },
    /// FNAP: calls the top item, with a new frame at this slot, and pushes what it gives.
    CallFunction { frame: u32 },
    /// RTAP: calls the top item, with a new frame at this slot.
    CallRoutine { frame: u32 },
    /// FNRN: returns with the top item.
    ReturnItem,
    /// RTRN: returns.
    Return,
    /// ENDPROC: the end of a procedure.
    EndProcedure,
    /// SWITCHON: takes the top item, and jumps to the label of the case that it meets, or to the default.
    Switch { default: u32, cases: CaseList },
    /// FINISH: ends the run with 0.
    Finish,
    /// DATALAB: sets a label in data.
    DataLabel { label: u32 },
    /// ITEMN: a word of data.
    DataNumber { value: i32 },
    /// ITEML: a word of data that holds what a label means.
    DataAddress { label: u32 },
    /// GLOBAL: globals hold entries; the end of the section.
    Globals { entries: GlobalList },
}
