//! INTCODE: texts of segments, printed and read; and again the segments and the machine of `bk_machine`.
#![tactic(auto)]

mod draft;
mod item_word;
mod laws;
mod meaning;
mod printing;
mod reading;
mod words;

pub use bk_machine::{Function, Intcode, Item, LoadFault, Machine, Operand, Registers, Sizes};
pub use laws::{
    no_segment_passed, one_saying, printed_again, printed_are_parted, printed_is_parted, read_again,
};
pub use printing::print;
pub use reading::read_segment;
