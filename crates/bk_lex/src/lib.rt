//! From bytes to tokens: the symbols of a section of source, or the one fault that is reported.
#![tactic(auto)]

mod adding;
mod block;
mod counting;
mod cutter;
mod header;
mod laws;
mod lexer;
mod machine;
mod reserved;
mod scan;
mod sign;
mod spans;
mod token;
mod values;

pub use cutter::{Cut, Cutter};
pub use laws::{
    gives_each_section, has_one_section, has_section_without_fault, reserved_by_its_letters,
};
pub use lexer::{Front, Lexer};
pub use scan::{Lexed, LexicalFault, lex, lex_placed};
pub use token::{Kind, Token};
pub use values::{character_byte, number_word, string_bytes};
