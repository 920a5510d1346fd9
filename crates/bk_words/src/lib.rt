//! The words of a text, taken from a device one after another.
#![tactic(auto)]

mod numbers;
mod word_buffer;
mod words;

pub use numbers::{natural, number, within};
pub use word_buffer::{SIZE, WordBuffer};
pub use words::{Gathered, next_word, take_word};
