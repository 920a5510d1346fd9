//! INTCODE: items, segments, the loader, and the machine that executes them.
#![tactic(auto)]

mod board;
mod extent;
mod item;
mod keeping;
mod labels;
mod laws;
mod library;
mod load_fault;
mod loader;
mod machine;
mod operation;
mod output;
mod packing;
mod put_output;
mod registers;
mod run;
mod segment;
mod step;
mod store;

pub use item::{Function, Item, Operand};
pub use laws::{
    format_is_of_parts, items_are_joined, labels_lie_within, labels_stand_at_their_items,
    loaded_store_holds, runs_depend_on_what_they_read, runs_in_shorter_stores, runs_keep_length,
    runs_read_the_front, runs_that_leave_input, segments_lie_apart, segments_lie_in_order,
    sizes_are_added, sizes_ignore_labels, words_of_bytes, words_of_item,
};
pub use load_fault::LoadFault;
pub use machine::{Machine, Sizes};
pub use registers::Registers;
pub use segment::Intcode;
