//! Names and constants of a section: what each name means, the word of each constant, or what is wrong.
#![tactic(auto)]

mod bound;
mod claims;
mod constant;
mod entering;
mod findings;
mod first_fault;
mod fresh;
mod heads;
mod items;
mod laws;
mod name_key;
mod naming;
mod nodes;
mod operands;
mod place;
mod resolving;
mod role;
mod section_names;
mod table;
mod walk;

pub use bound::Bound;
pub use laws::{
    cases_differ, faultless_is_sound, numbers_differ, parts_are_clean, parts_have_stretches,
    sections_are_clean, takes_few_numbers,
};
pub use resolving::{resolve, resolve_keyed, resolve_placed};
pub use section_names::Resolved;
