//! What a program has for its whole run: its strings, tables, static words and procedures.
#![tactic(auto)]

mod counting;
mod env;
mod memory;
mod operators;
mod program;
mod scopes;
mod sections;
mod text;
mod walk;

pub use counting::{
    count, count_command, count_commands, count_decl, count_decls, count_def, count_defs,
    count_each, count_starts,
};
pub use env::{Env, GLOBALS_OBJECT, Node, Sense};
pub use memory::first_memory;
pub use program::{Body, Lasting, Procedure};
pub use scopes::{
    all_declared, constant, constants, declared, global_named, hide, in_block, in_for, in_scope,
    inside, labelled, past, past_command, past_def, past_each, within_let,
};
pub use sections::program_of;
