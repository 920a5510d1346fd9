//! What a program has for its whole run.

use crate::env::Env;
use bk_tree::{Command, Expr, Name};

/// The body of a procedure.
#[derive(Clone, Copy)]
pub enum Body<'a> {
    /// With `BE`: a command.
    Command(&'a Command),
    /// With `=`: an expression.
    Value(&'a Expr),
}

/// A procedure.
#[derive(Drop)]
pub struct Procedure<'a> {
    /// Its name.
    pub name: &'a [u8],
    /// Its formals.
    pub formals: &'a [Name],
    /// Its body.
    pub body: Body<'a>,
    /// What names mean in it, other than its formals.
    pub env: Env<'a>,
    /// The number of the global that it sets, if it sets one.
    pub global: Option<u32>,
}

/// An object that lasts.
#[derive(Drop)]
pub enum Lasting<'a> {
    /// The global vector.
    Globals,
    /// The words of a string or of a table, or a static word.
    Words(Vec<u32>),
    /// A procedure.
    Code(Procedure<'a>),
}
