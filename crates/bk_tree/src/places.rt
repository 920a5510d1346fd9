//! Where the nodes of a tree begin.
ghost use Rattle.std.specs.Prelude.{◌≡◌, map};
ghost use Rattle.bk_tree.specs.Tree.{expression, expressions_in, command_in, mention};
ghost use Rattle.bk_tree.specs.Parts.{at_expression, at_expressions, at_names, at_command};

use crate::position::Position;
use crate::tree::{Command, Expr, Name};

impl Expr {
    /// The position of its first symbol.
    pub fn at(&self) -> Position
        ensures { result ≡ at_expression (expression self.now) }
    {
        match self {
            Expr::Name { at, .. }
            | Expr::Number { at, .. }
            | Expr::Text { at, .. }
            | Expr::Truth { at, .. }
            | Expr::Query { at }
            | Expr::Parens { at, .. }
            | Expr::Unary { at, .. }
            | Expr::Binary { at, .. }
            | Expr::Choice { at, .. }
            | Expr::Apply { at, .. }
            | Expr::Valof { at, .. }
            | Expr::Table { at, .. } => *at,
        }
    }
}

impl Command {
    /// The position of its first symbol. An empty command has none; its position is the first line, without a place.
    pub fn at(&self) -> Position
        ensures { result ≡ at_command (command_in self.now) }
    {
        match self {
            Command::Empty => Position::first(),
            Command::Assign { at, .. }
            | Command::Call { at, .. }
            | Command::Goto { at, .. }
            | Command::Label { at, .. }
            | Command::Case { at, .. }
            | Command::Default { at, .. }
            | Command::If { at, .. }
            | Command::Test { at, .. }
            | Command::While { at, .. }
            | Command::For { at, .. }
            | Command::SwitchOn { at, .. }
            | Command::ResultIs { at, .. }
            | Command::Simple { at, .. }
            | Command::Block { at, .. }
            | Command::Repeat { at, .. }
            | Command::RepeatWhile { at, .. } => *at,
        }
    }
}

/// The position of the first of these; the first line, without a place, if there are none.
pub fn at_expressions(exprs: &[Expr]) -> Position
    ensures { result ≡ at_expressions (expressions_in exprs.now) }
{
    match exprs {
        [] => Position::first(),
        [first, ..] => first.at(),
    }
}

/// The position of the first of these; the first line, without a place, if there are none.
pub fn at_names(names: &[Name]) -> Position
    ensures { result ≡ at_names (map mention names.now) }
{
    match names {
        [] => Position::first(),
        [first, ..] => first.at,
    }
}
