//! The sizes of parts, in 32 bits each: the greatest number means itself or any larger one.
ghost use Rattle.std.specs.Prelude.{◌≡◌, ◌+◌, ◌-◌, max};
ghost use Rattle.bk_tree.specs.Tree.{expression, expressions_in, items_in};
ghost use Rattle.bk_frames.specs.Sizes.{kept, form_of, owed, are_no_items, due_items, both_of, node_of, are_none};

use crate::frame::Size;
use bk_tree::{ConstItem, Expr};

/// No part.
pub const NOTHING: Size = Size { depth: 0, nodes: 0 };

/// One leaf.
pub const LEAF: Size = Size { depth: 1, nodes: 1 };

/// What an expression at the start of a command is, since that says what the command has more than it.
#[derive(Clone, Copy, Debug, PartialEq, Eq)]
pub enum Form {
    /// A name, which may be a label.
    Label,
    /// A call, which is a command.
    Call,
    /// Another operand that may be called.
    Callable,
    /// Any other, which can only be a destination.
    Other,
}

/// The form of an expression.
pub fn form_of(expr: &Expr) -> Form
    ensures { result ≡ form_of (expression expr.now) }
{
    match expr {
        Expr::Name { .. } => Form::Label,
        Expr::Apply { .. } => Form::Call,
        Expr::Number { .. }
        | Expr::Text { .. }
        | Expr::Truth { .. }
        | Expr::Query { .. }
        | Expr::Parens { .. }
        | Expr::Valof { .. } => Form::Callable,
        _ => Form::Other,
    }
}

/// The sum, at most 4294967295.
pub fn plus(a: u32, b: u32) -> u32
    ensures { result ≡ kept (a + b) }
{
    a.saturating_add(b)
}

/// The greater one.
pub fn max(a: u32, b: u32) -> u32
    ensures { result ≡ max a b }
{
    if a < b { b } else { a }
}

/// How many parts a list of `all` owes after these.
pub fn rest(all: usize, done: usize) -> u32
    ensures { result ≡ kept (all - done) }
{
    let rest = all.saturating_sub(done);
    if rest < 0xFFFF_FFFF {
        rest as u32
    } else {
        0xFFFF_FFFF
    }
}

/// How many it owes after these and the one that is read.
pub fn owed(all: usize, done: usize) -> u32
    ensures { result ≡ kept (owed all done) }
{
    let rest = all.saturating_sub(done).saturating_sub(1);
    if rest < 0xFFFF_FFFF {
        rest as u32
    } else {
        0xFFFF_FFFF
    }
}

/// Whether there are no items.

pub fn are_no_items(items: &[ConstItem]) -> bool
    ensures { result ≡ are_no_items (items_in items.now) }
{
    match items {
        [] => true,
        _ => false,
    }
}

/// The depth and the nodes of the item that is due where none came.
pub fn due_items(items: &[ConstItem]) -> u32
    ensures { result ≡ due_items (items_in items.now) }
{
    if are_no_items(items) { 2 } else { 0 }
}

/// The size of a node with these parts.
pub fn of_node(parts: Size) -> Size
    ensures { result ≡ node_of parts }
{
    Size {
        depth: plus(parts.depth, 1),
        nodes: plus(parts.nodes, 1),
    }
}

/// The size of parts side by side.
pub fn both(a: Size, b: Size) -> Size
    ensures { result ≡ both_of a b }
{
    Size {
        depth: max(a.depth, b.depth),
        nodes: plus(a.nodes, b.nodes),
    }
}

/// Whether there are no expressions.

pub fn are_none(exprs: &[Expr]) -> bool
    ensures { result ≡ are_none (expressions_in exprs.now) }
{
    match exprs {
        [] => true,
        _ => false,
    }
}
