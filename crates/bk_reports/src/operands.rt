//! The operands of an act: how they are written, their values, and what is wrong with one by itself.

use crate::setting::say_setting;
use crate::values::{Page, callee_name};
use bk_lasting::{GLOBALS_OBJECT, Lasting, Sense};
use bk_objects::{Origin, Routine, Worth};
use bk_tree::Expr;

/// A part of an act: how it is written, and its value.
#[derive(Clone, Copy)]
pub struct Operand<'e> {
    pub expr: Option<&'e Expr>,
    /// What it is called where no expression is at hand; else what is before the expression, as `the limit`.
    pub words: &'e [u8],
    pub value: Worth,
}

/// The expression without parentheses round it.
#[cycle(bare)]
pub fn bare(expr: &Expr) -> &Expr {
    match expr {
        Expr::Parens { inside, .. } => bare(inside),
        _ => expr,
    }
}

/// Adds how an operand is written.
pub fn say_written(page: &mut Page, operand: Operand) {
    page.say(&[operand.words]);
    if let Some(expr) = operand.expr {
        page.say_expr(expr);
    }
}

/// Adds an operand with its value.
pub fn say_operand(page: &mut Page, operand: Operand) {
    page.say(&[operand.words]);
    match operand.expr {
        Some(expr) => page.say_is(expr, operand.value),
        None => {
            page.say(&[b" is "]);
            page.say_value(operand.value);
        }
    }
}

/// Adds that an expression has no value, and why.
pub fn say_no_value(page: &mut Page, operand: Operand, origin: Origin) {
    if let Some(expr) = operand.expr
        && let Expr::Query { .. } = bare(expr)
    {
        page.say(&[b"`?` has no value"]);
        return;
    }
    say_written(page, operand);
    page.say(&[b" has no value: "]);
    page.say_origin(origin);
}

/// Adds that an operand is the address of an object that is gone, and where it got it; of formals, of the one at this offset.
pub fn say_dead(page: &mut Page, operand: Operand, object: u64, offset: u32) {
    page.say_gone(object, offset);
    page.say(&[b", and "]);
    say_written(page, operand);
    page.say(&[b" is its address"]);
    say_setting(page, operand);
}

/// Adds what is wrong with an operand by itself: it was never set, or its object is gone. False says that nothing is.
pub fn say_fault_of(page: &mut Page, operand: Operand) -> bool {
    match operand.value {
        Worth::Unset(origin) => {
            say_no_value(page, operand, origin);
            true
        }
        Worth::Address(offset, object) if page.is_dead(object) => {
            say_dead(page, operand, object, offset);
            true
        }
        _ => false,
    }
}

/// An operand that is an expression.
pub fn written(expr: &Expr, value: Worth) -> Operand<'_> {
    Operand {
        expr: Some(expr),
        words: b"",
        value,
    }
}

/// Whether what is called takes arguments.
fn takes_arguments(program: &[Lasting], callee: Worth) -> bool {
    match callee {
        Worth::Procedure(number) => match program.get(number as usize) {
            Some(Lasting::Code(procedure)) => !procedure.formals.is_empty(),
            _ => false,
        },
        Worth::Routine(routine) => !matches!(routine, Routine::Rdch | Routine::Newline),
        Worth::Number(_) | Worth::Address(_, _) | Worth::Unset(_) => false,
    }
}

/// The name that an operand is, if it is written as one.
pub fn name_of<'e>(operand: Operand<'e>) -> Option<&'e [u8]> {
    match bare(operand.expr?) {
        Expr::Name { letters, .. } => Some(letters.as_slice()),
        _ => None,
    }
}

/// Whether a value may be meant to be called: what it gives is used otherwise.
fn gives(value: Worth) -> bool {
    match value {
        Worth::Procedure(_) => true,
        Worth::Routine(routine) => matches!(routine, Routine::Rdch | Routine::Getbyte),
        Worth::Number(_) | Worth::Address(_, _) | Worth::Unset(_) => false,
    }
}

/// Adds how a procedure is called, where an operand is its name, or the name of what holds it.
pub fn say_uncalled(page: &mut Page, operand: Operand) {
    let name = callee_name(page.program, operand.value);
    match name_of(operand) {
        Some(written) if written == name => {}
        Some(_) if gives(operand.value) && shared(page, operand).is_none() => {}
        _ => return,
    }
    let arguments: &[u8] = if takes_arguments(page.program, operand.value) {
        b"(..)"
    } else {
        b"()"
    };
    page.say(&[b"; `", name, arguments, b"` calls it"]);
}

/// The number of the global that a name means, if it means one.
fn global_of(page: &Page, name: &[u8]) -> Option<u32> {
    match page.names?.sense(name)? {
        Sense::Cell(number, object) if object == GLOBALS_OBJECT => Some(number),
        _ => None,
    }
}

/// Another name of the global that an operand is, and its number, if it has one: perhaps its number is used twice.
fn shared<'a>(page: &Page<'_, 'a>, operand: Operand) -> Option<(u32, &'a [u8])> {
    let name = name_of(operand)?;
    let number = global_of(page, name)?;
    Some((number, page.other_name(name, number)?))
}

/// Adds another name of the global that an operand is, if it has one.
pub fn say_shared(page: &mut Page, operand: Operand) {
    if let Some((number, other)) = shared(page, operand) {
        page.say(&[b"; the global "]);
        page.say_word(number);
        page.say(&[b" is also called ", other]);
    }
}
