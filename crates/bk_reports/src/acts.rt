//! Why an act is undefined, in the words of the source.

use crate::made::{arguments_at, loop_at, vector_at};
use crate::misuse::say_library;
use crate::operands::{
    Operand, bare, say_fault_of, say_no_value, say_operand, say_shared, say_uncalled, written,
};
use crate::operations::{
    say_beside, say_beyond, say_index, say_names, say_operation, say_other_index, say_subscript,
};
use crate::results::say_call_result;
use crate::setting::{say_setting, say_setting_of};
use crate::spelling::{add_ordinal, operator_symbol, prefix_symbol};
use crate::unset::{say_by_value, say_no_global, say_unreached};
use crate::values::Page;
use crate::words::{say_byte, say_cell, say_partly};
use bk_base::word;
use bk_check::{Continuation, OnValue, Subject};
use bk_lasting::GLOBALS_OBJECT;
use bk_objects::{Cell, Origin, Reason, Worth};
use bk_tree::{Command, Expr, Name, Operator, Position, Prefix};

/// Adds why the value of a name is undefined.
fn say_name(page: &mut Page, name: &[u8], reason: Reason) {
    let Reason::Cell(Worth::Address(offset, object)) = reason else {
        page.say(&[name, b" is no variable"]);
        return;
    };
    match page.m.store.cell(object, offset) {
        Some(Cell::Places(a, b, c, d)) => {
            page.say(&[name, b" is set only in part: it is a word"]);
            say_partly(page, [a.is_some(), b.is_some(), c.is_some(), d.is_some()]);
        }
        Some(Cell::Holds(Worth::Unset(origin))) => match origin {
            Origin::Argument => say_argument(page, name, object, offset),
            Origin::Never if object == GLOBALS_OBJECT => {
                page.say(&[b"the global ", name, b", "]);
                page.say_word(offset);
                page.say(&[
                    b", was never set: no section defines it, and nothing was assigned to it",
                ]);
                say_no_global(page, name, offset);
            }
            Origin::Query(line) => {
                page.say(&[name, b" was never set: it is the `?` of line "]);
                page.say_number(line as usize);
                say_by_value(page, name);
                say_unreached(page, name, object, line);
            }
            _ => {
                page.say(&[name, b" has no value: "]);
                page.say_origin(origin);
                if let Origin::Library(_) = origin {
                    say_setting_of(page, name, Worth::Unset(origin));
                }
            }
        },
        _ => page.say(&[name, b" is gone"]),
    }
}

/// Adds that a formal has no argument.
fn say_argument(page: &mut Page, name: &[u8], object: u64, offset: u32) {
    if let Some(names) = page.names
        && let Some((formals, arguments)) = names.formals
        && formals == object
    {
        page.say(&[names.procedure.name, b" is called with "]);
        page.say_number(arguments);
        page.say(&[if arguments == 1 {
            b" argument and reads its "
        } else {
            b" arguments and reads its "
        }]);
        add_ordinal(&mut page.text, offset as usize + 1);
        page.say(&[b", ", name]);
        return;
    }
    page.say(&[name, b" has no value: its argument is missing"]);
}

/// A destination with `!` or `%`, or with `!` before one operand.
#[derive(Clone, Copy)]
struct Destination<'e> {
    /// The whole.
    expr: &'e Expr,
    symbol: &'e [u8],
    /// What is meant to be the address.
    base: &'e Expr,
    /// The other operand, if there is one.
    index: Option<&'e Expr>,
}

/// A destination with two operands. Of `!` either may be the address: the one that is, and not the one that is a constant.
fn with_two<'e>(
    page: &Page,
    expr: &'e Expr,
    operator: Operator,
    left: &'e Expr,
    right: &'e Expr,
) -> Destination<'e> {
    let is_swapped = matches!(operator, Operator::Subscript)
        && (is_known_address(page, right) && !is_known_address(page, left)
            || page.is_constant(left) && !page.is_constant(right));
    let (base, index) = if is_swapped {
        (right, left)
    } else {
        (left, right)
    };
    Destination {
        expr,
        symbol: operator_symbol(operator),
        base,
        index: Some(index),
    }
}

/// Whether the value of an expression is known, and an address.
fn is_known_address(page: &Page, expr: &Expr) -> bool {
    matches!(page.known(expr), Some(Worth::Address(_, _)))
}

/// A part of a destination, if its value is known and an address in this object.
fn known_in<'e>(page: &Page, expr: &'e Expr, object: u64) -> Option<Operand<'e>> {
    let value = page.known(expr)?;
    match value {
        Worth::Address(_, o) if o == object => Some(written(expr, value)),
        _ => None,
    }
}

/// The value of what is meant to be the address of a destination, of which the place is no address but this; where it is a sum, a
/// part of it has to be known.
fn base_value(page: &Page, destination: Destination, place: Worth) -> Option<Worth> {
    let Some(index) = destination.index else {
        return Some(place);
    };
    if destination.symbol == b"%".as_slice() {
        return Some(place);
    }
    if let Some(value) = page.known(destination.base) {
        return Some(value);
    }
    match (place, page.known(index)) {
        (Worth::Number(sum), Some(Worth::Number(part))) => {
            Some(Worth::Number(word::difference(sum, part)))
        }
        _ => None,
    }
}

/// Adds that the place of a destination is no address.
fn say_no_place(page: &mut Page, destination: Destination, place: Worth) {
    match base_value(page, destination, place) {
        Some(value) => {
            let operand = written(destination.base, value);
            if say_fault_of(page, operand) {
                return;
            }
            say_operand(page, operand);
            page.say(&[b", and `", destination.symbol, b"` wants an address"]);
            say_shared(page, operand);
            say_setting(page, operand);
        }
        None => {
            page.say(&[b"the operands of "]);
            page.say_expr(destination.expr);
            page.say(&[b" are numbers, whose sum is "]);
            page.say_value(place);
            page.say(&[b", and `", destination.symbol, b"` wants an address"]);
        }
    }
}

/// Adds that the number of a byte is no number.
fn say_no_byte_number(page: &mut Page, destination: Destination, x: Worth) {
    let index = written(destination.index.unwrap_or(destination.base), x);
    if say_fault_of(page, index) {
        return;
    }
    say_operand(page, index);
    page.say(&[b", and the number of a byte is wanted"]);
    if matches!(x, Worth::Address(_, _)) {
        page.say(&[b" after `%`; the address is before it"]);
    }
}

/// Adds the values of the names in an index.
fn say_known_index(page: &mut Page, index: &Expr) {
    match page.known(index) {
        Some(value) => say_index(page, written(index, value)),
        None => {
            say_names(page, index);
            say_call_result(page, index, None);
        }
    }
}

/// Adds why a destination is undefined.
fn say_destination(page: &mut Page, destination: Destination, reason: Reason) {
    let Destination { expr, base, .. } = destination;
    match reason {
        Reason::Cell(Worth::Address(offset, object)) => {
            let base = known_in(page, base, object);
            say_cell(page, expr, base, object, offset);
        }
        Reason::Byte(number, at) => say_byte(page, Some(expr), written(base, at), at, number),
        Reason::NoAddress(place) => say_no_place(page, destination, place),
        Reason::NoNumber(x) => say_no_byte_number(page, destination, x),
        Reason::NoByte(x) => {
            page.say_expr(expr);
            page.say(&[b" is set from a number, and the value is "]);
            if matches!(x, Worth::Address(_, _)) && !page.is_text(x) {
                page.say(&[b"the address "]);
            }
            page.say_value(x);
            page.say_character(x);
        }
        _ => page.say(&[b"what has no place"]),
    }
    match reason {
        Reason::Cell(_) | Reason::Byte(_, _) => {
            if let Some(index) = destination.index {
                say_known_index(page, index);
            }
            say_beside(page);
        }
        _ => say_other_index(page, destination.index),
    }
}

/// Adds why the value or the place of an expression is undefined.
fn say_expr(page: &mut Page, expr: &Expr, reason: Reason) {
    match bare(expr) {
        Expr::Name { letters, .. } => say_name(page, letters, reason),
        Expr::Unary {
            prefix: Prefix::Contents,
            operand,
            ..
        } => {
            let destination = Destination {
                expr,
                symbol: b"!",
                base: operand,
                index: None,
            };
            say_destination(page, destination, reason);
        }
        Expr::Binary {
            operator,
            left,
            right,
            ..
        } if matches!(operator, Operator::Subscript | Operator::Byte) => say_destination(
            page,
            with_two(page, expr, *operator, left, right),
            reason,
        ),
        _ => {
            page.say_expr(expr);
            match reason {
                Reason::NoConstant => page.say(&[b" is no constant"]),
                _ => page.say(&[b" has no place"]),
            }
        }
    }
}

/// Adds why a prefix before this value is undefined.
fn say_prefix(page: &mut Page, expr: &Expr, x: Worth, reason: Reason) {
    let Expr::Unary {
        prefix,
        operand,
        ..
    } = bare(expr)
    else {
        return;
    };
    let base = written(operand, x);
    if let Reason::Cell(Worth::Address(offset, object)) = reason {
        say_cell(page, expr, Some(base), object, offset);
        return;
    }
    if say_fault_of(page, base) {
        return;
    }
    say_operand(page, base);
    let wanted: &[u8] = match prefix {
        Prefix::Contents => b"` wants an address",
        _ => b"` wants a number",
    };
    let symbol = prefix_symbol(*prefix).trim_ascii();
    page.say(&[b", and `", symbol, wanted]);
    say_shared(page, base);
    if !matches!(prefix, Prefix::Contents) {
        say_uncalled(page, base);
    }
    say_setting(page, base);
}

/// Adds why an operator is undefined.
fn say_infix(page: &mut Page, expr: &Expr, x: Worth, y: Worth, reason: Reason) {
    let Expr::Binary {
        operator,
        left,
        right,
        ..
    } = bare(expr)
    else {
        return;
    };
    let a = written(left, x);
    let b = written(right, y);
    match operator {
        Operator::Subscript | Operator::Byte => say_subscript(
            page,
            expr,
            *operator,
            (a, b),
            reason,
        ),
        _ => say_operation(page, *operator, a, b),
    }
}

/// Adds why a condition has no truth.
fn say_condition(page: &mut Page, expr: &Expr, reason: Reason) {
    match reason {
        Reason::Unset(origin) => {
            page.say(&[b"the condition "]);
            say_no_value(page, written(expr, Worth::Unset(origin)), origin);
        }
        Reason::Beyond(x) => {
            let operand = written(expr, x);
            if say_fault_of(page, operand) || say_beyond(page, operand) {
                return;
            }
            say_operand(page, operand);
        }
        _ => page.say_expr(expr),
    }
}

/// Adds why SWITCHON has no number.
fn say_switch(page: &mut Page, expr: &Expr, reason: Reason) {
    let value = match reason {
        Reason::Unset(origin) => Worth::Unset(origin),
        Reason::NoNumber(x) => x,
        _ => {
            page.say_expr(expr);
            return;
        }
    };
    if say_fault_of(page, written(expr, value)) {
        return;
    }
    say_operand(page, written(expr, value));
    page.say(&[b", and `SWITCHON` wants a number"]);
    page.say_character(value);
    say_uncalled(page, written(expr, value));
    say_setting(page, written(expr, value));
}

/// The limit of a FOR, and what compares its variable with the limit.
fn limit_of<'e>(found: Option<&'e Command>, value: Worth) -> (Operand<'e>, Operator) {
    let Some(Command::For { to, by, .. }) = found else {
        let limit = Operand {
            expr: None,
            words: b"the limit",
            value,
        };
        return (limit, Operator::AtMost);
    };
    let limit = Operand {
        expr: Some(to),
        words: b"the limit ",
        value,
    };
    let operator = if is_negative(by) {
        Operator::AtLeast
    } else {
        Operator::AtMost
    };
    (limit, operator)
}

/// Whether the step of a FOR is written with a `-`.
fn is_negative(by: &Option<Box<Expr>>) -> bool {
    match by {
        Some(step) => matches!(
            bare(step),
            Expr::Unary {
                prefix: Prefix::Minus,
                ..
            }
        ),
        None => false,
    }
}

/// Adds why the test or the step of a FOR is undefined.
fn say_for(page: &mut Page, name: &Name, object: u64, limit: Worth, reason: Reason) {
    match page.m.store.cell(object, 0) {
        Some(Cell::Holds(x)) if !matches!(x, Worth::Unset(_)) => {
            let variable = Operand {
                expr: None,
                words: &name.letters,
                value: x,
            };
            let (last, operator) = limit_of(loop_at(page.program, name.at), limit);
            page.say(&[b"`FOR`: "]);
            say_operation(page, operator, variable, last);
        }
        _ => say_name(page, &name.letters, reason),
    }
}

/// Adds an operand of `!` or `%`, in parentheses where it is an operation.
fn say_whole(page: &mut Page, expr: &Expr) {
    match expr {
        Expr::Name { .. } | Expr::Number { .. } | Expr::Parens { .. } | Expr::Apply { .. } => {
            page.say_expr(expr);
        }
        _ => {
            page.say(&[b"("]);
            page.say_expr(expr);
            page.say(&[b")"]);
        }
    }
}

/// Adds that something is called that is no procedure.
fn say_call(page: &mut Page, at: Position, callee: &Expr, reason: Reason) {
    let Reason::NoProcedure(x) = reason else {
        page.say_expr(callee);
        return;
    };
    if say_fault_of(page, written(callee, x)) {
        return;
    }
    say_operand(page, written(callee, x));
    page.say(&[b", and no procedure: it is called"]);
    if let Some(vector) = vector_at(page.program, at) {
        page.say(&[b"; `("]);
        page.say_expr(vector);
        page.say(&[b"!"]);
        page.say_expr(callee);
        page.say(&[b")(..)` calls a word of the vector"]);
    }
    if let Worth::Address(_, _) = x
        && let Some([index]) = arguments_at(page.program, at)
    {
        page.say(&[b"; `"]);
        page.say_expr(callee);
        page.say(&[if page.is_text(x) { b"%" } else { b"!" }]);
        say_whole(page, index);
        page.say(&[if page.is_text(x) {
            b"` is a byte of it"
        } else {
            b"` is a word of it"
        }]);
    }
    say_shared(page, written(callee, x));
    say_setting(page, written(callee, x));
}

/// What the first operand of `&` or `|` is as a condition, if it decides.
fn decided(operator: Operator, first: u32) -> Option<&'static [u8]> {
    match operator {
        Operator::Both if first == word::truth_of(false) => Some(b"FALSE"),
        Operator::Either if first == word::truth_of(true) => Some(b"TRUE"),
        _ => None,
    }
}

/// Adds that `&` or `|` evaluates both operands where it is no condition, if the act is in the second and the first decides.
pub fn say_both(page: &mut Page) {
    for frame in page.m.frames.iter().rev() {
        match frame {
            Continuation::Value(OnValue::Right(expr, operator, Worth::Number(first))) => {
                if let Expr::Binary { left, .. } = bare(expr)
                    && let Some(truth) = decided(*operator, *first)
                {
                    page.say(&[b"; `"]);
                    page.say_expr(left);
                    page.say(&[b"` is ", truth, b", but `", operator_symbol(*operator)]);
                    page.say(&[b"` evaluates both operands where it is no condition"]);
                }
            }
            Continuation::Value(_) | Continuation::Truth(_) | Continuation::Target(_) => {}
            _ => return,
        }
    }
}

/// Adds why an act is undefined.
pub fn say_act(page: &mut Page, subject: &Subject, reason: Reason) {
    match subject {
        Subject::Expr(expr) => say_expr(page, expr, reason),
        Subject::Prefixed(expr, x) => say_prefix(page, expr, *x, reason),
        Subject::Operation(expr, x, y) => say_infix(page, expr, *x, *y, reason),
        Subject::Condition(expr) => say_condition(page, expr, reason),
        Subject::Switch(expr) => say_switch(page, expr, reason),
        Subject::Variable(name, object, limit) => {
            say_for(page, name, *object, *limit, reason);
        }
        Subject::Call(at, callee) => say_call(page, *at, callee, reason),
        Subject::Library(at, routine, argument, directive) => {
            say_library(page, *at, *routine, *argument, *directive, reason);
        }
        Subject::Nothing(_) => page.say(&[b"a part is left that nothing goes on after"]),
    }
}

/// Adds the values with which a division by zero is done.
pub fn say_division(page: &mut Page, subject: &Subject) {
    page.say(&[b"division by zero"]);
    if let Subject::Operation(expr, _, y) = subject
        && let Expr::Binary { right, .. } = bare(expr)
        && !matches!(bare(right), Expr::Number { .. })
    {
        page.say(&[b": "]);
        page.say_is(right, *y);
        if !matches!(bare(right), Expr::Name { .. }) {
            say_names(page, right);
            say_call_result(page, right, Some(*y));
            return;
        }
        say_setting(page, written(right, *y));
    }
}
