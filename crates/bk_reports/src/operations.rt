//! Why an operator has no value of its operands.

use crate::made::{in_procedure, loop_at};
use crate::operands::{
    Operand, bare, name_of, say_fault_of, say_operand, say_shared, say_uncalled,
};
use crate::results::say_call_result;
use crate::rounds::{is_same, say_still_loop};
use crate::setting::{say_hidden, say_setting, say_setting_of, variables_of};
use crate::sought::Search;
use crate::spelling::operator_symbol;
use crate::unset::variable_at;
use crate::values::Page;
use crate::words::{say_byte, say_cell, say_extent};
use bk_objects::{Reason, Worth};
use bk_tree::{Command, Expr, Operator};

/// The operand that is meant to be the address, and the other. Of two numbers it is not the one that is a constant.
fn base_first<'e>(page: &Page, a: Operand<'e>, b: Operand<'e>) -> (Operand<'e>, Operand<'e>) {
    let is_swapped = match (a.value, b.value) {
        (Worth::Number(_), Worth::Address(_, _)) => true,
        (Worth::Number(_), Worth::Number(_)) => match (a.expr, b.expr) {
            (Some(left), Some(right)) => page.is_constant(left) && !page.is_constant(right),
            _ => false,
        },
        _ => false,
    };
    if is_swapped { (b, a) } else { (a, b) }
}

/// Adds that an operand hides a constant, if it is a name that does.
fn say_hidden_of(page: &mut Page, operand: Operand) {
    if let Some(name) = name_of(operand) {
        say_hidden(page, name);
    }
}

/// Adds why `!` or `%` has no use for these operands.
fn say_no_base(page: &mut Page, symbol: &[u8], base: Operand, index: Operand) {
    if say_fault_of(page, base) || say_fault_of(page, index) {
        return;
    }
    if matches!(base.value, Worth::Address(_, _)) {
        say_operand(page, index);
        page.say(&[b", and `", symbol, b"` wants a number after the address"]);
        say_hidden_of(page, base);
        say_hidden_of(page, index);
        return;
    }
    say_operand(page, base);
    page.say(&[b", and `", symbol, b"` wants an address"]);
    if matches!(index.value, Worth::Address(_, _)) {
        page.say(&[b" before it"]);
    }
    say_shared(page, base);
    say_setting(page, base);
}

/// Adds why `!` or `%` between these operands is undefined.
pub fn say_subscript(
    page: &mut Page,
    expr: &Expr,
    operator: Operator,
    operands: (Operand, Operand),
    reason: Reason,
) {
    let (base, index) = match operator {
        Operator::Byte => operands,
        _ => base_first(page, operands.0, operands.1),
    };
    match reason {
        Reason::Cell(Worth::Address(offset, object)) => {
            say_cell(page, expr, Some(base), object, offset);
        }
        Reason::Byte(number, at) => say_byte(page, Some(expr), base, at, number),
        _ => {
            say_no_base(page, operator_symbol(operator), base, index);
            say_other_index(page, index.expr);
            return;
        }
    }
    say_index(page, index);
    say_beside(page);
}

/// Adds the values of the names in an index that is not at fault itself; a name that is a constant says nothing then.
pub fn say_other_index(page: &mut Page, index: Option<&Expr>) {
    if let Some(expr) = index
        && !page.is_constant(expr)
    {
        say_names(page, expr);
    }
}

/// Adds the values of the variables beside an act, in the same command, where they are numbers, and that its loop sets none of its
/// condition.
pub fn say_beside(page: &mut Page) {
    let Some(names) = page.names else {
        return;
    };
    let Search { beside, .. } = in_procedure(names.procedure, page.at, b"");
    for name in beside.each() {
        if let Some(name) = name
            && let Some(Worth::Number(number)) = page.variable(name)
        {
            say_once(page, name, number);
        }
    }
    say_still_loop(page);
}

/// Adds the values of the names in an index.
pub fn say_index(page: &mut Page, index: Operand) {
    let Some(expr) = index.expr else {
        return;
    };
    match (bare(expr), index.value) {
        (Expr::Name { letters, .. }, Worth::Number(number)) => {
            say_once(page, letters, number);
            say_count(page, letters);
            say_setting_of(page, letters, index.value);
        }
        (Expr::Name { .. }, _) => {}
        _ => {
            say_names(page, expr);
            say_only_variable(page, expr, index.value);
            say_call_result(page, expr, Some(index.value));
        }
    }
}

/// Adds where the variable of an index that is an expression got its value, if that has one; of more, where the index is negative, those
/// that are.
fn say_only_variable(page: &mut Page, expr: &Expr, index: Worth) {
    let variables = variables_of(page, expr).each();
    if let [Some(name), None, _, _] = variables {
        say_variable_of(page, name);
        return;
    }
    for name in variables {
        if let Some(name) = name
            && let (Worth::Number(sum), Some(Worth::Number(part))) = (index, page.variable(name))
            && sum.cast_signed() < 0
            && part.cast_signed() < 0
        {
            say_variable_of(page, name);
        }
    }
}

/// Adds where a variable got its value that is a number.
fn say_variable_of(page: &mut Page, name: &[u8]) {
    if let Some(x @ Worth::Number(_)) = page.variable(name) {
        say_count(page, name);
        say_setting_of(page, name, x);
    }
}

/// Whether the variable of a FOR has the value that it begins with, and not that which it ends with.
fn is_first_round(page: &Page, name: &[u8], from: &Expr, to: &Expr) -> bool {
    match (page.variable(name), page.known(from), page.known(to)) {
        (Some(x), Some(first), Some(last)) => is_same(x, first) && !is_same(x, last),
        (Some(x), Some(first), None) => is_same(x, first),
        _ => false,
    }
}

/// Adds how far the FOR goes whose variable has this name; of its first round, from where.
fn say_count(page: &mut Page, name: &[u8]) {
    let Some(at) = variable_at(page, name) else {
        return;
    };
    let Some(Command::For { from, to, .. }) = loop_at(page.program, at) else {
        return;
    };
    let (goes, end): (&[u8], &Expr) = if is_first_round(page, name, from, to) {
        (b" goes from ", from)
    } else {
        (b" goes to ", to)
    };
    if at.line().number() != page.at.line().number() {
        page.say(&[b"; the `FOR` of line "]);
        page.say_number(at.line().number() as usize);
        page.say(&[goes]);
        page.say_expr(end);
    }
    say_names(page, end);
}

/// Adds the value of a name, unless it is there already.
fn say_once(page: &mut Page, name: &[u8], number: u32) {
    let before = page.length();
    page.say(&[b"; ", name, b" is "]);
    page.say_word(number);
    page.drop_twice(before);
}

/// Adds the value of a word of a vector, or of a byte, unless it is there already.
fn say_part(page: &mut Page, expr: &Expr) {
    let spelled = page.spelled(expr);
    if let Some(Worth::Number(number)) = page.known(expr) {
        say_once(page, &spelled, number);
    }
}

/// Adds the values of the names in an expression, and of the words and bytes of vectors, where they are numbers.
#[cycle(names)]
pub fn say_names(page: &mut Page, expr: &Expr) {
    match expr {
        Expr::Name { letters, .. } => {
            if let Some(Worth::Number(number)) = page.value_of(letters) {
                say_once(page, letters, number);
                say_hidden(page, letters);
            }
        }
        Expr::Parens { inside, .. } => say_names(page, inside),
        Expr::Unary { operand, .. } => say_names(page, operand),
        Expr::Binary {
            operator,
            left,
            right,
            ..
        } => {
            if matches!(operator, Operator::Subscript | Operator::Byte) {
                say_part(page, expr);
            }
            say_names(page, left);
            say_names(page, right);
        }
        Expr::Apply { arguments, .. } => say_all_names(page, arguments),
        _ => {}
    }
}

/// The same of expressions.
#[cycle(names)]
fn say_all_names(page: &mut Page, exprs: &[Expr]) {
    for expr in exprs {
        say_names(page, expr);
    }
}

/// Adds the names in an expression that hold no numbers, with their values.
#[cycle(holders)]
fn say_holders(page: &mut Page, expr: &Expr) {
    match expr {
        Expr::Name { letters, .. } => {
            if let Some(x) = page.value_of(letters)
                && !matches!(x, Worth::Number(_) | Worth::Unset(_))
            {
                let before = page.length();
                page.say(&[b"; "]);
                page.say_is(expr, x);
                page.drop_twice(before);
                say_setting_of(page, letters, x);
            }
        }
        Expr::Parens { inside, .. } => say_holders(page, inside),
        Expr::Binary { left, right, .. } => {
            say_holders(page, left);
            say_holders(page, right);
        }
        _ => {}
    }
}

/// Adds where the value of an operand comes from; of a number only where it is beside an operator of order.
fn say_source(page: &mut Page, operator: Operator, operand: Operand) {
    if matches!(operand.value, Worth::Number(_)) && !is_order(operator) {
        return;
    }
    match operand.expr {
        Some(expr @ Expr::Binary { .. }) => say_holders(page, expr),
        _ => say_setting(page, operand),
    }
}

/// Adds two operands that are compared or combined.
fn say_both(page: &mut Page, a: Operand, b: Operand) {
    say_operand(page, a);
    page.say(&[b", and "]);
    say_operand(page, b);
}

/// Adds that an address is outside its object.
pub fn say_beyond(page: &mut Page, operand: Operand) -> bool {
    let Worth::Address(offset, object) = operand.value else {
        return false;
    };
    let size = page.m.store.size(object).unwrap_or(0);
    if offset as usize <= size {
        return false;
    }
    say_operand(page, operand);
    page.say(&[b", which is outside "]);
    page.say_object(object);
    say_extent(page, b"word", size);
    true
}

/// Whether an operator compares two values.
fn compares(operator: Operator) -> bool {
    matches!(
        operator,
        Operator::Equal
            | Operator::Unequal
            | Operator::Less
            | Operator::Greater
            | Operator::AtMost
            | Operator::AtLeast
    )
}

/// Whether an operator compares two values by their order.
fn is_order(operator: Operator) -> bool {
    compares(operator) && !matches!(operator, Operator::Equal | Operator::Unequal)
}

/// Adds why an operator has no value of operands of which each is set and in an object that lives.
fn say_unfit(page: &mut Page, operator: Operator, a: Operand, b: Operand) {
    let symbol = operator_symbol(operator);
    match (a.value, b.value) {
        (Worth::Address(_, _), Worth::Address(_, _)) if compares(operator) => {
            page.say(&[b"`", symbol, b"` of addresses in two objects: "]);
            say_both(page, a, b);
            if page.is_text(a.value) && page.is_text(b.value) {
                page.say(&[b"; strings are compared byte by byte, by a procedure"]);
            }
        }
        (Worth::Address(_, _), Worth::Address(_, _)) if matches!(operator, Operator::Subtract) => {
            page.say(&[b"`-` of addresses in two objects: "]);
            say_both(page, a, b);
        }
        (Worth::Address(_, _), Worth::Address(_, _)) => {
            page.say(&[b"`", symbol, b"` of two addresses: "]);
            say_both(page, a, b);
        }
        (Worth::Number(_), _) => {
            say_operand(page, b);
            say_wants(page, operator, a);
            page.say_character(b.value);
        }
        (_, Worth::Number(_)) => {
            say_operand(page, a);
            say_wants(page, operator, b);
            page.say_character(a.value);
        }
        _ if compares(operator) => {
            say_order(page, symbol);
            say_both(page, a, b);
        }
        _ => {
            page.say(&[b"`", symbol, b"` wants numbers: "]);
            say_both(page, a, b);
        }
    }
}

/// Adds what an operator of order compares.
fn say_order(page: &mut Page, symbol: &[u8]) {
    page.say(&[
        b"`",
        symbol,
        b"` compares two numbers, or two addresses in one object: ",
    ]);
}

/// Adds what an operator wants beside a number.
fn say_wants(page: &mut Page, operator: Operator, number: Operand) {
    let symbol = operator_symbol(operator);
    match operator {
        Operator::Equal | Operator::Unequal => {
            page.say(&[b", and `", symbol, b"` compares it with 0 alone: "]);
            say_operand(page, number);
        }
        Operator::Add => page.say(&[b", and `+` wants numbers, or an address and a number"]),
        Operator::Subtract => page.say(&[
            b", and `-` wants numbers, or an address before a number",
        ]),
        _ if compares(operator) => {
            page.say(&[b", and "]);
            say_order(page, symbol);
            say_operand(page, number);
        }
        _ => page.say(&[b", and `", symbol, b"` wants numbers"]),
    }
}

/// Adds why an operator between these operands is undefined.
pub fn say_operation(page: &mut Page, operator: Operator, a: Operand, b: Operand) {
    if say_fault_of(page, a) || say_fault_of(page, b) {
        return;
    }
    if is_order(operator)
        && is_one(a.value, b.value)
        && (say_beyond(page, a) || say_beyond(page, b))
    {
        return;
    }
    if matches!(operator, Operator::Equal | Operator::Unequal)
        && !is_one(a.value, b.value)
        && is_zero(a.value, b.value)
        && (say_beyond(page, a) || say_beyond(page, b))
    {
        return;
    }
    say_unfit(page, operator, a, b);
    for operand in [a, b] {
        say_shared(page, operand);
        if !are_procedures(a.value, b.value) {
            say_uncalled(page, operand);
        }
        say_source(page, operator, operand);
    }
}

/// Whether two values are procedures, of which neither is perhaps meant to be called.
fn are_procedures(x: Worth, y: Worth) -> bool {
    matches!(x, Worth::Procedure(_)) && matches!(y, Worth::Procedure(_))
}

/// Whether two values are addresses in one object.
fn is_one(x: Worth, y: Worth) -> bool {
    match (x, y) {
        (Worth::Address(_, a), Worth::Address(_, b)) => a == b,
        _ => false,
    }
}

/// Whether one of two values is 0.
fn is_zero(x: Worth, y: Worth) -> bool {
    matches!(x, Worth::Number(0)) || matches!(y, Worth::Number(0))
}
