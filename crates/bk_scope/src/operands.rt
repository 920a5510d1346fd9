//! What the parts of an expression are there for.
ghost use Rattle.std.specs.Prelude.{◌≡◌};
ghost use Rattle.bk_tree.specs.Tree.{expression};
ghost use Rattle.bk_scope.specs.Names.{role_of_operand as RoleOfOperand, role_of_operands as RoleOfOperands, place_of_second as PlaceOfSecond, fit_prefix as FitPrefix, fit_infix as FitInfix};

use crate::findings::Findings;
use crate::naming::{without_address, without_word};
use crate::place::Enclosing;
use crate::role::Role;
use crate::table::Table;
use bk_tree::{Expr, Operator, Prefix};

/// The role of a prefix's operand.
pub fn role_of_operand(prefix: Prefix, role: &Role, operand: &Expr) -> Role
    ensures { result ≡ RoleOfOperand prefix role.now (expression operand.now) }
{
    match (prefix, role) {
        (Prefix::Not, Role::Truth) => Role::Truth,
        (Prefix::Address, _) => Role::Address(false, operand.at()),
        (_, _) => Role::Value,
    }
}

/// The role of an operator's operands.
pub fn role_of_operands(operator: Operator, role: &Role) -> Role
    ensures { result ≡ RoleOfOperands operator role.now }
{
    match (operator, role) {
        (Operator::Both | Operator::Either, Role::Truth) => Role::Truth,
        (_, _) => Role::Value,
    }
}

/// The place of an operator's second operand.
pub fn place_of_second(operator: Operator, role: &Role, place: Enclosing) -> Enclosing
    ensures { result ≡ PlaceOfSecond operator role.now place }
{
    match (operator, role) {
        (Operator::Both | Operator::Either, Role::Truth) => place,
        (_, _) => place.deeper(1),
    }
}

/// What a prefix gives may have no word where one is asked for.
pub fn fit_prefix<'a>(
    table: &Table<'a>,
    findings: &mut Findings,
    prefix: Prefix,
    role: &Role,
    procedure: u32,
    expr: &'a Expr,
)
    ensures { findings.new ≡ FitPrefix prefix role.now table.now procedure (expression expr.now) findings.old }
{
    if !matches!(prefix, Prefix::Contents) {
        without_word(table, findings, role, procedure, expr);
    }
}

/// What an operator gives may have no word where one is asked for.
pub fn fit_infix<'a>(
    table: &Table<'a>,
    findings: &mut Findings,
    operator: Operator,
    role: &Role,
    procedure: u32,
    expr: &'a Expr,
)
    ensures { findings.new ≡ FitInfix operator role.now table.now procedure (expression expr.now) findings.old }
{
    match operator {
        Operator::Subscript => {}
        Operator::Byte => without_address(table, findings, role, procedure, expr),
        _ => without_word(table, findings, role, procedure, expr),
    }
}
