//! Constants: their words, and what is wrong with them first.
ghost use Rattle.std.specs.Prelude.{◌≡◌, Some, None, cond, OnOk, IfOk};
ghost use Rattle.std.specs.Option.{option_and_then};
ghost use Rattle.bk_tree.specs.Tree.{expression};
ghost use Rattle.bk_tree.specs.declared.tree.Operator.TheVariants.{Over, Rem};
ghost use Rattle.bk_scope.specs.Constants.{named_word, prefix_word, infix_word, constant_word, is_prefix_of_constants as of_constants, is_infix_of_constants as between_constants, divides as is_division, divides_by_zero, wrong_name, wrongs};
ghost use Rattle.bk_scope.specs.Wrong.{not_constant, divided_by_zero};
ghost use Rattle.bk_scope.specs.FirstFault.{first_fault};
ghost use Rattle.bk_scope.specs.Found.{first_of, else_first};

use crate::bound::Bound;
use crate::first_fault::{FirstFault, Misnaming};
use crate::table::Table;
use bk_base::{SourceKind, word};
use bk_tree::{Expr, Operator, Position, Prefix};
use std::alloc::{AllocError, Global};

/// The word of an expression where a constant is asked for, with these declarations in scope, in the procedure of this number.
/// What is wrong with it is reported; a name whose own constant is wrong has no word, and is not wrong itself.
pub fn constant_of<'a>(
    alloc: Global,
    expr: &'a Expr,
    table: &Table<'a>,
    procedure: u32,
    first: &mut FirstFault,
) -> Result<Option<u32>, AllocError>
    ensures word { IfOk result (λ word. word ≡ constant_word table.now (expression expr.now)) }
    ensures wrong { OnOk result (first_fault first.new ≡ else_first (first_fault first.old) (first_of (wrongs table.now procedure (expression expr.now)))) }
{
    match expr {
        Expr::Name { at, letters } => named(
            alloc,
            *at,
            letters,
            table.find(letters),
            procedure,
            first,
        ),
        Expr::Number { word: number, .. } => Ok(Some(*number)),
        Expr::Truth { truth, .. } => Ok(Some(word::truth_of(*truth))),
        Expr::Parens { inside, .. } => constant_of(alloc, inside, table, procedure, first),
        Expr::Unary {
            at,
            prefix,
            operand,
        } => {
            if is_prefix_of_constants(*prefix) {
                let word = constant_of(alloc, operand, table, procedure, first)?;
                Ok(prefixed(*prefix, word))
            } else {
                Ok(no_constant(*at, first))
            }
        }
        Expr::Binary {
            at,
            operator,
            sign,
            left,
            right,
        } => {
            let x = constant_of(alloc, left, table, procedure, first)?;
            if is_infix_of_constants(*operator) {
                let y = constant_of(alloc, right, table, procedure, first)?;
                Ok(infixed(*at, *operator, x, y, first))
            } else {
                Ok(no_constant(*sign, first))
            }
        }
        Expr::Choice {
            sign,
            condition: operand,
            ..
        }
        | Expr::Apply {
            sign,
            callee: operand,
            ..
        } => {
            let _word = constant_of(alloc, operand, table, procedure, first)?;
            Ok(no_constant(*sign, first))
        }
        Expr::Text { at, .. }
        | Expr::Query { at }
        | Expr::Valof { at, .. }
        | Expr::Table { at, .. } => { Ok(no_constant(*at, first)) }
    }
}

/// Reports that at this position is what no constant holds.
fn no_constant(at: Position, first: &mut FirstFault) -> Option<u32>
    ensures word { result ≡ None }
    ensures wrong { first_fault first.new ≡ else_first (first_fault first.old) (Some (record { at = at; wrong = not_constant })) }
{
    first.record_first(at, SourceKind::NotConstant);
    None
}

/// The word of a name that means this.
fn named(
    alloc: Global,
    at: Position,
    letters: &[u8],
    bound: Option<Bound>,
    procedure: u32,
    first: &mut FirstFault,
) -> Result<Option<u32>, AllocError>
    ensures word { IfOk result (λ word. word ≡ named_word bound) }
    ensures wrong { OnOk result (first_fault first.new ≡ else_first (first_fault first.old) (first_of (wrong_name procedure at letters.now bound))) }
{
    match bound {
        None => {
            first.record_name(alloc, at, Misnaming::NotDeclared, letters)?;
            Ok(None)
        }
        Some(Bound::Constant(word)) => Ok(word),
        Some(Bound::Variable(owner, _)) => {
            if owner == procedure {
                Ok(no_constant(at, first))
            } else {
                first.record_name(alloc, at, Misnaming::Dynamic, letters)?;
                Ok(None)
            }
        }
        Some(_) => Ok(no_constant(at, first)),
    }
}

/// Whether constants hold this prefix.
fn is_prefix_of_constants(prefix: Prefix) -> bool
    ensures { result ≡ of_constants prefix }
{
    !matches!(prefix, Prefix::Contents | Prefix::Address)
}

/// Whether constants hold this operator.
fn is_infix_of_constants(operator: Operator) -> bool
    ensures { result ≡ between_constants operator }
{
    !matches!(operator, Operator::Subscript | Operator::Byte)
}

/// The word with a prefix.
pub(crate) fn prefixed(prefix: Prefix, word: Option<u32>) -> Option<u32>
    ensures { result ≡ option_and_then (prefix_word prefix) word }
{
    let word = word?;
    match prefix {
        Prefix::Contents | Prefix::Address => None,
        Prefix::Plus => Some(word),
        Prefix::Minus => Some(word::negation(word)),
        Prefix::Not => Some(word::bitwise_not(word)),
    }
}

/// The word of an operator between two words; that it divides by zero is reported at this position.
fn infixed(
    at: Position,
    operator: Operator,
    left: Option<u32>,
    right: Option<u32>,
    first: &mut FirstFault,
) -> Option<u32>
    ensures word { result ≡ option_and_then (λ x. option_and_then (infix_word operator x) right) left }
    ensures wrong { first_fault first.new ≡ cond (divides_by_zero operator left right)
        (else_first (first_fault first.old) (Some (record { at = at; wrong = divided_by_zero }))) (first_fault first.old) }
{
    let x = left?;
    let y = right?;
    if divides(operator) && y == 0 {
        first.record_first(at, SourceKind::ConstantDividedByZero);
    }
    calculated(operator, x, y)
}

/// The word of an operator between two words. A division by zero has none.
pub(crate) fn calculated(operator: Operator, x: u32, y: u32) -> Option<u32>
    ensures { result ≡ infix_word operator x y }
{
    match operator {
        Operator::Subscript | Operator::Byte => None,
        Operator::Times => Some(word::product(x, y)),
        Operator::Over => divided(x, y),
        Operator::Rem => remains(x, y),
        Operator::Add => Some(word::sum(x, y)),
        Operator::Subtract => Some(word::difference(x, y)),
        Operator::Equal => Some(word::equal(x, y)),
        Operator::Unequal => Some(word::unequal(x, y)),
        Operator::Less => Some(word::less(x, y)),
        Operator::Greater => Some(word::greater(x, y)),
        Operator::AtMost => Some(word::at_most(x, y)),
        Operator::AtLeast => Some(word::at_least(x, y)),
        Operator::ShiftLeft => Some(word::left_shift(x, y)),
        Operator::ShiftRight => Some(word::right_shift(x, y)),
        Operator::Both => Some(word::bitwise_and(x, y)),
        Operator::Either => Some(word::bitwise_or(x, y)),
        Operator::Same => Some(word::bitwise_eqv(x, y)),
        Operator::Differ => Some(word::bitwise_neqv(x, y)),
    }
}

/// A quotient, if there is one.
fn divided(x: u32, y: u32) -> Option<u32>
    ensures { result ≡ infix_word Over x y }
{
    if y == 0 {
        None
    } else {
        Some(word::quotient(x, y))
    }
}

/// A remainder, if there is one.
fn remains(x: u32, y: u32) -> Option<u32>
    ensures { result ≡ infix_word Rem x y }
{
    if y == 0 {
        None
    } else {
        Some(word::remainder(x, y))
    }
}

/// Whether it divides.
fn divides(operator: Operator) -> bool
    ensures { result ≡ is_division operator }
{
    matches!(operator, Operator::Over | Operator::Rem)
}
