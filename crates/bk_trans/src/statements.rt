//! The statements of names and operators.
ghost use Rattle.std.specs.Prelude.{◌≡◌, ◌++◌, ◌∷◌, [], map, OnOk};
ghost use Rattle.bk_trans.specs.Scheme.{prefix_code, infix_code, truth_value as TruthValue, test_of_step as TestOfStep, label_or as LabelOr};
ghost use Rattle.bk_trans.specs.Writing.{after as After, word_of as WordOf, push_of as PushOf};
ghost use Rattle.bk_ocode.specs.declared.stmt.Stmt.TheVariants as stmts;
ghost use Rattle.bk_trans.specs.declared.unresolved.Unresolved.TheVariants.{Ready};

use crate::unresolved::Unresolved;
use bk_ocode::{Dyadic, Monadic, Stmt, Variable};
use bk_scope::Bound;
use bk_tree::{Operator, Prefix};
use std::alloc::AllocError;

/// A label or a depth that is so much greater. It wraps.
pub fn after(number: u32, more: usize) -> u32
    ensures { result ≡ After number more }
{
    number.wrapping_add((more % 0x1_0000_0000) as u32)
}

/// The word of a name; a static one has the number of its declaration for a label.
pub fn word_of(bound: Bound) -> Variable
    ensures { result ≡ WordOf bound }
{
    match bound {
        Bound::Global(Some(number)) => Variable::Global(number),
        Bound::Static(number) => Variable::Static(number),
        Bound::Variable(_, depth) => Variable::Local(depth),
        _ => Variable::Local(0),
    }
}

/// What pushes what a name means.
pub fn push_of(bound: Bound) -> Unresolved
    ensures { result ≡ PushOf bound }
{
    match bound {
        Bound::Constant(Some(word)) => Unresolved::Ready(Stmt::Number {
            value: word.cast_signed(),
        }),
        Bound::Constant(None) => Unresolved::Ready(Stmt::Number { value: 0 }),
        other => Unresolved::Load(word_of(other)),
    }
}

/// The statement that pushes a truth.
pub fn truth_value(truth: bool) -> Stmt
    ensures { result ≡ TruthValue truth }
{
    if truth { Stmt::True } else { Stmt::False }
}

/// The test of a FOR with this step.
pub fn test_of_step(step: u32) -> Stmt
    ensures { result ≡ TestOfStep step }
{
    let operator = if step.cast_signed() < 0 {
        Dyadic::AtLeast
    } else {
        Dyadic::AtMost
    };
    Stmt::Dyadic { operator }
}

/// This label, or the other one where there is none.
pub fn label_or(label: u32, default: Option<u32>) -> u32
    ensures { result ≡ LabelOr label default }
{
    match default {
        None => label,
        Some(own) => own,
    }
}

/// One statement more.
pub fn put(code: &mut Vec<Unresolved>, stmt: Stmt) -> Result<(), AllocError>
    ensures { OnOk result (code.new.items ≡ code.old.items ++ Ready stmt ∷ []) }
{
    code.push(Unresolved::Ready(stmt))?;
    Ok(())
}

/// What a prefix does with the top item.
pub fn put_prefix(code: &mut Vec<Unresolved>, prefix: Prefix) -> Result<(), AllocError>
    ensures { OnOk result (code.new.items ≡ code.old.items ++ map Ready (prefix_code prefix)) }
{
    match prefix {
        Prefix::Contents => put(
            code,
            Stmt::Monadic {
                operator: Monadic::Contents,
            },
        ),
        Prefix::Minus => put(
            code,
            Stmt::Monadic {
                operator: Monadic::Negate,
            },
        ),
        Prefix::Not => put(
            code,
            Stmt::Monadic {
                operator: Monadic::Not,
            },
        ),
        Prefix::Plus | Prefix::Address => Ok(()),
    }
}

/// An operator on the two top items.
fn put_dyadic(code: &mut Vec<Unresolved>, operator: Dyadic) -> Result<(), AllocError>
    ensures { OnOk result (code.new.items ≡ code.old.items ++ Ready (stmts.Dyadic operator) ∷ []) }
{
    put(code, Stmt::Dyadic { operator })
}

/// What an operator does with the two top items.
pub fn put_infix(code: &mut Vec<Unresolved>, operator: Operator) -> Result<(), AllocError>
    ensures { OnOk result (code.new.items ≡ code.old.items ++ map Ready (infix_code operator)) }
{
    match operator {
        Operator::Subscript => {
            put_dyadic(code, Dyadic::Add)?;
            put(
                code,
                Stmt::Monadic {
                    operator: Monadic::Contents,
                },
            )
        }
        Operator::Byte => put(code, Stmt::LoadByte),
        Operator::Times => put_dyadic(code, Dyadic::Multiply),
        Operator::Over => put_dyadic(code, Dyadic::Divide),
        Operator::Rem => put_dyadic(code, Dyadic::Remainder),
        Operator::Add => put_dyadic(code, Dyadic::Add),
        Operator::Subtract => put_dyadic(code, Dyadic::Subtract),
        Operator::Equal => put_dyadic(code, Dyadic::Equal),
        Operator::Unequal => put_dyadic(code, Dyadic::Unequal),
        Operator::Less => put_dyadic(code, Dyadic::Less),
        Operator::Greater => put_dyadic(code, Dyadic::Greater),
        Operator::AtMost => put_dyadic(code, Dyadic::AtMost),
        Operator::AtLeast => put_dyadic(code, Dyadic::AtLeast),
        Operator::ShiftLeft => put_dyadic(code, Dyadic::ShiftLeft),
        Operator::ShiftRight => put_dyadic(code, Dyadic::ShiftRight),
        Operator::Both => put_dyadic(code, Dyadic::And),
        Operator::Either => put_dyadic(code, Dyadic::Or),
        Operator::Same => put_dyadic(code, Dyadic::Eqv),
        Operator::Differ => put_dyadic(code, Dyadic::Neqv),
    }
}
