//! Places that are written.
ghost use Rattle.std.specs.Prelude.{◌≡◌, ◌++◌, replicate, OnOk};
ghost use Rattle.bk_tree.specs.Tree.{declarations_in, definitions_in};
ghost use Rattle.bk_source_map.specs.Places.{jumps, prefix_places, not_places, operator_places, store_operator_places, simple_places, let_places, leave_places};

use crate::asked::has_variables;
use crate::placing::{Change, Placing};
use bk_tree::{Decl, Def, Operator, Position, Prefix, Simple};
use std::alloc::AllocError;

/// So many statements are at this place.
pub fn put(out: &mut Vec<Position>, at: Position, count: usize) -> Result<(), AllocError>
    ensures { OnOk result (out.new.items ≡ out.old.items ++ replicate count at) }
{
    for i in 0..count {
        out.push(at)?;
    }
    Ok(())
}

/// The jump on a value, if one is asked for.
pub fn put_jump(
    out: &mut Vec<Position>,
    asked: Option<bool>,
    at: Position,
) -> Result<(), AllocError>
    ensures { OnOk result (out.new.items ≡ out.old.items ++ jumps asked at) }
{
    match asked {
        None => Ok(()),
        Some(_) => put(out, at, 1),
    }
}

/// A prefix.
pub fn put_prefix(out: &mut Vec<Position>, prefix: Prefix, at: Position) -> Result<(), AllocError>
    ensures { OnOk result (out.new.items ≡ out.old.items ++ prefix_places prefix at) }
{
    match prefix {
        Prefix::Contents | Prefix::Minus | Prefix::Not => put(out, at, 1),
        Prefix::Plus | Prefix::Address => Ok(()),
    }
}

/// The NOT of a value.
pub fn put_not(out: &mut Vec<Position>, asked: Option<bool>, at: Position) -> Result<(), AllocError>
    ensures { OnOk result (out.new.items ≡ out.old.items ++ not_places asked at) }
{
    match asked {
        None => put(out, at, 1),
        Some(_) => Ok(()),
    }
}

/// An operator, after its operands.
pub fn put_operator(
    out: &mut Vec<Position>,
    operator: Operator,
    asked: Option<bool>,
    at: Position,
    sign: Position,
) -> Result<(), AllocError>
    ensures { OnOk result (out.new.items ≡ out.old.items ++ operator_places operator asked at sign) }
{
    match (operator, asked) {
        (Operator::Both, Some(truth)) => put(out, sign, usize::from(truth)),
        (Operator::Either, Some(truth)) => put(out, sign, usize::from(!truth)),
        (Operator::Subscript, _) => {
            put(out, sign, 2)?;
            put_jump(out, asked, at)
        }
        (_, _) => {
            put(out, sign, 1)?;
            put_jump(out, asked, at)
        }
    }
}

/// An assignment by address, after the operands of its destination.
pub fn put_store(
    out: &mut Vec<Position>,
    operator: Operator,
    sign: Position,
) -> Result<(), AllocError>
    ensures { OnOk result (out.new.items ≡ out.old.items ++ store_operator_places operator sign) }
{
    match operator {
        Operator::Subscript => put(out, sign, 2),
        _ => put(out, sign, 1),
    }
}

/// A command of one word.
pub fn put_simple(out: &mut Vec<Position>, word: Simple, at: Position) -> Result<(), AllocError>
    ensures { OnOk result (out.new.items ≡ out.old.items ++ simple_places word at) }
{
    match word {
        Simple::Return | Simple::Finish => put(out, at, 1),
        Simple::Break | Simple::Loop | Simple::EndCase => put(out, at, 3),
    }
}

/// The STORE of a LET with variables.
pub fn put_let(out: &mut Placing, defs: &[Def], at: Position) -> Result<(), AllocError>
    ensures { OnOk result (out.new.places.items ≡ out.old.places.items ++ let_places (definitions_in defs.now) at) }
{
    if has_variables(defs) {
        put(&mut out.places, at, 1)?;
    }
    Ok(())
}

/// The end of a block, where its declarations are left.
pub fn put_leave(out: &mut Placing, decls: &[Decl], at: Position) -> Result<(), AllocError>
    ensures { OnOk result (out.new.places.items ≡ out.old.places.items ++ leave_places (declarations_in decls.now) at) }
{
    match decls {
        [] => Ok(()),
        [_, ..] => {
            put(&mut out.places, at, 1)?;
            out.mark(Change::Leaves, at)
        }
    }
}
