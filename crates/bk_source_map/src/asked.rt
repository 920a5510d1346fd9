//! What nodes ask their operands for: a value, or a jump where its truth is so.
ghost use Rattle.std.specs.Prelude.{◌≡◌};
ghost use Rattle.bk_tree.specs.Tree.{definitions_in};
ghost use Rattle.bk_source_map.specs.Places.{negated, left_asked, right_asked, is_address, is_destination, any_variables};

use bk_tree::{Def, Operator};

/// What NOT asks its operand for.
pub fn negated(asked: Option<bool>) -> Option<bool>
    ensures { result ≡ negated asked }
{
    match asked {
        None => None,
        Some(truth) => Some(!truth),
    }
}

/// What an operator asks its left operand for.
pub fn left_asked(operator: Operator, asked: Option<bool>) -> Option<bool>
    ensures { result ≡ left_asked operator asked }
{
    match (operator, asked) {
        (Operator::Both, Some(_)) => Some(false),
        (Operator::Either, Some(_)) => Some(true),
        (_, _) => None,
    }
}

/// What an operator asks its right operand for.
pub fn right_asked(operator: Operator, asked: Option<bool>) -> Option<bool>
    ensures { result ≡ right_asked operator asked }
{
    match (operator, asked) {
        (Operator::Both | Operator::Either, Some(truth)) => Some(truth),
        (_, _) => None,
    }
}

/// Whether an operator gives an address.
pub fn is_address(operator: Operator) -> bool
    ensures { result ≡ is_address operator }
{
    matches!(operator, Operator::Subscript)
}

/// Whether a value may be put into what an operator gives.
pub fn is_destination(operator: Operator) -> bool
    ensures { result ≡ is_destination operator }
{
    matches!(operator, Operator::Subscript | Operator::Byte)
}

/// Whether a LET has variables.
pub fn has_variables(defs: &[Def]) -> bool
    ensures { result ≡ any_variables (definitions_in defs.now) }
{
    for def in defs {
        if let Def::Variables { .. } = def {
            return true;
        }
    }
    false
}
