//! How the operands of an operator are gone through.
ghost use Rattle.std.specs.Prelude.{◌≡◌};
ghost use Rattle.bk_trans.specs.Writing.{evaluation_of, access_of};

use crate::aim::Aim;
use bk_tree::Operator;

/// How the operands of an operator are gone through.
#[derive(Clone, Copy)]
pub enum Evaluation {
    /// For their values.
    Plain,
    /// Each for its jump, so that the second is left out where the first says all. A label of its own follows them or
    /// does not.
    Short(Aim, Aim, bool),
}

/// The way of this operator, for this aim, whose own label this is.
pub fn evaluation_through(operator: Operator, aim: Aim, own: u32) -> Evaluation
    ensures { result ≡ evaluation_of operator aim own }
{
    let Aim::Jump(truth, label) = aim else {
        return Evaluation::Plain;
    };
    let there = Aim::Jump(truth, label);
    match operator {
        Operator::Both => Evaluation::Short(
            Aim::Jump(false, if truth { own } else { label }),
            there,
            truth,
        ),
        Operator::Either => Evaluation::Short(
            Aim::Jump(true, if truth { label } else { own }),
            there,
            !truth,
        ),
        _ => Evaluation::Plain,
    }
}

/// What an operator says of its operands where it is a destination, or has its address taken.
#[derive(Clone, Copy)]
pub enum Access {
    /// The word at their sum.
    Word,
    /// A byte.
    Byte,
    /// Nothing.
    Nothing,
}

/// The access of this operator.
pub fn access_by(operator: Operator) -> Access
    ensures { result ≡ access_of operator }
{
    match operator {
        Operator::Subscript => Access::Word,
        Operator::Byte => Access::Byte,
        _ => Access::Nothing,
    }
}
