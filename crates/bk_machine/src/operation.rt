//! The operations of the function X.
ghost use Rattle.std.specs.Prelude.{◌≡◌};
ghost use Rattle.bk_machine.specs.Decoding.{operation_by};
ghost use Rattle.bk_machine.specs.Operations.{operator_word};

use bk_base::word;

/// The operators: A becomes what they give of B and A.
#[derive(Clone, Copy, Debug, PartialEq, Eq)]
pub enum Operator {
    /// 5: `B * A`.
    Multiply,
    /// 6: `B / A`.
    Divide,
    /// 7: `B REM A`.
    Remainder,
    /// 8: `B + A`.
    Plus,
    /// 9: `B - A`.
    Minus,
    /// 10: `B = A`.
    Equal,
    /// 11: `B ~= A`.
    Unequal,
    /// 12: `B < A`.
    Less,
    /// 13: `B >= A`.
    AtLeast,
    /// 14: `B > A`.
    Greater,
    /// 15: `B <= A`.
    AtMost,
    /// 16: `B << A`.
    LeftShift,
    /// 17: `B >> A`.
    RightShift,
    /// 18: `B & A`.
    And,
    /// 19: `B | A`.
    Or,
    /// 20: `B NEQV A`.
    Neqv,
    /// 21: `B EQV A`.
    Eqv,
}

/// The routines of the library, by their names in BCPL. Their arguments are at `P!2`, `P!3` and so on.
#[derive(Clone, Copy, Debug, PartialEq, Eq)]
pub enum Routine {
    /// 24.
    Stop,
    /// 25.
    Rdch,
    /// 26.
    Wrch,
    /// 27.
    Newline,
    /// 28.
    Writes,
    /// 29.
    Writen,
    /// 30.
    Writed,
    /// 31.
    Getbyte,
    /// 32.
    Putbyte,
    /// 33.
    Writef,
}

/// What an X instruction does, by the number D.
#[derive(Clone, Copy, Debug, PartialEq, Eq)]
pub enum Operation {
    /// 1: `A := !A`.
    Contents,
    /// 2: `A := -A`.
    Negate,
    /// 3: `A := NOT A`.
    Not,
    /// 4: the return from a call, `C := P!1; P := P!0`.
    Return,
    /// 5 to 21: an operator.
    Operator(Operator),
    /// 22: the end, with 0.
    Finish,
    /// 23: a switch on A by the table at C.
    Switch,
    /// 24 to 33: a routine of the library.
    Routine(Routine),
    /// 40: `A := B % A`, a byte got.
    ByteAt,
    /// 41: `B % A := P!n`, a byte set; n is the word at C.
    SetByteAt,
    /// Any other number.
    Unknown,
}

/// The operation of this number.
#[inline(always)]
pub fn operation_of(number: u32) -> Operation
    ensures { result ≡ operation_by number }
{
    match number {
        1 => Operation::Contents,
        2 => Operation::Negate,
        3 => Operation::Not,
        4 => Operation::Return,
        5 => Operation::Operator(Operator::Multiply),
        6 => Operation::Operator(Operator::Divide),
        7 => Operation::Operator(Operator::Remainder),
        8 => Operation::Operator(Operator::Plus),
        9 => Operation::Operator(Operator::Minus),
        10 => Operation::Operator(Operator::Equal),
        11 => Operation::Operator(Operator::Unequal),
        12 => Operation::Operator(Operator::Less),
        13 => Operation::Operator(Operator::AtLeast),
        14 => Operation::Operator(Operator::Greater),
        15 => Operation::Operator(Operator::AtMost),
        16 => Operation::Operator(Operator::LeftShift),
        17 => Operation::Operator(Operator::RightShift),
        18 => Operation::Operator(Operator::And),
        19 => Operation::Operator(Operator::Or),
        20 => Operation::Operator(Operator::Neqv),
        21 => Operation::Operator(Operator::Eqv),
        22 => Operation::Finish,
        23 => Operation::Switch,
        24 => Operation::Routine(Routine::Stop),
        25 => Operation::Routine(Routine::Rdch),
        26 => Operation::Routine(Routine::Wrch),
        27 => Operation::Routine(Routine::Newline),
        28 => Operation::Routine(Routine::Writes),
        29 => Operation::Routine(Routine::Writen),
        30 => Operation::Routine(Routine::Writed),
        31 => Operation::Routine(Routine::Getbyte),
        32 => Operation::Routine(Routine::Putbyte),
        33 => Operation::Routine(Routine::Writef),
        40 => Operation::ByteAt,
        41 => Operation::SetByteAt,
        _ => Operation::Unknown,
    }
}

/// What an operator gives of two words; None where it divides by zero.
#[inline(always)]
pub fn apply(operator: Operator, b: u32, a: u32) -> Option<u32>
    ensures { result ≡ operator_word operator b a }
{
    Some(match operator {
        Operator::Multiply => word::product(b, a),
        Operator::Divide if a == 0 => return None,
        Operator::Divide => word::quotient(b, a),
        Operator::Remainder if a == 0 => return None,
        Operator::Remainder => word::remainder(b, a),
        Operator::Plus => word::sum(b, a),
        Operator::Minus => word::difference(b, a),
        Operator::Equal => word::equal(b, a),
        Operator::Unequal => word::unequal(b, a),
        Operator::Less => word::less(b, a),
        Operator::AtLeast => word::at_least(b, a),
        Operator::Greater => word::greater(b, a),
        Operator::AtMost => word::at_most(b, a),
        Operator::LeftShift => word::left_shift(b, a),
        Operator::RightShift => word::right_shift(b, a),
        Operator::And => word::bitwise_and(b, a),
        Operator::Or => word::bitwise_or(b, a),
        Operator::Neqv => word::bitwise_neqv(b, a),
        Operator::Eqv => word::bitwise_eqv(b, a),
    })
}
