//! Operators on values.
ghost use Rattle.std.specs.Prelude.{◌≡◌, ◌==◌, ℕ, Option, Some, is_ok, IfErr};
ghost use Rattle.std.specs.Option.{option_map};
ghost use Rattle.std.specs.Result.{result_ok};
ghost use Rattle.bk_scope.specs.Constants.{infix_word};
ghost use Rattle.bk_meaning.specs.Values.{number, address};
ghost use Rattle.bk_meaning.specs.Causes as c;
ghost use Rattle.bk_meaning.specs.World.{World, given};
ghost use Rattle.bk_meaning.specs.Parts.{fetch};
ghost use Rattle.bk_meaning.specs.Operators as o;
ghost use Rattle.bk_meaning.specs.Operators.{living_address, in_one, on_numbers, truth_of_value, operate_prefix, sum_cause, in_one_cause, difference_cause, truth_cause, equals_zero_cause, equal_cause, ordered_cause};
ghost use Rattle.bk_meaning.specs.Expressions.{combined};
ghost use Rattle.bk_objects.specs.Views.{value_in, cell_in, cause_in, outcome_of, given_by, cause_by};

use crate::bytes::read_byte;
use crate::computed::{Computed, Reason};
use crate::store::Store;
use crate::worth::{Cell, Worth};
use bk_base::word;
use bk_tree::{Operator, Prefix};

/// The word of an operator between two words. `!`, `%` and a division by zero have none.
pub fn calculated(operator: Operator, x: u32, y: u32) -> Option<u32>
    ensures { result ≡ infix_word operator x y }
{
    match operator {
        Operator::Subscript | Operator::Byte => None,
        Operator::Times => Some(word::product(x, y)),
        Operator::Over => {
            if y == 0 {
                None
            } else {
                Some(word::quotient(x, y))
            }
        }
        Operator::Rem => {
            if y == 0 {
                None
            } else {
                Some(word::remainder(x, y))
            }
        }
        Operator::Add => Some(word::sum(x, y)),
        Operator::Subtract => Some(word::difference(x, y)),
        Operator::Equal => Some(word::equal(x, y)),
        Operator::Unequal => Some(word::unequal(x, y)),
        Operator::Less => Some(word::less(x, y)),
        Operator::Greater => Some(word::greater(x, y)),
        Operator::AtMost => Some(word::at_most(x, y)),
        Operator::AtLeast => Some(word::at_least(x, y)),
        Operator::ShiftLeft => Some(word::left_shift(x, y)),
        Operator::ShiftRight => Some(word::right_shift(x, y)),
        Operator::Both => Some(word::bitwise_and(x, y)),
        Operator::Either => Some(word::bitwise_or(x, y)),
        Operator::Same => Some(word::bitwise_eqv(x, y)),
        Operator::Differ => Some(word::bitwise_neqv(x, y)),
    }
}

/// Why no operator for numbers has a value here.
fn no_numbers(x: Worth, y: Worth) -> Reason
    ensures { cause_in result ≡ c.no_numbers (value_in x) (value_in y) }
{
    if let Worth::Unset(origin) = x {
        return Reason::Unset(origin);
    }
    if let Worth::Unset(origin) = y {
        return Reason::Unset(origin);
    }
    match x {
        Worth::Number(_) => Reason::NoNumber(y),
        _ => Reason::NoNumber(x),
    }
}

/// The value at an address.
pub fn read(store: &Store, at: Worth) -> Computed
    ensures { (l : ℕ) (w : World) → w.memory ≡ store.now → outcome_of l result w ≡ fetch l (value_in at) w }
{
    let Worth::Address(offset, object) = at else {
        return Computed::Undefined(Reason::NoAddress(at));
    };
    match store.cell(object, offset) {
        None => Computed::Undefined(Reason::Cell(at)),
        Some(Cell::Places(_, _, _, _)) => Computed::Undefined(Reason::Cell(at)),
        Some(Cell::Holds(Worth::Unset(_))) => Computed::Undefined(Reason::Cell(at)),
        Some(Cell::Holds(worth)) => Computed::Value(worth),
    }
}

/// What a prefix before a value gives.
pub fn prefixed(prefix: Prefix, x: Worth) -> Computed
    ensures { (l : ℕ) (w : World) → outcome_of l result w ≡ operate_prefix l prefix (value_in x) w }
{
    let Worth::Number(word) = x else {
        return Computed::Undefined(no_numbers(x, x));
    };
    match prefix {
        Prefix::Contents | Prefix::Address => Computed::Undefined(Reason::NoNumber(x)),
        Prefix::Plus => Computed::Value(x),
        Prefix::Minus => Computed::Value(Worth::Number(word::negation(word))),
        Prefix::Not => Computed::Value(Worth::Number(word::bitwise_not(word))),
    }
}

/// Whether an object lives and has so many cells.
fn within(store: &Store, object: u64, offset: u32) -> Result<(), Reason>
    ensures within { is_ok result ≡ o.within store.now object offset }
    ensures why { IfErr result (λ why. cause_in why ≡ c.beyond (address object offset)) }
{
    match store.size(object) {
        None => Err(Reason::Beyond(Worth::Address(offset, object))),
        Some(size) if offset as usize > size => {
            Err(Reason::Beyond(Worth::Address(offset, object)))
        }
        Some(_) => Ok(()),
    }
}

/// Whether a value counts as true.
pub fn truth_of(store: &Store, x: Worth) -> Result<bool, Reason>
    ensures truth { result_ok result ≡ truth_of_value store.now (value_in x) }
    ensures why { IfErr result (λ why. cause_in why ≡ truth_cause (value_in x)) }
{
    match x {
        Worth::Number(n) => Ok(n != 0),
        Worth::Procedure(_) | Worth::Routine(_) => Ok(true),
        Worth::Unset(origin) => Err(Reason::Unset(origin)),
        Worth::Address(offset, object) => {
            within(store, object, offset)?;
            Ok(true)
        }
    }
}

/// An address in a living object.
fn living(store: &Store, object: u64, offset: u32) -> Result<Worth, Reason>
    ensures value { given_by result ≡ living_address store.now object offset }
    ensures why { IfErr result (λ why. cause_in why ≡ c.beyond (address object offset)) }
{
    match store.size(object) {
        Some(_) => Ok(Worth::Address(offset, object)),
        None => Err(Reason::Beyond(Worth::Address(offset, object))),
    }
}

/// The sum of two numbers, or of an address and a number.
pub fn sum(store: &Store, x: Worth, y: Worth) -> Result<Worth, Reason>
    ensures value { given_by result ≡ o.sum store.now (value_in x) (value_in y) }
    ensures why { IfErr result (λ why. cause_in why ≡ sum_cause (value_in x) (value_in y)) }
{
    match (x, y) {
        (Worth::Number(x), Worth::Number(y)) => Ok(Worth::Number(word::sum(x, y))),
        (Worth::Address(offset, object), Worth::Number(n)) => {
            living(store, object, word::sum(offset, n))
        }
        (Worth::Number(n), Worth::Address(offset, object)) => {
            living(store, object, word::sum(n, offset))
        }
        _ => Err(no_numbers(x, y)),
    }
}

/// Whether two objects are one, which lives.
fn one(store: &Store, a: u64, b: u64) -> Result<(), Reason>
    ensures one { result_ok result ≡ in_one store.now a b (Some tt) }
    ensures why { IfErr result (λ why. cause_in why ≡ in_one_cause a b) }
{
    if a != b {
        return Err(Reason::Apart);
    }
    match store.size(a) {
        Some(_) => Ok(()),
        None => Err(Reason::Beyond(Worth::Address(0, a))),
    }
}

/// The difference of two numbers, of an address and a number, or of two addresses in one object.
fn difference(store: &Store, x: Worth, y: Worth) -> Result<Worth, Reason>
    ensures value { given_by result ≡ o.difference store.now (value_in x) (value_in y) }
    ensures why { IfErr result (λ why. cause_in why ≡ difference_cause (value_in x) (value_in y)) }
{
    match (x, y) {
        (Worth::Number(x), Worth::Number(y)) => Ok(Worth::Number(word::difference(x, y))),
        (Worth::Address(offset, object), Worth::Number(n)) => {
            living(store, object, word::difference(offset, n))
        }
        (Worth::Address(i, a), Worth::Address(j, b)) => {
            one(store, a, b)?;
            Ok(Worth::Number(word::difference(i, j)))
        }
        _ => Err(no_numbers(x, y)),
    }
}

/// Whether a number equals another value.
fn equals_zero(store: &Store, n: u32, x: Worth) -> Result<bool, Reason>
    ensures truth { result_ok result ≡ o.equals_zero store.now n (value_in x) }
    ensures why { IfErr result (λ why. cause_in why ≡ equals_zero_cause n (value_in x)) }
{
    if n != 0 {
        return Err(no_numbers(x, x));
    }
    Ok(!truth_of(store, x)?)
}

/// Whether two values are equal.
fn equal(store: &Store, x: Worth, y: Worth) -> Result<bool, Reason>
    ensures truth { result_ok result ≡ o.equal store.now (value_in x) (value_in y) }
    ensures why { IfErr result (λ why. cause_in why ≡ equal_cause (value_in x) (value_in y)) }
{
    match x {
        Worth::Number(n) => match y {
            Worth::Number(m) => Ok(n == m),
            _ => equals_zero(store, n, y),
        },
        Worth::Address(i, a) => match y {
            Worth::Address(j, b) => {
                one(store, a, b)?;
                Ok(i == j)
            }
            Worth::Number(n) => equals_zero(store, n, x),
            _ => Err(no_numbers(x, y)),
        },
        _ => match y {
            Worth::Number(n) => equals_zero(store, n, x),
            _ => Err(no_numbers(x, y)),
        },
    }
}

/// What an operator of order gives of two words.
fn on_offsets(operator: Operator, x: u32, y: u32) -> Result<Worth, Reason>
    ensures value { given_by result ≡ option_map number (infix_word operator x y) }
    ensures why { IfErr result (λ why. cause_in why ≡ c.no_number (number x)) }
{
    match calculated(operator, x, y) {
        Some(word) => Ok(Worth::Number(word)),
        None => Err(Reason::NoNumber(Worth::Number(x))),
    }
}

/// The order of two numbers, or of two addresses in one object.
fn ordered(store: &Store, operator: Operator, x: Worth, y: Worth) -> Result<Worth, Reason>
    ensures value { given_by result ≡ o.ordered operator store.now (value_in x) (value_in y) }
    ensures why { IfErr result (λ why. cause_in why ≡ ordered_cause store.now (value_in x) (value_in y)) }
{
    match (x, y) {
        (Worth::Number(x), Worth::Number(y)) => on_offsets(operator, x, y),
        (Worth::Address(i, a), Worth::Address(j, b)) => {
            one(store, a, b)?;
            within(store, a, i)?;
            within(store, a, j)?;
            on_offsets(operator, i, j)
        }
        _ => Err(no_numbers(x, y)),
    }
}

/// What an operator that is there for numbers alone gives.
fn on_words(operator: Operator, x: Worth, y: Worth) -> Computed
    ensures { (l : ℕ) (w : World) → outcome_of l result w ≡ on_numbers l operator (value_in x) (value_in y) w }
{
    let (Worth::Number(a), Worth::Number(b)) = (x, y) else {
        return Computed::Undefined(no_numbers(x, y));
    };
    if matches!(operator, Operator::Over | Operator::Rem) && b == 0 {
        return Computed::DivideByZero;
    }
    match calculated(operator, a, b) {
        Some(word) => Computed::Value(Worth::Number(word)),
        None => Computed::Undefined(Reason::NoNumber(x)),
    }
}

/// The value that was given.
fn given_value(value: Result<Worth, Reason>) -> Computed
    ensures { (l : ℕ) (w : World) → outcome_of l result w ≡ given l (cause_by value) (given_by value) w }
{
    match value {
        Ok(x) => Computed::Value(x),
        Err(reason) => Computed::Undefined(reason),
    }
}

/// The number of the truth that was given.
fn given_truth(truth: Result<bool, Reason>) -> Computed
    ensures { (l : ℕ) (w : World) → outcome_of l result w ≡ given l (cause_by truth) (option_map o.truth_number (result_ok truth)) w }
{
    match truth {
        Ok(holds) => Computed::Value(Worth::Number(word::truth_of(holds))),
        Err(reason) => Computed::Undefined(reason),
    }
}

/// What an operator between two values gives.
pub fn combine(store: &Store, operator: Operator, x: Worth, y: Worth) -> Computed
    ensures { (l : ℕ) (w : World) → w.memory ≡ store.now → outcome_of l result w ≡ combined l operator (value_in x) (value_in y) w }
{
    match operator {
        Operator::Subscript => match sum(store, x, y) {
            Ok(at) => read(store, at),
            Err(reason) => Computed::Undefined(reason),
        },
        Operator::Byte => match read_byte(store, x, y) {
            Ok(byte) => Computed::Value(Worth::Number(u32::from(byte))),
            Err(reason) => Computed::Undefined(reason),
        },
        Operator::Add => given_value(sum(store, x, y)),
        Operator::Subtract => given_value(difference(store, x, y)),
        Operator::Equal => given_truth(equal(store, x, y)),
        Operator::Unequal => given_truth(equal(store, x, y).map(|holds| !holds)),
        Operator::Less | Operator::Greater | Operator::AtMost | Operator::AtLeast => {
            given_value(ordered(store, operator, x, y))
        }
        _ => on_words(operator, x, y),
    }
}
