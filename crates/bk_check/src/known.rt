//! Values, truths and places that are known at once, with no frame: those of names and numbers, and of operators on these.
ghost use Rattle.std.specs.Prelude.{◌≡◌, ℕ, IfOk, IfSome, ◌<◌, ◌≤◌, length};
ghost use Rattle.std.specs.Option.{option_map};
ghost use Rattle.bk_tree.specs.Tree.{Expression, expression, expressions_in};
ghost use Rattle.bk_meaning.specs.World.{World, gives, with};
ghost use Rattle.bk_meaning.specs.Lasting.{Program};
ghost use Rattle.bk_meaning.specs.Parts;
ghost use Rattle.bk_meaning.specs.Parts.{acts_at};
ghost use Rattle.bk_meaning.specs.Environment.{Environment, objects};
ghost use Rattle.bk_meaning.specs.Expressions.{value_of, truth_of, target_of, judged};
ghost use Rattle.bk_meaning.specs.Full.{full};
ghost use Rattle.bk_objects.specs.Views.{value_in, place_in, outcome_of};
ghost use Rattle.bk_lasting.specs.Views.{env_in, sense_in};
ghost use Rattle.bk_check.specs.Known.{Known};
ghost use Rattle.bk_check.specs.Resume.{applied_after, list_value};

use bk_base::word;
use bk_lasting::{Env, Sense};
use bk_objects::{Computed, Location, Store, Worth, combine, prefixed, read, sum, truth_of};
use bk_tree::{Expr, Operator, Prefix};
use std::alloc::AllocError;

/// How many operators stand inside one another in an expression that is known at once. So an expression that is not is tried in
/// few of its parts.
pub const DEPTH: u32 = 6;

/// The value that was given, if one was.
fn computed(came: Computed) -> Option<Worth>
    ensures { IfSome result (λ x. (l : ℕ) (w : World) → outcome_of l came w ≡ gives (value_in x) w) }
{
    match came {
        Computed::Value(x) => Some(x),
        Computed::DivideByZero | Computed::Undefined(_) => None,
    }
}

/// The value of a name that means this, if it has one.
fn known_name(store: &Store, sense: Option<Sense>) -> Option<Worth>
    ensures { IfSome result (λ x. (l : ℕ) (w : World) → w.memory ≡ store.now
        → Parts.named l (option_map sense_in sense) w ≡ gives (value_in x) w) }
{
    match sense {
        Some(Sense::Constant(word)) => Some(Worth::Number(word)),
        Some(Sense::Cell(offset, object)) => match read(store, Worth::Address(offset, object)) {
            Computed::Value(x) => Some(x),
            Computed::DivideByZero | Computed::Undefined(_) => None,
        },
        Some(Sense::Label) | Some(Sense::Foreign) | None => None,
    }
}

/// The value of an expression, and the turns that are left after it, if it is known at once. Where it is not, or the turns do not
/// suffice, the way by frames says why.
#[cycle(known)]
pub fn known(store: &Store, turns: u64, depth: u32, expr: &Expr, env: &Env) -> Option<(Worth, u64)>
    ensures value { IfSome result (λ k. (p : Program) →
        Known (env_in env.now).names store.now turns ((full p).value (expression expr.now)) (value_in k.0) k.1) }
    ensures fewer { IfSome result (λ k. k.1 < turns) }
    ensures lasting { IfSome result (λ _. objects (expression expr.now) ≡ 0) }
{
    if turns == 0 {
        return None;
    }
    known_inside(store, turns - 1, depth, expr, env)
}

/// The same, its turn taken.
#[cycle(known)]
fn known_inside(
    store: &Store,
    turns: u64,
    depth: u32,
    expr: &Expr,
    env: &Env,
) -> Option<(Worth, u64)>
    ensures value { IfSome result (λ k. (p : Program) →
        Known (env_in env.now).names store.now turns (value_of p (full p) (expression expr.now)) (value_in k.0) k.1) }
    ensures fewer { IfSome result (λ k. k.1 ≤ turns) }
    ensures lasting { IfSome result (λ _. objects (expression expr.now) ≡ 0) }
{
    match expr {
        Expr::Name { letters: name, .. } => {
            let x = known_name(store, env.sense(name))?;
            Some((x, turns))
        }
        Expr::Number { word: number, .. } => Some((Worth::Number(*number), turns)),
        Expr::Truth { truth, .. } => Some((Worth::Number(word::truth_of(*truth)), turns)),
        _ => {
            if depth == 0 {
                return None;
            }
            known_operation(store, turns, depth - 1, expr, env)
        }
    }
}

/// The same of an operator or a prefix.
#[cycle(known)]
fn known_operation(
    store: &Store,
    turns: u64,
    depth: u32,
    expr: &Expr,
    env: &Env,
) -> Option<(Worth, u64)>
    ensures value { IfSome result (λ k. (p : Program) →
        Known (env_in env.now).names store.now turns (value_of p (full p) (expression expr.now)) (value_in k.0) k.1) }
    ensures fewer { IfSome result (λ k. k.1 ≤ turns) }
    ensures lasting { IfSome result (λ _. objects (expression expr.now) ≡ 0) }
{
    match expr {
        Expr::Parens { inside, .. } => known(store, turns, depth, inside, env),
        Expr::Unary {
            prefix,
            operand,
            ..
        } => match prefix {
            Prefix::Address => None,
            Prefix::Contents => {
                let k = known(store, turns, depth, operand, env)?;
                let x = computed(read(store, k.0))?;
                Some((x, k.1))
            }
            _ => {
                let k = known(store, turns, depth, operand, env)?;
                let x = computed(prefixed(*prefix, k.0))?;
                Some((x, k.1))
            }
        },
        Expr::Binary {
            operator,
            left: a,
            right: b,
            ..
        } => {
            let k = known(store, turns, depth, a, env)?;
            let j = known(store, k.1, depth, b, env)?;
            let x = computed(combine(store, *operator, k.0, j.0))?;
            Some((x, j.1))
        }
        _ => None,
    }
}

/// Arguments: those that are left, and the values of those before.
#[derive(Drop)]
pub struct Arguments<'a> {
    pub items: &'a [Expr],
    pub before: Vec<Worth>,
    pub turns: u64,
}

/// The arguments from the first one on that is not known at once.
pub fn known_arguments<'a>(
    store: &Store,
    turns: u64,
    items: &'a [Expr],
    before: Vec<Worth>,
    here: &Env,
) -> Result<Arguments<'a>, AllocError>
    ensures same { IfOk result (λ k. (p : Program) (at : ℕ) (callee : Expression) (env : Environment) (w : World) → w.memory ≡ store.now → w.turns ≡ turns
        → applied_after p at (list_value k.before.items) (expressions_in k.items.now) (env_in here.now) callee env (record w { turns = k.turns })
        ≡ applied_after p at (list_value before.items) (expressions_in items.now) (env_in here.now) callee env w) }
    ensures fewer { IfOk result (λ k. (k.turns ≤ turns) × (length k.items.now ≤ length items.now)) }
{
    let mut items = items;
    let mut before = before;
    let mut turns = turns;
    'known: while let Some((first, rest)) = items.split_first() {
        match known(store, turns, DEPTH, first, here) {
            Some(k) => {
                before.push(k.0)?;
                turns = k.1;
                items = rest;
            }
            None => break 'known,
        }
    }
    Ok(Arguments {
        items,
        before,
        turns,
    })
}

/// The truth of a condition, and the turns that are left after it, if it is known at once.
#[cycle(truths)]
pub fn known_truth(
    store: &Store,
    turns: u64,
    depth: u32,
    expr: &Expr,
    env: &Env,
) -> Option<(bool, u64)>
    ensures value { IfSome result (λ k. (p : Program) →
        Known (env_in env.now).names store.now turns ((full p).truth (expression expr.now)) k.0 k.1) }
    ensures fewer { IfSome result (λ k. k.1 < turns) }
{
    if turns == 0 {
        return None;
    }
    known_truth_inside(store, turns - 1, depth, expr, env)
}

/// The same, its turn taken.
#[cycle(truths)]
fn known_truth_inside(
    store: &Store,
    turns: u64,
    depth: u32,
    expr: &Expr,
    env: &Env,
) -> Option<(bool, u64)>
    ensures value { IfSome result (λ k. (p : Program) →
        Known (env_in env.now).names store.now turns (truth_of p (full p) (expression expr.now)) k.0 k.1) }
    ensures fewer { IfSome result (λ k. k.1 ≤ turns) }
{
    match expr {
        Expr::Parens { inside, .. } => known_truth(store, turns, depth, inside, env),
        Expr::Unary {
            prefix,
            operand,
            ..
        } => match prefix {
            Prefix::Not => {
                let k = known_truth(store, turns, depth, operand, env)?;
                Some((!k.0, k.1))
            }
            _ => known_judged(store, turns, depth, expr, env),
        },
        Expr::Binary {
            operator,
            left: a,
            right: b,
            ..
        } => match operator {
            Operator::Both => {
                let k = known_truth(store, turns, depth, a, env)?;
                if k.0 {
                    known_truth(store, k.1, depth, b, env)
                } else {
                    Some((false, k.1))
                }
            }
            Operator::Either => {
                let k = known_truth(store, turns, depth, a, env)?;
                if k.0 {
                    Some((true, k.1))
                } else {
                    known_truth(store, k.1, depth, b, env)
                }
            }
            _ => known_judged(store, turns, depth, expr, env),
        },
        _ => known_judged(store, turns, depth, expr, env),
    }
}

/// The truth of an expression that is judged by its value.
fn known_judged(
    store: &Store,
    turns: u64,
    depth: u32,
    expr: &Expr,
    env: &Env,
) -> Option<(bool, u64)>
    ensures value { IfSome result (λ k. (p : Program) → Known (env_in env.now).names store.now turns
        (λ there w. with (value_of p (full p) (expression expr.now) there w) (judged (acts_at (expression expr.now)))) k.0 k.1) }
    ensures fewer { IfSome result (λ k. k.1 ≤ turns) }
{
    let k = known_inside(store, turns, depth, expr, env)?;
    match truth_of(store, k.0) {
        Ok(truth) => Some((truth, k.1)),
        Err(_) => None,
    }
}

/// A destination, and the turns that are left after it, if it is known at once.
#[cycle(targets)]
pub fn known_target(
    store: &Store,
    turns: u64,
    depth: u32,
    expr: &Expr,
    env: &Env,
) -> Option<(Location, u64)>
    ensures value { IfSome result (λ k. (p : Program) →
        Known (env_in env.now).names store.now turns ((full p).target (expression expr.now)) (place_in k.0) k.1) }
    ensures fewer { IfSome result (λ k. k.1 < turns) }
{
    if turns == 0 {
        return None;
    }
    known_target_inside(store, turns - 1, depth, expr, env)
}

/// The same, its turn taken.
#[cycle(targets)]
fn known_target_inside(
    store: &Store,
    turns: u64,
    depth: u32,
    expr: &Expr,
    env: &Env,
) -> Option<(Location, u64)>
    ensures value { IfSome result (λ k. (p : Program) →
        Known (env_in env.now).names store.now turns (target_of (full p) (expression expr.now)) (place_in k.0) k.1) }
    ensures fewer { IfSome result (λ k. k.1 ≤ turns) }
{
    match expr {
        Expr::Name { letters: name, .. } => match env.sense(name) {
            Some(Sense::Cell(offset, object)) => Some((
                Location::Cell(Worth::Address(offset, object)),
                turns,
            )),
            _ => None,
        },
        Expr::Parens { inside, .. } => known_target(store, turns, depth, inside, env),
        Expr::Unary {
            prefix: Prefix::Contents,
            operand,
            ..
        } => {
            let k = known(store, turns, depth, operand, env)?;
            Some((Location::Cell(k.0), k.1))
        }
        Expr::Binary {
            operator: Operator::Subscript,
            left: a,
            right: b,
            ..
        } => {
            let k = known(store, turns, depth, a, env)?;
            let j = known(store, k.1, depth, b, env)?;
            match sum(store, k.0, j.0) {
                Ok(at) => Some((Location::Cell(at), j.1)),
                Err(_) => None,
            }
        }
        Expr::Binary {
            operator: Operator::Byte,
            left: a,
            right: b,
            ..
        } => {
            let k = known(store, turns, depth, a, env)?;
            let j = known(store, k.1, depth, b, env)?;
            Some((Location::Byte(k.0, j.0), j.1))
        }
        _ => None,
    }
}
