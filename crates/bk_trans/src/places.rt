//! Where the declarations of all numbers went.
ghost use Rattle.std.specs.Prelude.{◌≡◌, ℕ, ◌+◌, ◌≤◌, ◌==◌, cond, length, IfOk, OnOk};
ghost use Rattle.bk_trans.specs.Scheme.{goal as GoalAt};
ghost use Rattle.bk_trans.specs.Writing.{place_of as PlaceOf, PlacesOf};

use crate::around::{Goal, Target};
use std::alloc::{AllocError, Global};

/// Where the declaration of this number went.
pub fn place_of(goals: &[Goal], number: u32) -> Goal
    ensures { result ≡ PlaceOf goals.now number }
{
    match goals.get(number as usize) {
        Some(goal) => *goal,
        None => Goal::new(0, 0),
    }
}

/// At least so many places; new ones say nothing.
fn extend(goals: &mut Vec<Goal>, count: usize) -> Result<(), AllocError>
    ensures same { OnOk result ((m : ℕ) → PlaceOf goals.new.items m ≡ PlaceOf goals.old.items m) }
    ensures long { OnOk result (count ≤ length goals.new.items) }
{
    while goals.len() < count {
        goals.push(Goal::new(0, 0))?;
    }
    Ok(())
}

/// Where the declaration of this number went.
fn set_place(goals: &mut Vec<Goal>, target: Target) -> Result<(), AllocError>
    ensures { OnOk result ((m : ℕ) → PlaceOf goals.new.items m ≡ cond (target.number == m) (GoalAt target.label target.depth) (PlaceOf goals.old.items m)) }
{
    let number = target.number as usize;
    extend(goals, number + 1)?;
    goals[number] = Goal::new(target.label, target.depth);
    Ok(())
}

/// The places of all numbers, where these declarations went; the first of one number counts.
pub fn places_of(alloc: Global, targets: &[Target]) -> Result<Vec<Goal>, AllocError>
    ensures { IfOk result (λ goals. PlacesOf goals.items targets.now) }
{
    let mut goals = Vec::with_capacity(alloc, targets.len())?;
    let mut left = targets.len();
    while left > 0 {
        left -= 1;
        set_place(&mut goals, targets[left])?;
    }
    Ok(goals)
}
