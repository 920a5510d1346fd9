//! Lists of budgets.
ghost use Rattle.std.specs.Prelude.{◌≡◌, ◌&&◌, ◌+◌, ◌≤◌, ℕ, true, Some, IfOk};
ghost use Rattle.bk_frames.specs.Sizes.{kept, kept_size};
ghost use Rattle.bk_frames.specs.Budgets.{category_number, next_number, serves, counted, raised, fits, has_budget, holds_if, Within, IsAdded, AreAdded, IsKept, AreKept, by_budget, by_completion, by_completions, leads, keeps_symbol};
ghost use Rattle.bk_frames.specs.declared.completion.Completion.{Completion};
ghost use Rattle.bk_frames.specs.declared.completion.Completions.{Completions};
ghost use Rattle.bk_frames.specs.declared.budget.Category.{Category};
ghost use Rattle.bk_frames.specs.Completing as w;

use crate::budget::{Budget, Budgets, Category, Lookahead};
use crate::completion::{Completion, Completions, Following, Link, reached};
use crate::frame::Size;
use crate::size::plus;
use std::alloc::AllocError;

fn category_number(category: Category) -> u8
    ensures { result ≡ category_number category }
{
    match category {
        Category::Expression => 0,
        Category::Label => 1,
        Category::Call => 2,
        Category::Operated => 3,
        Category::Command => 4,
        Category::Missing => 5,
        Category::Definition => 6,
        Category::Declaration => 7,
        Category::Due => 8,
        Category::Closed => 9,
    }
}

fn next_number(next: Lookahead) -> u8
    ensures { result ≡ next_number next }
{
    match next {
        Lookahead::Closing => 0,
        Lookahead::Assigning => 1,
        Lookahead::Listing => 2,
        Lookahead::Going => 3,
        Lookahead::Repeating => 4,
        Lookahead::Operating => 5,
    }
}

/// Whether a budget of the one category is a budget of the other.
pub fn serves(budget: Category, part: Category) -> bool
    ensures { result ≡ serves budget part }
{
    match (budget, part) {
        (Category::Expression, Category::Label | Category::Call) => true,
        _ => category_number(budget) == category_number(part),
    }
}

/// The nodes of a part, where they are counted.
pub fn counted(counts: bool, nodes: u32) -> u32
    ensures { result ≡ counted counts nodes }
{
    if counts { nodes } else { 0 }
}

/// Whether a part of this category, depth and number of nodes is within the budget.
fn is_budget(budget: &Budget, category: Category, depth: u32, nodes: u32) -> bool
    ensures { (d : ℕ) → depth ≡ kept d → result ≡ (serves budget.now.category category && fits budget.now d nodes) }
{
    serves(budget.category, category) && depth <= budget.depth && nodes <= budget.nodes
}

/// Whether one of the budgets allows a part of this size, with any symbol after it.
pub fn has_budget(budgets: &[Budget], counts: bool, category: Category, part: Size) -> bool
    ensures { (d n : ℕ) → part ≡ kept_size d n → result ≡ has_budget budgets.now category d (counted counts n) }
{
    let nodes = counted(counts, part.nodes);
    for budget in budgets {
        if is_budget(budget, category, part.depth, nodes) {
            return true;
        }
    }
    false
}

/// Whether the one budget is within the other.
fn is_within(inner: &Budget, outer: &Budget) -> bool
    ensures { result ≡ true → Within inner.now outer.now }
{
    if category_number(inner.category) != category_number(outer.category) {
        return false;
    }
    if next_number(inner.next) != next_number(outer.next) {
        return false;
    }
    if inner.depth > outer.depth {
        return false;
    }
    if inner.nodes > outer.nodes {
        return false;
    }
    true
}

/// Adds a budget. Only budgets that are within no other one are kept.
fn add(budgets: &mut Budgets, budget: Budget) -> Result<(), AllocError>
    ensures { IfOk result (λ _. IsAdded budget budgets.old.items budgets.new.items) }
{
    let mut i = 0;
    while i < budgets.len() {
        let other = budgets.as_slice()[i];
        if is_within(&budget, &other) {
            return Ok(());
        }
        if is_within(&other, &budget) {
            budgets.remove(i);
        } else {
            i += 1;
        }
    }
    budgets.push(budget)?;
    Ok(())
}

/// A level or node more, if there is one.
fn raised(more: bool, number: u32) -> u32
    ensures { (n : ℕ) → number ≡ kept n → result ≡ kept (raised more n) }
{
    if more { plus(number, 1) } else { number }
}

/// The budget that a completion leaves of another one, for a part that this symbol follows.
fn left_by(
    completion: &Completion,
    budget: &Budget,
    following: Following,
    counts: bool,
) -> Option<Budget>
    requires { serves budget.now.category completion.now.onto ≡ true }
    ensures { (e : Completion) → IsKept completion.now e → (x : Category) (c : w.Lookahead) (d n : ℕ)
        → holds_if result x c d n ≡ leads counts e budget.now (Some following) x c d n }
{
    let floor = raised(following.more, completion.floor);
    let rise = raised(following.more, completion.rise);
    let nodes = counted(counts, raised(following.more, completion.nodes));
    if floor > budget.depth {
        return None;
    }
    if rise > budget.depth {
        return None;
    }
    if nodes > budget.nodes {
        return None;
    }
    Some(Budget {
        category: completion.category,
        next: following.next,
        depth: budget.depth - rise,
        nodes: budget.nodes - nodes,
    })
}

/// The budget that a completion leaves of another one.
fn left_of(completion: &Completion, budget: &Budget, counts: bool) -> Option<Budget>
    ensures { (e : Completion) → IsKept completion.now e → (x : Category) (c : w.Lookahead) (d n : ℕ)
        → holds_if result x c d n ≡ by_budget counts e budget.now x c d n }
{
    if !serves(budget.category, completion.onto) {
        return None;
    }
    match reached(completion.link, budget.next) {
        Some(following) => left_by(completion, budget, following, counts),
        None => None,
    }
}

/// Whether the symbol after a part is the one after the whole. Where none of some budgets is within another, the same holds for what
/// such a completion leaves of them.
fn keeps_symbol(link: Link) -> bool
    ensures { result ≡ keeps_symbol link }
{
    match link {
        Link::Each | Link::Unlisted | Link::Ended | Link::Closing => true,
        _ => false,
    }
}

/// Adds the budget that a completion leaves of another one.
fn add_left(
    budgets: &mut Budgets,
    completion: &Completion,
    budget: &Budget,
    counts: bool,
) -> Result<(), AllocError>
    ensures { IfOk result (λ _. (e : Completion) → IsKept completion.now e → AreAdded (by_budget counts e budget.now) budgets.old.items budgets.new.items) }
{
    match left_of(completion, budget, counts) {
        Some(left) => {
            if keeps_symbol(completion.link) {
                budgets.push(left)?;
                return Ok(());
            }
            add(budgets, left)
        }
        None => Ok(()),
    }
}

/// Adds the budgets that a completion leaves of these.
fn add_completion(
    budgets: &mut Budgets,
    completion: &Completion,
    below: &[Budget],
    counts: bool,
) -> Result<(), AllocError>
    ensures { IfOk result (λ _. (e : Completion) → IsKept completion.now e → AreAdded (by_completion counts e below.now) budgets.old.items budgets.new.items) }
{
    for budget in below {
        add_left(budgets, completion, budget, counts)?;
    }
    Ok(())
}

/// Adds the budgets that the completions leave of these.
pub fn add_completions(
    budgets: &mut Budgets,
    completions: &Completions,
    below: &[Budget],
    counts: bool,
) -> Result<(), AllocError>
    ensures { IfOk result (λ _. (e : Completions) → AreKept completions.now e
        → AreAdded (by_completions counts e below.now) budgets.old.items budgets.new.items) }
{
    match completions {
        Completions::One(a) => add_completion(budgets, a, below, counts),
        Completions::Two(a, b) => {
            add_completion(budgets, a, below, counts)?;
            add_completion(budgets, b, below, counts)
        }
        Completions::Three(a, b, c) => {
            add_completion(budgets, a, below, counts)?;
            add_completion(budgets, b, below, counts)?;
            add_completion(budgets, c, below, counts)
        }
        Completions::Five(a, b, c, d, e) => {
            add_completion(budgets, a, below, counts)?;
            add_completion(budgets, b, below, counts)?;
            add_completion(budgets, c, below, counts)?;
            add_completion(budgets, d, below, counts)?;
            add_completion(budgets, e, below, counts)
        }
    }
}
