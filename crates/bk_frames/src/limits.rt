//! Whether a section within the limits goes on.
ghost use Rattle.std.specs.Prelude.{◌≡◌, ◌↔◌, ◌||◌, ◌<◌, ◌≤◌, ◌+◌, ℕ, [], true, false, Some, None, IfOk, OnOk, MatchOption, length, take};
ghost use Rattle.bk_base.specs.declared.source_fault.SourceKind.TheVariants.{NestedTooDeeply, TooManyNodes};
ghost use Rattle.bk_tree.specs.Tree.{Declarations};
ghost use Rattle.bk_grammar.specs.Machine.{Stack, in_section};
ghost use Rattle.bk_frames.specs.Sizes.{kept_size, size_of_declarations};
ghost use Rattle.bk_frames.specs.Unfinished.{unfinished_on, held_in};
ghost use Rattle.bk_frames.specs.Budgets.{Limit, counted, has_budget, category_of, is_tight, AreBudgets};
ghost use Rattle.bk_frames.specs.Bounds.{Always};
ghost use Rattle.bk_frames.specs.Completing.{Completes};
ghost use Rattle.bk_frames.specs.Stacked.{stack};
ghost use Rattle.bk_frames.specs.Frames.{stack_of, state};

use crate::budget::{Budget, Budgets, Category, FrameBudgets, Lookahead};
use crate::budgets::{add_completions, counted, has_budget};
use crate::completions::{completions, is_tight};
use crate::frame::{ParserState, Size, Unfinished};
use crate::frames::Frames;
use crate::size::{Form, LEAF, NOTHING, form_of, of_node};
use crate::spare::is_surely_bounded;
use bk_base::limit::{TREE_DEPTH, TREE_NODES};
use std::alloc::{AllocError, Global};

/// Adds the budgets of an unfinished construct that has these parts, by those below it; there an operator after a VALOF may continue more
/// than the operand that the VALOF is. Nodes are counted, or not.
fn add_budgets_on(
    budgets: &mut Budgets,
    unfinished: &Unfinished,
    held: Size,
    tight_below: bool,
    below: &[Budget],
    counts: bool,
) -> Result<(), AllocError>
    requires held { held ≡ held_in unfinished.now }
    requires none { budgets.old.items ≡ [] }
    ensures { OnOk result ((st : Stack) → tight_below ≡ is_tight st → AreBudgets counts st below.now
        → AreBudgets counts (unfinished_on unfinished.now st) budgets.new.items) }
{
    let completions = completions(unfinished, held, tight_below);
    add_completions(budgets, &completions, below, counts)?;
    Ok(())
}

/// The budgets of a section with declarations of this size.
fn budgets_of_section(alloc: Global, held: Size, counts: bool) -> Result<Budgets, AllocError>
    ensures { IfOk result (λ budgets. (ds : Declarations) → held ≡ size_of_declarations ds → AreBudgets counts (in_section ds) budgets.items) }
{
    let mut budgets = Budgets::new(alloc);
    let nodes = counted(counts, held.nodes);
    if held.depth > TREE_DEPTH {
        return Ok(budgets);
    }
    if nodes > TREE_NODES {
        return Ok(budgets);
    }
    let depth = TREE_DEPTH;
    let left = TREE_NODES - nodes;
    budgets.push(Budget {
        category: Category::Declaration,
        next: Lookahead::Closing,
        depth,
        nodes: left,
    })?;
    budgets.push(Budget {
        category: Category::Due,
        next: Lookahead::Closing,
        depth,
        nodes: left,
    })?;
    Ok(budgets)
}

/// What an expression of this form is, as a part.
fn category_of(form: Form) -> Category
    ensures { result ≡ category_of form }
{
    match form {
        Form::Label => Category::Label,
        Form::Call => Category::Call,
        _ => Category::Expression,
    }
}

/// Whether one of two parts is within the budgets.
fn has_either_budget(
    budgets: &[Budget],
    counts: bool,
    category: Category,
    part: Size,
    other: Category,
    part_of_other: Size,
) -> bool
    ensures { (d n e m : ℕ) → part ≡ kept_size d n → part_of_other ≡ kept_size e m
        → result ≡ (has_budget budgets.now category d (counted counts n) || has_budget budgets.now other e (counted counts m)) }
{
    if has_budget(budgets, counts, category, part) {
        return true;
    }
    has_budget(budgets, counts, other, part_of_other)
}

/// Whether the budgets allow a part with which this state goes on.
fn has_budget_for(budgets: &[Budget], counts: bool, now: &ParserState) -> bool
    ensures { (st : Stack) → AreBudgets counts st budgets.now → Completes (Limit counts) (state st now.now) ↔ (result ≡ true) }
{
    match now {
        ParserState::Want => has_either_budget(
            budgets,
            counts,
            Category::Closed,
            NOTHING,
            Category::Label,
            LEAF,
        ),
        ParserState::Have(sized) => has_either_budget(
            budgets,
            counts,
            category_of(form_of(&sized.expr)),
            sized.size,
            Category::Call,
            of_node(sized.size),
        ),
        ParserState::Begin => has_budget(budgets, counts, Category::Command, LEAF),
        ParserState::Maybe => has_either_budget(
            budgets,
            counts,
            Category::Missing,
            NOTHING,
            Category::Command,
            LEAF,
        ),
        ParserState::Did(done) => has_budget(budgets, counts, Category::Command, done.size),
        ParserState::Due => has_budget(budgets, counts, Category::Due, NOTHING),
    }
}

/// The budgets of the lowest frame for which none are kept.
fn next_budgets(frames: &Frames) -> Result<Budgets, AllocError>
    requires { length frames.now.budgets.items < length frames.now.above.items }
    ensures { IfOk result (λ budgets. AreBudgets true (stack frames.now.decls.items
        (take (length frames.now.budgets.items + 1) frames.now.above.items)) budgets.items) }
{
    let at = frames.budgets.len();
    let next = &frames.above[at];
    let mut budgets = Budgets::new(frames.alloc);
    if at == 0 {
        let below = budgets_of_section(frames.alloc, frames.held, true)?;
        add_budgets_on(
            &mut budgets,
            &next.unfinished,
            next.held,
            false,
            below.as_slice(),
            true,
        )?;
        return Ok(budgets);
    }
    let tight = is_tight(&frames.above[at - 1].unfinished);
    let below = frames.budgets[at - 1].budgets.as_slice();
    add_budgets_on(
        &mut budgets,
        &next.unfinished,
        next.held,
        tight,
        below,
        true,
    )?;
    Ok(budgets)
}

/// Keeps them.
fn keep_next_budgets(frames: &mut Frames) -> Result<(), AllocError>
    requires { length frames.old.budgets.items < length frames.old.above.items }
    ensures stack { stack_of frames.new ≡ stack_of frames.old }
    ensures above { OnOk result (length frames.new.above.items ≡ length frames.old.above.items) }
    ensures budgets { OnOk result (length frames.new.budgets.items ≡ length frames.old.budgets.items + 1) }
{
    let budgets = next_budgets(frames)?;
    frames.budgets.push(FrameBudgets { budgets })?;
    Ok(())
}

/// Keeps the budgets of all frames.
fn keep_budgets(frames: &mut Frames) -> Result<(), AllocError>
    ensures stack { stack_of frames.new ≡ stack_of frames.old }
    ensures kept { OnOk result (length frames.new.above.items ≤ length frames.new.budgets.items) }
{
    while frames.budgets.len() < frames.above.len() {
        keep_next_budgets(frames)?;
    }
    Ok(())
}

/// Whether a section within the limits goes on, by the budgets.
#[cold]
#[inline(never)]
fn has_budgets(frames: &mut Frames, now: &ParserState) -> Result<bool, AllocError>
    ensures stack { stack_of frames.new ≡ stack_of frames.old }
    ensures bounded { IfOk result (λ bounded. Completes (Limit true) (state (stack_of frames.new) now.now) ↔ (bounded ≡ true)) }
{
    keep_budgets(frames)?;
    let count = frames.above.len();
    if count == 0 {
        let budgets = budgets_of_section(frames.alloc, frames.held, true)?;
        return Ok(has_budget_for(budgets.as_slice(), true, now));
    }
    Ok(has_budget_for(frames.budgets[count - 1].budgets.as_slice(), true, now))
}

/// Whether a section within the limits goes on, in a state from which a section goes on. The budgets are computed only where this is
/// not sure without them.
pub fn is_bounded(frames: &mut Frames, now: &ParserState) -> Result<bool, AllocError>
    ensures stack { stack_of frames.new ≡ stack_of frames.old }
    ensures goes { IfOk result (λ bounded. bounded ≡ true → Completes Always (state (stack_of frames.new) now.now)
        → Completes (Limit true) (state (stack_of frames.new) now.now)) }
    ensures only { IfOk result (λ bounded. Completes (Limit true) (state (stack_of frames.new) now.now) → bounded ≡ true) }
{
    if is_surely_bounded(frames, now) {
        return Ok(true);
    }
    has_budgets(frames, now)
}

/// The budgets of these frames where nodes are not counted.
fn budgets_in_depth(frames: &Frames) -> Result<Budgets, AllocError>
    ensures { IfOk result (λ budgets. AreBudgets false (stack_of frames.now) budgets.items) }
{
    let mut budgets = budgets_of_section(frames.alloc, frames.held, false)?;
    let mut tight = false;
    for frame in &frames.above {
        let below = budgets;
        budgets = Budgets::new(frames.alloc);
        add_budgets_on(
            &mut budgets,
            &frame.unfinished,
            frame.held,
            tight,
            below.as_slice(),
            false,
        )?;
        tight = is_tight(&frame.unfinished);
    }
    Ok(budgets)
}

/// Whether a section within the depth goes on.
#[cold]
#[inline(never)]
pub fn is_bounded_in_depth(frames: &Frames, now: &ParserState) -> Result<bool, AllocError>
    ensures { IfOk result (λ bounded. Completes (Limit false) (state (stack_of frames.now) now.now) ↔ (bounded ≡ true)) }
{
    let budgets = budgets_in_depth(frames)?;
    Ok(has_budget_for(budgets.as_slice(), false, now))
}
