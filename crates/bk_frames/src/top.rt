//! The top of the stack of unfinished constructs.
ghost use Rattle.std.specs.Prelude.{◌≡◌, ◌+◌, ◌-◌, ◌<◌, ◌≤◌, ◌∷◌, ◌++◌, [], MatchOption, IfOk, OnOk, is_ok, if◌then◌else◌, vec_len, vec_capacity, length, take};
ghost use Rattle.bk_frames.specs.Unfinished.{unfinished_on, held_in};
ghost use Rattle.bk_frames.specs.Frames.{stack_of, HasBudgetsFor};

use crate::frame::{Frame, Size, Unfinished};
use crate::frames::Frames;
use crate::spare::{spare_above, spare_of};
use std::alloc::AllocError;

/// Drops the budgets that are kept for more frames than there are.
#[cold]
#[inline(never)]
fn forget_budgets(frames: &mut Frames)
    ensures stack { stack_of frames.new ≡ stack_of frames.old }
    ensures above { frames.new.above ≡ frames.old.above }
    ensures budgets { length frames.new.budgets.items ≤ length frames.old.above.items }
{
    frames.budgets.truncate(frames.above.len());
}

/// Reserves memory for one frame more, or takes the last one away.
#[cold]
#[inline(never)]
fn reserve_frame(above: &mut Vec<Frame>) -> Result<(), AllocError>
    requires some { 0 < vec_len above.old }
    requires within { vec_len above.old ≤ vec_capacity above.old }
    ensures items { above.new.items ≡ (if is_ok result then above.old.items else take (vec_len above.old - 1) above.old.items) }
    ensures same { OnOk result (vec_len above.new ≡ vec_len above.old) }
    ensures reserved { vec_len above.new < vec_capacity above.new }
{
    let Ok(()) = above.reserve(1) else {
        let _refused = above.pop();
        return Err(AllocError);
    };
    Ok(())
}

/// Puts a frame on top. Memory for it is there, and after it memory for one more: so no step has the code that drops a refused frame.
#[inline(always)]
fn push_frame(above: &mut Vec<Frame>, frame: Frame) -> Result<(), AllocError>
    requires { vec_len above.old < vec_capacity above.old }
    ensures items { above.new.items ≡ (if is_ok result then above.old.items ++ frame ∷ [] else above.old.items) }
    ensures more { OnOk result (vec_len above.new ≡ vec_len above.old + 1) }
    ensures reserved { vec_len above.new < vec_capacity above.new }
{
    above.push_reserved(frame);
    if above.len() == above.capacity() {
        return reserve_frame(above);
    }
    Ok(())
}

/// Puts an unfinished construct with these parts on top.
#[inline(always)]
#[tactic(auto, using(crate::proofs::Stacks::stack_push))]
pub fn push(frames: &mut Frames, unfinished: Unfinished, held: Size) -> Result<(), AllocError>
    requires { held ≡ held_in unfinished }
    ensures stack { IfOk result (λ _. stack_of frames.new ≡ unfinished_on unfinished (stack_of frames.old)) }
    ensures length { IfOk result (λ _. vec_len frames.new.above ≡ vec_len frames.old.above + 1) }
{
    if frames.budgets.len() > frames.above.len() {
        forget_budgets(frames);
    }
    push_in_place(frames, unfinished, held)
}

/// Puts an unfinished construct with these parts on top, in place of one that had the same budgets.
#[inline(always)]
#[tactic(auto, using(crate::proofs::Stacks::stack_push))]
pub fn push_in_place(
    frames: &mut Frames,
    unfinished: Unfinished,
    held: Size,
) -> Result<(), AllocError>
    requires held { held ≡ held_in unfinished }
    requires budgets { HasBudgetsFor frames.old (unfinished_on unfinished (stack_of frames.old)) }
    ensures stack { IfOk result (λ _. stack_of frames.new ≡ unfinished_on unfinished (stack_of frames.old)) }
    ensures length { IfOk result (λ _. vec_len frames.new.above ≡ vec_len frames.old.above + 1) }
{
    let spare = spare_above(spare_of(frames), &unfinished, held);
    push_frame(
        &mut frames.above,
        Frame {
            unfinished,
            held,
            spare,
        },
    )
}

/// Takes away what is on top.
#[tactic(auto, using(crate::proofs::Stacks::stack_push))]
pub fn pop(frames: &mut Frames) -> Option<Frame>
    ensures frames { MatchOption result ((frames.old.above.items ≡ []) × (frames.new.above.items ≡ [])
        × (frames.new.decls ≡ frames.old.decls)) (λ x. (stack_of frames.old ≡ unfinished_on x.unfinished (stack_of frames.new))
        × (vec_len frames.new.above + 1 ≡ vec_len frames.old.above)) }
    ensures budgets { MatchOption result Unit (λ x. HasBudgetsFor frames.new (unfinished_on x.unfinished (stack_of frames.new))) }
{
    frames.above.pop()
}
